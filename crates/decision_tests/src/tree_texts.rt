//! Certificates as texts.

use goal_answers::Tree;
use std::alloc::{AllocError, Global};
use test_lines::{cut, index};
use test_texts::{multipliers_of, write_multipliers};

/// Takes the last tree.
fn last(trees: &mut Vec<Box<Tree>>) -> Result<Box<Tree>, AllocError> {
    match trees.pop() {
        Some(tree) => Ok(tree),
        None => Err(AllocError),
    }
}

fn push(alloc: Global, tree: Tree, trees: &mut Vec<Box<Tree>>) -> Result<(), AllocError> {
    trees.push(Box::new(alloc, tree)?)?;
    Ok(())
}

fn split(alloc: Global, trees: &mut Vec<Box<Tree>>) -> Result<(), AllocError> {
    let fails = last(trees)?;
    let holds = last(trees)?;
    push(alloc, Tree::Split(holds, fails), trees)
}

/// Reads the split of a variable at a number, such as `0:-3`.
fn whole(alloc: Global, text: &str, trees: &mut Vec<Box<Tree>>) -> Result<(), AllocError> {
    let above = last(trees)?;
    let below = last(trees)?;
    let (variable, number) = cut(text, ':');
    let bound = number.parse::<i64>().unwrap_or(0);
    push(
        alloc,
        Tree::Whole(index(variable)?, bound, below, above),
        trees,
    )
}

fn read_other(alloc: Global, word: &str, trees: &mut Vec<Box<Tree>>) -> Result<(), AllocError> {
    match word.strip_prefix('i') {
        Some(text) => whole(alloc, text, trees),
        None => Err(AllocError),
    }
}

fn read_word(alloc: Global, word: &str, trees: &mut Vec<Box<Tree>>) -> Result<(), AllocError> {
    match word {
        "s" => split(alloc, trees),
        "t" => push(alloc, Tree::Plain, trees),
        _ => match word.strip_prefix('f') {
            Some(leaf) => push(
                alloc,
                Tree::Farkas(multipliers_of(alloc, leaf, ',')?),
                trees,
            ),
            None => read_other(alloc, word, trees),
        },
    }
}

/// Reads a certificate. `t` is a leaf without multipliers, and `f0:1,2:1` one with multipliers of
/// rows. `s` is a comparison over the two trees before it, and `i0:3` a split over them: the
/// variable 0 is at most 3, or at least 4.
pub fn tree_of(alloc: Global, text: &str) -> Result<Box<Tree>, AllocError> {
    let mut trees = Vec::new(alloc);
    for word in text.split_whitespace() {
        read_word(alloc, word, &mut trees)?;
    }
    last(&mut trees)
}

/// Returns the number of leaves.
pub fn leaves(tree: &Tree) -> u32 {
    match tree {
        Tree::Split(holds, fails) => leaves(holds).saturating_add(leaves(fails)),
        Tree::Farkas(_) => 1,
        Tree::Plain => 1,
        Tree::Whole(_, _, below, above) => leaves(below).saturating_add(leaves(above)),
    }
}

/// Writes the letters of the nodes, each before its two trees.
pub fn write_letters(tree: &Tree, text: &mut String) -> Result<(), AllocError> {
    match tree {
        Tree::Split(holds, fails) => {
            text.push_str("s")?;
            write_letters(holds, text)?;
            write_letters(fails, text)
        }
        Tree::Farkas(_) => text.push_str("f"),
        Tree::Plain => text.push_str("t"),
        Tree::Whole(_, _, below, above) => {
            text.push_str("i")?;
            write_letters(below, text)?;
            write_letters(above, text)
        }
    }
}

/// Writes the multipliers of the leaf with this number, among the leaves that have multipliers.
pub fn write_leaf(tree: &Tree, leaf: u32, text: &mut String) -> Result<(), AllocError> {
    match tree {
        Tree::Split(first, second) | Tree::Whole(_, _, first, second) => {
            let before = certified(first);
            if leaf < before {
                write_leaf(first, leaf, text)
            } else {
                write_leaf(second, leaf - before, text)
            }
        }
        Tree::Farkas(multipliers) => write_multipliers(multipliers, text),
        Tree::Plain => Ok(()),
    }
}

/// Returns the number of leaves with multipliers.
fn certified(tree: &Tree) -> u32 {
    match tree {
        Tree::Split(holds, fails) => certified(holds).saturating_add(certified(fails)),
        Tree::Farkas(_) => 1,
        Tree::Plain => 0,
        Tree::Whole(_, _, below, above) => certified(below).saturating_add(certified(above)),
    }
}
