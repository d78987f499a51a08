//! The writer of certificates.

ghost use Rattle.std.specs.Prelude.{◌≡◌, ◌++◌, ◌∷◌, [], OnOk, IfOk, map};
ghost use Rattle.goal_answers.specs.Trees.{tree_of};
ghost use Rattle.cert_text.specs.Certificates.{certificate_of, certificates_of};
ghost use Rattle.cert_text.specs.Lines.{id_text, line_text, multipliers_text, goal as goal_line};
ghost use Rattle.cert_text.specs.Lines.{title as title_line, whole as whole_line};
ghost use Rattle.cert_text.specs.Texts.{closed, goals_lines, has_whole, text_of, tree_lines};
ghost use Rattle.cert_text.specs.Texts.{version};

use crate::versions::Version;
use goal_answers::{GoalCert, Tree};
use heylo_formula::GoalId;
use number_texts::write_number;
use std::alloc::{AllocError, Global};

/// Appends the name of a goal in its procedure.
fn write_id(text: &mut Vec<u8>, id: GoalId) -> Result<(), AllocError>
    ensures { OnOk result (text.new.items ≡ text.old.items ++ id_text id) }
{
    match id {
        GoalId::Main => Ok(text.extend_from_slice(b"main")?),
        GoalId::Pre => Ok(text.extend_from_slice(b"pre")?),
        GoalId::Post => Ok(text.extend_from_slice(b"post")?),
        GoalId::Invariant(number) => {
            text.extend_from_slice(b"invariant ")?;
            Ok(write_number(text, number)?)
        }
        GoalId::Ranking(number) => {
            text.extend_from_slice(b"ranking ")?;
            Ok(write_number(text, number)?)
        }
    }
}

/// Appends the line of a goal.
fn write_goal(text: &mut Vec<u8>, cert: &GoalCert) -> Result<(), AllocError>
    ensures { OnOk result (text.new.items ≡ text.old.items
        ++ closed (map line_text (goal_line (certificate_of cert.now).name ∷ []))) }
{
    text.extend_from_slice(b"goal ")?;
    write_number(text, cert.proc)?;
    text.push(b' ')?;
    write_id(text, cert.id)?;
    Ok(text.push(b'\n')?)
}

/// Appends multipliers, each with a space before it.
fn write_multipliers(text: &mut Vec<u8>, multipliers: &[(u32, u64)]) -> Result<(), AllocError>
    ensures { OnOk result (text.new.items ≡ text.old.items ++ multipliers_text multipliers.now) }
{
    for (index, multiplier) in multipliers {
        text.push(b' ')?;
        write_number(text, *index)?;
        text.push(b':')?;
        write_number(text, *multiplier)?;
    }
    Ok(())
}

/// Appends the line of an integer split.
fn write_whole(text: &mut Vec<u8>, variable: u32, bound: i64) -> Result<(), AllocError>
    ensures { OnOk result (text.new.items ≡ text.old.items
        ++ closed (map line_text (whole_line variable bound ∷ []))) }
{
    text.extend_from_slice(b"i ")?;
    write_number(text, variable)?;
    text.push(b' ')?;
    write_number(text, bound)?;
    Ok(text.push(b'\n')?)
}

/// Appends the lines of a tree.
fn write_tree(text: &mut Vec<u8>, tree: &Tree) -> Result<(), AllocError>
    ensures { OnOk result (text.new.items ≡ text.old.items
        ++ closed (map line_text (tree_lines (tree_of tree.now)))) }
{
    match tree {
        Tree::Split(holds, fails) => {
            text.extend_from_slice(b"s\n")?;
            write_tree(text, holds)?;
            Ok(write_tree(text, fails)?)
        }
        Tree::Farkas(multipliers) => {
            text.push(b'f')?;
            write_multipliers(text, multipliers)?;
            Ok(text.push(b'\n')?)
        }
        Tree::Plain => Ok(text.extend_from_slice(b"t\n")?),
        Tree::Whole(variable, bound, most, more) => {
            write_whole(text, *variable, *bound)?;
            write_tree(text, most)?;
            Ok(write_tree(text, more)?)
        }
    }
}

/// Appends each goal with its tree.
fn write_goals(text: &mut Vec<u8>, certs: &[GoalCert]) -> Result<(), AllocError>
    ensures { OnOk result (text.new.items ≡ text.old.items
        ++ closed (map line_text (goals_lines (certificates_of certs.now)))) }
{
    for cert in certs {
        write_goal(text, cert)?;
        write_tree(text, &cert.tree)?;
    }
    Ok(())
}

/// Returns whether the tree has an integer split.
fn has_whole(tree: &Tree) -> bool
    ensures { result ≡ has_whole (tree_of tree.now) }
{
    match tree {
        Tree::Split(holds, fails) => has_whole(holds) || has_whole(fails),
        Tree::Farkas(_) | Tree::Plain => false,
        Tree::Whole(_, _, _, _) => true,
    }
}

/// Returns the version of the text of a list of certificates.
fn version_of(certs: &[GoalCert]) -> Version
    ensures { result ≡ version (certificates_of certs.now) }
{
    for cert in certs {
        if has_whole(&cert.tree) {
            return Version::Two;
        }
    }
    Version::One
}

/// Appends the title.
fn write_title(text: &mut Vec<u8>, version: Version) -> Result<(), AllocError>
    ensures { OnOk result (text.new.items ≡ text.old.items
        ++ closed (map line_text (title_line version ∷ []))) }
{
    match version {
        Version::One => Ok(text.extend_from_slice(b"caesar certificate 1\n")?),
        Version::Two => Ok(text.extend_from_slice(b"caesar certificate 2\n")?),
    }
}

/// Returns the text of a list of certificates: version 2 if one of the trees has an integer split,
/// otherwise version 1.
///
/// The text spells the list if all of the following holds: the goals are in strictly growing order;
/// the trees are at most 1,000 deep; each leaf has one or more multipliers from 1 to 2^62 - 1, with
/// growing row indexes, or none; and integer splits are at numbers between -2^62 and 2^62.
pub fn write_cert(alloc: Global, certs: &[GoalCert]) -> Result<Vec<u8>, AllocError>
    ensures { IfOk result (λ text. text.items ≡ text_of (certificates_of certs.now)) }
{
    let mut text = Vec::new(alloc);
    write_title(&mut text, version_of(certs))?;
    write_goals(&mut text, certs)?;
    text.extend_from_slice(b"end\n")?;
    Ok(text)
}
