//! The state of reading a text of certificates.

ghost use Rattle.std.specs.Prelude.{◌≡◌, IfOk};
ghost use Rattle.goal_answers.specs.Trees.{tree_of};
ghost use Rattle.cert_text.specs.Certificates.{certificates_of};
ghost use Rattle.cert_text.specs.Lines.{farkas as farkas_line, goal as goal_line};
ghost use Rattle.cert_text.specs.Lines.{last as last_line, plain as plain_line};
ghost use Rattle.cert_text.specs.Lines.{split as split_line, title as title_line};
ghost use Rattle.cert_text.specs.Lines.{whole as whole_line};
ghost use Rattle.cert_text.specs.internal.ReadStates.{after, edition_of, fill, filled_of};
ghost use Rattle.cert_text.specs.internal.ReadStates.{filled_state, line_of, may_end, may_split};
ghost use Rattle.cert_text.specs.internal.ReadStates.{next, open_of, start, state_of};

use crate::goal_names::{GoalName, may_follow};
use crate::lines::Line;
use crate::nodes::{Node, Way, joined};
use crate::versions::Version;
use goal_answers::{GoalCert, Tree};
use std::alloc::{AllocError, Global};

/// What may follow.
#[derive(Clone, Copy)]
pub enum Place {
    /// The title.
    Start,
    /// A goal that follows the latest one, or the end.
    Between(Option<GoalName>),
    /// A node of the tree of this goal.
    Inside(GoalName),
    /// Nothing.
    Done,
}

/// The version of a text, with what its end requires.
#[derive(Clone, Copy)]
pub enum Edition {
    /// Version 1, which has no integer split.
    One,
    /// Version 2 before the first integer split. The end is not allowed yet.
    Lacking,
    /// Version 2 after an integer split.
    Two,
}

/// The certificates read so far, and what may follow.
#[derive(Drop)]
pub struct Reading {
    pub place: Place,
    pub edition: Edition,
    pub certs: Vec<GoalCert>,
    /// In a tree, the nodes from the root to the open place.
    pub way: Vec<Way>,
}

/// Returns the edition of a text after its title.
fn edition_of(version: Version) -> Edition
    ensures { result ≡ edition_of version }
{
    match version {
        Version::One => Edition::One,
        Version::Two => Edition::Lacking,
    }
}

/// Returns whether an integer split is allowed.
fn may_split(edition: Edition) -> bool
    ensures { result ≡ may_split edition }
{
    match edition {
        Edition::One => false,
        Edition::Lacking | Edition::Two => true,
    }
}

/// Returns whether the end is allowed.
fn may_end(edition: Edition) -> bool
    ensures { result ≡ may_end edition }
{
    match edition {
        Edition::Lacking => false,
        Edition::One | Edition::Two => true,
    }
}

/// Returns the state before anything is read.
pub fn unread(alloc: Global) -> Reading
    ensures { state_of result ≡ start }
{
    Reading {
        place: Place::Start,
        edition: Edition::One,
        certs: Vec::new(alloc),
        way: Vec::new(alloc),
    }
}

/// Puts `tree` at the open place. Returns the complete tree if no open place is left.
fn fill(alloc: Global, way: &mut Vec<Way>, tree: Tree) -> Result<Option<Tree>, AllocError>
    ensures { IfOk result (λ whole. fill (open_of way.old.items) (tree_of tree)
        ≡ filled_of whole way.new.items) }
{
    let mut part = tree;
    while let Some(step) = way.pop() {
        let boxed = Box::new(alloc, part)?;
        match step {
            Way::First(node) => {
                way.push(Way::Second(node, boxed))?;
                return Ok(None);
            }
            Way::Second(node, first) => part = joined(node, first, boxed),
        }
    }
    Ok(Some(part))
}

/// Puts a leaf at the open place of the goal's tree.
fn put_leaf(
    alloc: Global,
    reading: &mut Reading,
    name: GoalName,
    leaf: Tree,
) -> Result<(), AllocError>
    ensures { IfOk result (λ _. state_of reading.new
        ≡ filled_state reading.old.edition (certificates_of reading.old.certs.items) name
        (fill (open_of reading.old.way.items) (tree_of leaf))) }
{
    match fill(alloc, &mut reading.way, leaf)? {
        None => reading.place = Place::Inside(name),
        Some(tree) => {
            reading.certs.push(GoalCert {
                proc: name.proc,
                id: name.id,
                tree,
            })?;
            reading.place = Place::Between(Some(name));
        }
    }
    Ok(())
}

/// Reads a comparison. Returns whether it is allowed.
pub fn next_split(reading: &mut Reading) -> Result<bool, AllocError>
    ensures { IfOk result (λ allowed. after allowed (state_of reading.new)
        ≡ next (state_of reading.old) split_line) }
{
    match reading.place {
        Place::Inside(_) if reading.way.len() < 999 => {
            reading.way.push(Way::First(Node::Question))?;
            Ok(true)
        }
        _ => Ok(false),
    }
}

/// Reads an integer split. Returns whether it is allowed.
pub fn next_whole(reading: &mut Reading, variable: u32, bound: i64) -> Result<bool, AllocError>
    ensures { IfOk result (λ allowed. after allowed (state_of reading.new)
        ≡ next (state_of reading.old) (whole_line variable bound)) }
{
    match reading.place {
        Place::Inside(_) if may_split(reading.edition) && reading.way.len() < 999 => {
            reading.way.push(Way::First(Node::Whole(variable, bound)))?;
            reading.edition = Edition::Two;
            Ok(true)
        }
        _ => Ok(false),
    }
}

/// Reads a leaf without multipliers. Returns whether it is allowed.
pub fn next_plain(alloc: Global, reading: &mut Reading) -> Result<bool, AllocError>
    ensures { IfOk result (λ allowed. after allowed (state_of reading.new)
        ≡ next (state_of reading.old) plain_line) }
{
    match reading.place {
        Place::Inside(name) => {
            put_leaf(alloc, reading, name, Tree::Plain)?;
            Ok(true)
        }
        _ => Ok(false),
    }
}

/// Reads a leaf with multipliers. Returns whether it is allowed.
fn next_farkas(
    alloc: Global,
    reading: &mut Reading,
    multipliers: Vec<(u32, u64)>,
) -> Result<bool, AllocError>
    ensures { IfOk result (λ allowed. after allowed (state_of reading.new)
        ≡ next (state_of reading.old) (farkas_line multipliers.items)) }
{
    match reading.place {
        Place::Inside(name) => {
            put_leaf(alloc, reading, name, Tree::Farkas(multipliers))?;
            Ok(true)
        }
        _ => Ok(false),
    }
}

/// Reads the title. Returns whether it is allowed.
fn next_title(alloc: Global, reading: &mut Reading, version: Version) -> bool
    ensures { after result (state_of reading.new)
        ≡ next (state_of reading.old) (title_line version) }
{
    match reading.place {
        Place::Start => {
            reading.certs = Vec::new(alloc);
            reading.edition = edition_of(version);
            reading.place = Place::Between(None);
            true
        }
        _ => false,
    }
}

/// Reads a goal. Returns whether it is allowed and follows the latest goal.
fn next_goal(reading: &mut Reading, name: GoalName) -> bool
    ensures { after result (state_of reading.new) ≡ next (state_of reading.old) (goal_line name) }
{
    match reading.place {
        Place::Between(latest) if may_follow(latest, name) => {
            reading.way.clear();
            reading.place = Place::Inside(name);
            true
        }
        _ => false,
    }
}

/// Reads the end. Returns whether it is allowed.
fn next_last(reading: &mut Reading) -> bool
    ensures { after result (state_of reading.new) ≡ next (state_of reading.old) last_line }
{
    match reading.place {
        Place::Between(_) if may_end(reading.edition) => {
            reading.place = Place::Done;
            true
        }
        _ => false,
    }
}

/// Reads a line. Returns whether it is allowed.
pub fn next(alloc: Global, reading: &mut Reading, line: Line) -> Result<bool, AllocError>
    ensures { IfOk result (λ allowed. after allowed (state_of reading.new)
        ≡ next (state_of reading.old) (line_of line)) }
{
    match line {
        Line::Title(version) => Ok(next_title(alloc, reading, version)),
        Line::Goal(name) => Ok(next_goal(reading, name)),
        Line::Split => next_split(reading),
        Line::Whole(variable, bound) => next_whole(reading, variable, bound),
        Line::Farkas(multipliers) => next_farkas(alloc, reading, multipliers),
        Line::Plain => next_plain(alloc, reading),
        Line::Last => Ok(next_last(reading)),
    }
}
