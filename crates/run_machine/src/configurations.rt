//! Configurations of a run, with acts by their places, and the results of a step.

ghost use Rattle.std.specs.Prelude.{◌≡◌};
ghost use Rattle.run_machine.specs.Names.{stored};
ghost use Rattle.run_machine.specs.SameConfigurations.{same_stored};

use heylo_formula::Val;
use heyvl_num::{Ext, Frac};

/// An item that is still to be done. Procedures are numbered, acts named by their place in the
/// procedure's body: its index, from 0, in the order of the text, where an act comes before the
/// acts in it.
#[derive(Clone, Copy, Debug, PartialEq, Eq, Hash)]
pub enum Item {
    /// An act: its procedure and its place.
    Do(u32, u32),
    /// The test of a loop after an iteration: its procedure and its place.
    Turn(u32, u32),
    /// An output that takes any value: its procedure and its number among the variables.
    Out(u32, u32),
    /// The return from a call: the calling procedure and the call's place.
    Back(u32, u32),
}

/// A waiting caller: its items after the call, and its state.
#[derive(PartialEq, Eq, Hash, Drop)]
pub struct Frame {
    pub items: Vec<Item>,
    pub state: Vec<Val>,
}

/// A configuration of a run. The run has terminated if no item is left. Two configurations are
/// equal if all their fields are.
#[derive(PartialEq, Eq, Hash, Drop)]
pub struct Config {
    /// The number of the procedure that was started.
    pub proc: u32,
    /// The items of the running procedure.
    pub items: Vec<Item>,
    /// The values of the running procedure's variables.
    pub state: Vec<Val>,
    /// The callers, the first one first.
    pub frames: Vec<Frame>,
    /// The reward so far.
    pub reward: Ext,
    /// The iterations so far of each loop of the started procedure.
    pub turns: Vec<u64>,
    /// The number of decisions asked for so far.
    pub made: u32,
}

/// A decision: a side of a pick, or the value of a variable.
#[derive(Clone, Copy, Debug)]
pub enum Decide {
    Left,
    Right,
    Give(Val),
}

/// The result of a step.
#[derive(Drop)]
pub enum Stepped {
    /// The next configurations with their probabilities.
    Next(Vec<(Frac, Config)>),
    /// The state and all frames of a next configuration have more than 512 values.
    Deep,
    /// A number of the step overflows.
    Bits,
}

impl Config {
    /// Returns whether all fields are equal, including the counts of decisions and of iterations.
    pub fn is_same(&self, other: &Config) -> bool
        ensures { result ≡ same_stored (stored self.now) (stored other.now) }
    {
        self == other
    }
}
