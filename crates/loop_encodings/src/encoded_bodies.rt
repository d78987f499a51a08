//! The encoding of a body.

use heyvl_acts::{Act, VarInfo};

/// Acts without loops and calls, and their variables.
#[derive(Drop)]
pub struct Encoded {
    pub acts: Vec<Act>,
    /// The procedure's variables, then the fresh ones.
    pub vars: Vec<VarInfo>,
}
