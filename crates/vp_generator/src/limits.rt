//! The limits of a form that is generated, or computed for a goal.

/// The number of nodes that a form may have.
pub const MOST_NODES: u64 = 200_000;

/// The depth that a form may have. A leaf has the depth 1.
pub const DEEPEST: u64 = 1_000;
