//! Reasons why a certificate proves nothing.

/// The reason why a goal is not proved by certificates.
#[derive(Drop)]
pub enum Miss {
    /// There is no certificate of the goal.
    Absent,
    /// The certificate is refused at a node of its tree. The list has, for each node above it,
    /// whether its comparison holds on the way.
    Place(Vec<bool>),
}
