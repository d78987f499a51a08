//! The versions of texts of certificates.

/// The version of a text, given by its title.
#[derive(Clone, Copy)]
pub enum Version {
    /// No tree has an integer split.
    One,
    /// Some tree has an integer split.
    Two,
}
