//! Procedures as their statements see them.

/// A procedure as its statements see it.
#[derive(Clone, Copy, Debug)]
pub struct Setting {
    /// Whether it is a coproc.
    pub co: bool,
    /// Whether it is a proc with `@wlp`.
    pub weak: bool,
    /// The number of its inputs, which have the first numbers.
    pub inputs: u32,
}
