/// The failure of a call of a device. The call may be repeated, and may fail again.
#[derive(Clone, Copy, Debug, PartialEq, Eq)]
pub struct Failed;
