//! The replies of the commands to the bytes of their files.

pub mod certify;
pub mod check;
pub mod generate;
pub mod omega;
pub mod pgcl;
pub mod print;
pub mod refute;
pub mod remainder;
pub mod run;
pub mod verify;
