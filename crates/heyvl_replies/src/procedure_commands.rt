//! Parts of the commands that name a procedure.

pub(crate) mod procedures;
pub(crate) mod replies;
pub(crate) mod texts;
