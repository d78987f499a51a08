//! Prenexed forms.

use heylo_formula::Form;
use heyvl_acts::VarInfo;

/// A form without binders, and its variables by number.
#[derive(Drop)]
pub struct Prenex {
    pub form: Form,
    pub vars: Vec<VarInfo>,
}
