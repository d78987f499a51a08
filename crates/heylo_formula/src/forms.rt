//! Forms and conditions.

use crate::types::Ty;
use heyvl_num::{Ext, Frac};
use heyvl_places::Span;

/// A form of HeyLo: a tree that has a number or infinity as its value in each state. Variables are
/// numbers.
#[cycle(forms)]
pub enum Form {
    Const(Ext),
    /// The value of a numeric variable.
    Var(u32),
    Sum(Box<Form>, Box<Form>),
    /// The plain difference of integers, which may be negative.
    Diff(Box<Form>, Box<Form>),
    /// The truncated difference: 0 if the second operand is larger.
    Cut(Box<Form>, Box<Form>),
    Scale(Frac, Box<Form>),
    /// The product, with the place of its operator in the text.
    Product(Box<Form>, Box<Form>, Span),
    Min(Box<Form>, Box<Form>),
    Max(Box<Form>, Box<Form>),
    /// Implication (Goedel's): infinity if the first operand is at most the second, otherwise the
    /// second.
    Imply(Box<Form>, Box<Form>),
    /// Coimplication: 0 if the first operand is at least the second, otherwise the second.
    CoImply(Box<Form>, Box<Form>),
    /// Infinity if the operand is infinite, otherwise 0.
    Validate(Box<Form>),
    /// 0 if the operand is 0, otherwise infinity.
    CoValidate(Box<Form>),
    /// Infinity if the condition holds, otherwise 0.
    Embed(Box<Cond>),
    /// 1 if the condition holds, otherwise 0.
    Iverson(Box<Cond>),
    /// The first form if the condition holds, otherwise the second.
    Select(Box<Cond>, Box<Form>, Box<Form>),
    /// A binder: whether it is a supremum (otherwise it is an infimum), the variable that it binds,
    /// the variable after which it is named, the type of the bound variable, and the body.
    Bind(bool, u32, u32, Ty, Box<Form>),
}

impl Drop for Form {
    #[cycle(forms_drop)]
    fn drop(self) {
        match self {
            Form::Const(_) => {}
            Form::Var(_) => {}
            Form::Sum(_, _) => {}
            Form::Diff(_, _) => {}
            Form::Cut(_, _) => {}
            Form::Scale(_, _) => {}
            Form::Product(_, _, _) => {}
            Form::Min(_, _) => {}
            Form::Max(_, _) => {}
            Form::Imply(_, _) => {}
            Form::CoImply(_, _) => {}
            Form::Validate(_) => {}
            Form::CoValidate(_) => {}
            Form::Embed(_) => {}
            Form::Iverson(_) => {}
            Form::Select(_, _, _) => {}
            Form::Bind(_, _, _, _, _) => {}
        }
    }
}

/// A condition: a tree that is true or false in each state.
#[cycle(forms)]
pub enum Cond {
    Const(bool),
    /// The value of a Boolean variable.
    Var(u32),
    Not(Box<Cond>),
    And(Box<Cond>, Box<Cond>),
    Or(Box<Cond>, Box<Cond>),
    /// Both conditions hold, or neither does.
    Same(Box<Cond>, Box<Cond>),
    Le(Box<Form>, Box<Form>),
    Lt(Box<Form>, Box<Form>),
    /// The two numbers are equal.
    EqNum(Box<Form>, Box<Form>),
    /// The second condition if the first holds, otherwise the third.
    Ite(Box<Cond>, Box<Cond>, Box<Cond>),
}

impl Drop for Cond {
    #[cycle(forms_drop)]
    fn drop(self) {
        match self {
            Cond::Const(_) => {}
            Cond::Var(_) => {}
            Cond::Not(_) => {}
            Cond::And(_, _) => {}
            Cond::Or(_, _) => {}
            Cond::Same(_, _) => {}
            Cond::Le(_, _) => {}
            Cond::Lt(_, _) => {}
            Cond::EqNum(_, _) => {}
            Cond::Ite(_, _, _) => {}
        }
    }
}
