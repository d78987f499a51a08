//! The table of expressions: the elaboration of each operator. `None` means that the types of its
//! operands are wrong.

ghost use Rattle.heylo_formula.specs.PlainTrees.{cond_of, form_of};
ghost use Rattle.heylo_formula.specs.Formula.Cond.{ite, not};
ghost use Rattle.heylo_formula.specs.Formula.Form.{difference, number, select};
ghost use Rattle.heyvl_num.specs.Value.Value.{infinite};
ghost use Rattle.heylo_formula.specs.Typing.NumberType.{uint, ureal};
ghost use Rattle.heylo_formula.specs.Typing.{is_unsigned, join};
ghost use Rattle.typed_expressions.specs.Views.{meaning_of, kind_of};
ghost use Rattle.typed_expressions.specs.Table.{binary, bound, bracket, choice, comparison};
ghost use Rattle.typed_expressions.specs.Table.{conegation, constant, declarable, embedding};
ghost use Rattle.typed_expressions.specs.Table.{extended, infinity, joined_numbers, literal, minus};
ghost use Rattle.typed_expressions.specs.Table.{negation, negative, nought, numbers, quantified};
ghost use Rattle.typed_expressions.specs.Table.{quotient, selected, truths, unary, variable};
ghost use Rattle.std.specs.Prelude.{◌==◌, ◌≡◌, IfOk, Some, if◌then◌else◌, option_map};

use crate::literals::literal_value;
use crate::meanings::{Kind, Meaning};
use crate::scopes::Local;
use heylo_formula::{Cond, Form, Ty};
use heyvl_num::{Ext, Frac};
use heyvl_places::Span;
use heyvl_syntax::{BinaryOp, Lit, TypeName, UnaryOp};
use std::alloc::{AllocError, Global};

/// Returns the common type: the least one to which both widen.
pub fn joined(a: Kind, b: Kind) -> Option<Kind>
    ensures { option_map kind_of result ≡ join (kind_of a) (kind_of b) }
{
    match (a, b) {
        (Kind::UInt, other) => Some(other),
        (other, Kind::UInt) => Some(other),
        (Kind::Int, Kind::Int) => Some(Kind::Int),
        (Kind::UReal, Kind::UReal) => Some(Kind::UReal),
        (Kind::UReal, Kind::EUReal) => Some(Kind::EUReal),
        (Kind::EUReal, Kind::UReal) => Some(Kind::EUReal),
        (Kind::EUReal, Kind::EUReal) => Some(Kind::EUReal),
        (Kind::Int, Kind::UReal) => None,
        (Kind::Int, Kind::EUReal) => None,
        (Kind::UReal, Kind::Int) => None,
        (Kind::EUReal, Kind::Int) => None,
    }
}

/// Returns true for UInt, UReal and EUReal.
pub(crate) fn unsigned(kind: Kind) -> bool
    ensures { result ≡ is_unsigned (Some (kind_of kind)) }
{
    match kind {
        Kind::Int => false,
        Kind::UInt => true,
        Kind::UReal => true,
        Kind::EUReal => true,
    }
}

/// Returns the type of a variable that is declared with this type name, if a variable may have it.
pub fn declarable(name: TypeName) -> Option<Ty>
    ensures { result ≡ declarable name }
{
    match name {
        TypeName::Bool => Some(Ty::Bool),
        TypeName::Int => Some(Ty::Int),
        TypeName::UInt => Some(Ty::UInt),
        TypeName::UReal => Some(Ty::UReal),
        TypeName::EUReal => None,
        TypeName::Real => None,
    }
}

/// Returns UInt for an integer, and UReal for any other fraction.
fn kind_of_value(value: Frac) -> Kind
    ensures { kind_of result ≡ if value.den == 1 then uint else ureal }
{
    if value.den() == 1 {
        Kind::UInt
    } else {
        Kind::UReal
    }
}

/// Returns a number literal.
pub(crate) fn literal(number: Lit) -> Option<Meaning>
    ensures { option_map meaning_of result ≡ literal number }
{
    let value = literal_value(number)?;
    Some(Meaning::Number(kind_of_value(value), Form::Const(Ext::Fin(value))))
}

/// Returns `true` or `false`.
pub(crate) fn constant(value: bool) -> Meaning
    ensures { meaning_of result ≡ constant value }
{
    Meaning::Truth(Cond::Const(value))
}

/// Returns `\infty`.
pub(crate) fn infinity() -> Meaning
    ensures { meaning_of result ≡ infinity }
{
    Meaning::Number(Kind::EUReal, Form::Const(Ext::Inf))
}

/// Returns a visible variable.
pub(crate) fn variable(local: Local) -> Meaning
    ensures { meaning_of result ≡ variable local }
{
    match local.ty {
        TypeName::Bool => Meaning::Truth(Cond::Var(local.number)),
        TypeName::Int => Meaning::Number(Kind::Int, Form::Var(local.number)),
        TypeName::UInt => Meaning::Number(Kind::UInt, Form::Var(local.number)),
        TypeName::UReal => Meaning::Number(Kind::UReal, Form::Var(local.number)),
        TypeName::EUReal => Meaning::Number(Kind::EUReal, Form::Var(local.number)),
        TypeName::Real => Meaning::Real,
    }
}

/// Returns a formula of type EUReal, if `holds` is true.
fn extended(holds: bool, form: Form) -> Option<Meaning>
    ensures { option_map meaning_of result ≡ extended holds (form_of form) }
{
    if holds {
        Some(Meaning::Number(Kind::EUReal, form))
    } else {
        None
    }
}

/// Returns `a - b` for two numbers with this common type.
fn minus(kind: Kind, a: Box<Form>, b: Box<Form>) -> Option<Meaning>
    ensures { option_map meaning_of result
        ≡ minus (kind_of kind) (form_of a.value) (form_of b.value) }
{
    match kind {
        Kind::Int => Some(Meaning::Number(Kind::Int, Form::Diff(a, b))),
        Kind::UInt => Some(Meaning::Number(Kind::UInt, Form::Cut(a, b))),
        Kind::UReal => Some(Meaning::Number(Kind::UReal, Form::Cut(a, b))),
        Kind::EUReal => None,
    }
}

/// Returns a comparison of two numbers with this common type.
fn comparison(kind: Kind, test: Cond) -> Option<Meaning>
    ensures { option_map meaning_of result ≡ comparison (kind_of kind) (cond_of test) }
{
    match kind {
        Kind::Int => Some(Meaning::Truth(test)),
        Kind::UInt => Some(Meaning::Truth(test)),
        Kind::UReal => Some(Meaning::Truth(test)),
        Kind::EUReal => None,
    }
}

/// Returns the negation of a condition.
fn denied(alloc: Global, test: Cond) -> Result<Cond, AllocError>
    ensures { IfOk result (λ made. cond_of made ≡ not (cond_of test)) }
{
    Ok(Cond::Not(Box::new(alloc, test)?))
}

/// Returns an operator between two numbers with this common type.
fn joined_numbers(
    alloc: Global,
    op: BinaryOp,
    span: Span,
    a: Form,
    b: Form,
    kind: Kind,
) -> Result<Option<Meaning>, AllocError>
    ensures { IfOk result (λ made. option_map meaning_of made
        ≡ joined_numbers op span (form_of a) (form_of b) (kind_of kind)) }
{
    let a = Box::new(alloc, a)?;
    let b = Box::new(alloc, b)?;
    match op {
        BinaryOp::Plus => Ok(Some(Meaning::Number(kind, Form::Sum(a, b)))),
        BinaryOp::Star => Ok(Some(Meaning::Number(kind, Form::Product(a, b, span)))),
        BinaryOp::Minus => Ok(minus(kind, a, b)),
        BinaryOp::Same => Ok(comparison(kind, Cond::EqNum(a, b))),
        BinaryOp::Differ => Ok(comparison(kind, denied(alloc, Cond::EqNum(a, b))?)),
        BinaryOp::Less => Ok(comparison(kind, Cond::Lt(a, b))),
        BinaryOp::AtMost => Ok(comparison(kind, Cond::Le(a, b))),
        BinaryOp::More => Ok(comparison(kind, Cond::Lt(b, a))),
        BinaryOp::AtLeast => Ok(comparison(kind, Cond::Le(b, a))),
        BinaryOp::Cap => Ok(Some(Meaning::Number(kind, Form::Min(a, b)))),
        BinaryOp::Cup => Ok(Some(Meaning::Number(kind, Form::Max(a, b)))),
        BinaryOp::And | BinaryOp::Or | BinaryOp::Imply | BinaryOp::CoImply | BinaryOp::Slash => Ok(
            None,
        ),
    }
}

/// Returns an operator between two numbers of these types.
fn numbers(
    alloc: Global,
    op: BinaryOp,
    span: Span,
    left: (Kind, Form),
    right: (Kind, Form),
) -> Result<Option<Meaning>, AllocError>
    ensures { IfOk result (λ made. option_map meaning_of made
        ≡ numbers op span (kind_of left.0) (form_of left.1) (kind_of right.0) (form_of right.1)) }
{
    let both = unsigned(left.0) && unsigned(right.0);
    match op {
        BinaryOp::Imply => {
            let a = Box::new(alloc, left.1)?;
            Ok(extended(both, Form::Imply(a, Box::new(alloc, right.1)?)))
        }
        BinaryOp::CoImply => {
            let a = Box::new(alloc, left.1)?;
            Ok(extended(both, Form::CoImply(a, Box::new(alloc, right.1)?)))
        }
        BinaryOp::Cup
        | BinaryOp::Cap
        | BinaryOp::Or
        | BinaryOp::And
        | BinaryOp::Same
        | BinaryOp::Differ
        | BinaryOp::Less
        | BinaryOp::AtMost
        | BinaryOp::More
        | BinaryOp::AtLeast
        | BinaryOp::Plus
        | BinaryOp::Minus
        | BinaryOp::Star
        | BinaryOp::Slash => match joined(left.0, right.0) {
            None => Ok(None),
            Some(kind) => joined_numbers(alloc, op, span, left.1, right.1, kind),
        },
    }
}

/// Returns an operator between two conditions.
fn truths(alloc: Global, op: BinaryOp, a: Cond, b: Cond) -> Result<Option<Meaning>, AllocError>
    ensures { IfOk result (λ made. option_map meaning_of made ≡ truths op (cond_of a) (cond_of b)) }
{
    let a = Box::new(alloc, a)?;
    let b = Box::new(alloc, b)?;
    match op {
        BinaryOp::Same => Ok(Some(Meaning::Truth(Cond::Same(a, b)))),
        BinaryOp::Differ => Ok(Some(Meaning::Truth(denied(alloc, Cond::Same(a, b))?))),
        BinaryOp::And => Ok(Some(Meaning::Truth(Cond::And(a, b)))),
        BinaryOp::Or => Ok(Some(Meaning::Truth(Cond::Or(a, b)))),
        BinaryOp::Imply => {
            let not = Box::new(alloc, Cond::Not(a))?;
            Ok(Some(Meaning::Truth(Cond::Or(not, b))))
        }
        BinaryOp::CoImply
        | BinaryOp::Cup
        | BinaryOp::Cap
        | BinaryOp::Less
        | BinaryOp::AtMost
        | BinaryOp::More
        | BinaryOp::AtLeast
        | BinaryOp::Plus
        | BinaryOp::Minus
        | BinaryOp::Star
        | BinaryOp::Slash => Ok(None),
    }
}

/// Returns an operator other than `/` between two operands.
pub(crate) fn binary(
    alloc: Global,
    op: BinaryOp,
    span: Span,
    left: Meaning,
    right: Meaning,
) -> Result<Option<Meaning>, AllocError>
    ensures { IfOk result (λ made. option_map meaning_of made
        ≡ binary op span (meaning_of left) (meaning_of right)) }
{
    match (left, right) {
        (Meaning::Truth(a), Meaning::Truth(b)) => truths(alloc, op, a, b),
        (Meaning::Truth(_), Meaning::Number(_, _)) => Ok(None),
        (Meaning::Truth(_), Meaning::Real) => Ok(None),
        (Meaning::Number(_, _), Meaning::Truth(_)) => Ok(None),
        (Meaning::Number(t, a), Meaning::Number(u, b)) => numbers(alloc, op, span, (t, a), (u, b)),
        (Meaning::Number(_, _), Meaning::Real) => Ok(None),
        (Meaning::Real, _) => Ok(None),
    }
}

/// Returns `a / n` as a multiple by `factor`.
pub(crate) fn quotient(
    alloc: Global,
    factor: Frac,
    inner: Meaning,
) -> Result<Option<Meaning>, AllocError>
    ensures { IfOk result (λ made. option_map meaning_of made
        ≡ quotient factor (meaning_of inner)) }
{
    match inner {
        Meaning::Truth(_) => Ok(None),
        Meaning::Real => Ok(None),
        Meaning::Number(Kind::Int, _) => Ok(None),
        Meaning::Number(Kind::UInt, form) => Ok(Some(Meaning::Number(
            Kind::UReal,
            Form::Scale(factor, Box::new(alloc, form)?),
        ))),
        Meaning::Number(Kind::UReal, form) => Ok(Some(Meaning::Number(
            Kind::UReal,
            Form::Scale(factor, Box::new(alloc, form)?),
        ))),
        Meaning::Number(Kind::EUReal, form) => Ok(Some(Meaning::Number(
            Kind::EUReal,
            Form::Scale(factor, Box::new(alloc, form)?),
        ))),
    }
}

/// Returns 0 as a formula.
pub fn nothing() -> Form
    ensures { form_of result ≡ nought }
{
    Form::Const(Ext::Fin(Frac::zero()))
}

/// Returns infinity as a formula.
pub fn endless() -> Form
    ensures { form_of result ≡ number infinite }
{
    Form::Const(Ext::Inf)
}

/// Returns `0 - a`.
fn opposite(alloc: Global, form: Form) -> Result<Form, AllocError>
    ensures { IfOk result (λ made. form_of made ≡ difference nought (form_of form)) }
{
    let form = Box::new(alloc, form)?;
    Ok(Form::Diff(Box::new(alloc, nothing())?, form))
}

/// Returns `-a`.
fn negative(alloc: Global, inner: Meaning) -> Result<Option<Meaning>, AllocError>
    ensures { IfOk result (λ made. option_map meaning_of made ≡ negative (meaning_of inner)) }
{
    match inner {
        Meaning::Truth(_) => Ok(None),
        Meaning::Real => Ok(None),
        Meaning::Number(Kind::Int, form) => {
            Ok(Some(Meaning::Number(Kind::Int, opposite(alloc, form)?)))
        }
        Meaning::Number(Kind::UInt, form) => {
            Ok(Some(Meaning::Number(Kind::Int, opposite(alloc, form)?)))
        }
        Meaning::Number(Kind::UReal, _) => Ok(None),
        Meaning::Number(Kind::EUReal, _) => Ok(None),
    }
}

/// Returns `!a`.
fn negation(alloc: Global, inner: Meaning) -> Result<Option<Meaning>, AllocError>
    ensures { IfOk result (λ made. option_map meaning_of made ≡ negation (meaning_of inner)) }
{
    match inner {
        Meaning::Truth(test) => Ok(Some(Meaning::Truth(denied(alloc, test)?))),
        Meaning::Real => Ok(None),
        Meaning::Number(kind, form) => {
            let form = Box::new(alloc, form)?;
            Ok(extended(
                unsigned(kind),
                Form::Imply(form, Box::new(alloc, nothing())?),
            ))
        }
    }
}

/// Returns `~a`.
fn conegation(alloc: Global, inner: Meaning) -> Result<Option<Meaning>, AllocError>
    ensures { IfOk result (λ made. option_map meaning_of made ≡ conegation (meaning_of inner)) }
{
    match inner {
        Meaning::Truth(_) => Ok(None),
        Meaning::Real => Ok(None),
        Meaning::Number(kind, form) => {
            let form = Box::new(alloc, form)?;
            Ok(extended(
                unsigned(kind),
                Form::CoImply(form, Box::new(alloc, endless())?),
            ))
        }
    }
}

/// Returns a prefix operator before its operand.
pub(crate) fn unary(
    alloc: Global,
    op: UnaryOp,
    inner: Meaning,
) -> Result<Option<Meaning>, AllocError>
    ensures { IfOk result (λ made. option_map meaning_of made ≡ unary op (meaning_of inner)) }
{
    match op {
        UnaryOp::Not => negation(alloc, inner),
        UnaryOp::Minus => negative(alloc, inner),
        UnaryOp::Tilde => conegation(alloc, inner),
    }
}

/// Returns `[a]`.
pub(crate) fn bracket(alloc: Global, inner: Meaning) -> Result<Option<Meaning>, AllocError>
    ensures { IfOk result (λ made. option_map meaning_of made ≡ bracket (meaning_of inner)) }
{
    match inner {
        Meaning::Truth(test) => Ok(Some(Meaning::Number(
            Kind::UInt,
            Form::Iverson(Box::new(alloc, test)?),
        ))),
        Meaning::Number(_, _) => Ok(None),
        Meaning::Real => Ok(None),
    }
}

/// Returns `?(a)`.
pub(crate) fn embedding(alloc: Global, inner: Meaning) -> Result<Option<Meaning>, AllocError>
    ensures { IfOk result (λ made. option_map meaning_of made ≡ embedding (meaning_of inner)) }
{
    match inner {
        Meaning::Truth(test) => Ok(Some(Meaning::Number(
            Kind::EUReal,
            Form::Embed(Box::new(alloc, test)?),
        ))),
        Meaning::Number(_, _) => Ok(None),
        Meaning::Real => Ok(None),
    }
}

/// Returns `ite(a, b, c)` for a condition and two formulas.
fn select(alloc: Global, test: Cond, a: Form, b: Form) -> Result<Form, AllocError>
    ensures { IfOk result (λ made. form_of made ≡ select (cond_of test) (form_of a) (form_of b)) }
{
    let test = Box::new(alloc, test)?;
    let a = Box::new(alloc, a)?;
    Ok(Form::Select(test, a, Box::new(alloc, b)?))
}

/// Returns `ite(a, b, c)` for three conditions.
fn branch(alloc: Global, test: Cond, a: Cond, b: Cond) -> Result<Cond, AllocError>
    ensures { IfOk result (λ made. cond_of made ≡ ite (cond_of test) (cond_of a) (cond_of b)) }
{
    let test = Box::new(alloc, test)?;
    let a = Box::new(alloc, a)?;
    Ok(Cond::Ite(test, a, Box::new(alloc, b)?))
}

/// Returns `ite(a, b, c)` for a condition `a`.
fn selected(
    alloc: Global,
    test: Cond,
    left: Meaning,
    right: Meaning,
) -> Result<Option<Meaning>, AllocError>
    ensures { IfOk result (λ made. option_map meaning_of made
        ≡ selected (cond_of test) (meaning_of left) (meaning_of right)) }
{
    match (left, right) {
        (Meaning::Truth(a), Meaning::Truth(b)) => {
            Ok(Some(Meaning::Truth(branch(alloc, test, a, b)?)))
        }
        (Meaning::Number(t, a), Meaning::Number(u, b)) => match joined(t, u) {
            None => Ok(None),
            Some(kind) => Ok(Some(Meaning::Number(kind, select(alloc, test, a, b)?))),
        },
        (Meaning::Truth(_), Meaning::Number(_, _)) => Ok(None),
        (Meaning::Truth(_), Meaning::Real) => Ok(None),
        (Meaning::Number(_, _), Meaning::Truth(_)) => Ok(None),
        (Meaning::Number(_, _), Meaning::Real) => Ok(None),
        (Meaning::Real, _) => Ok(None),
    }
}

/// Returns `ite(a, b, c)`.
pub(crate) fn choice(
    alloc: Global,
    test: Meaning,
    left: Meaning,
    right: Meaning,
) -> Result<Option<Meaning>, AllocError>
    ensures { IfOk result (λ made. option_map meaning_of made
        ≡ choice (meaning_of test) (meaning_of left) (meaning_of right)) }
{
    match test {
        Meaning::Truth(test) => selected(alloc, test, left, right),
        Meaning::Number(_, _) => Ok(None),
        Meaning::Real => Ok(None),
    }
}

/// Returns `sup x: T. a` or `inf x: T. a`, where `x` has this number and a type that a variable may
/// have.
fn bound(
    alloc: Global,
    up: bool,
    number: u32,
    ty: Ty,
    inner: Meaning,
) -> Result<Option<Meaning>, AllocError>
    ensures { IfOk result (λ made. option_map meaning_of made
        ≡ bound up number ty (meaning_of inner)) }
{
    match inner {
        Meaning::Truth(_) => Ok(None),
        Meaning::Real => Ok(None),
        Meaning::Number(kind, form) => {
            let form = Box::new(alloc, form)?;
            Ok(extended(unsigned(kind), Form::Bind(up, number, number, ty, form)))
        }
    }
}

/// Returns `sup x: T. a` or `inf x: T. a`, where `x` has this number.
pub(crate) fn quantified(
    alloc: Global,
    up: bool,
    number: u32,
    name: TypeName,
    inner: Meaning,
) -> Result<Option<Meaning>, AllocError>
    ensures { IfOk result (λ made. option_map meaning_of made
        ≡ quantified up number name (meaning_of inner)) }
{
    match declarable(name) {
        None => Ok(None),
        Some(ty) => bound(alloc, up, number, ty, inner),
    }
}
