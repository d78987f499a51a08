//! Right sides: the rules that they break, and the acts that assign them.

ghost use Rattle.heyvl_syntax.specs.Expressions.{expression, expressions};
ghost use Rattle.heyvl_syntax.specs.Statements.{RightSide, choices, right_side};
ghost use Rattle.typed_expressions.specs.Answers.{Gives};
ghost use Rattle.typed_right_sides.specs.Views.{value_type};
ghost use Rattle.typed_expressions.specs.Views.{signature_of};
ghost use Rattle.typed_expressions.specs.Findings.{at};
ghost use Rattle.heyvl_acts.specs.Acts.{Act as Plain};
ghost use Rattle.heyvl_acts.specs.PlainActs.{act_of, parts_of};
ghost use Rattle.heyvl_acts.specs.Tosses.{flip_parts};
ghost use Rattle.heylo_formula.specs.NumericVariables.{has_variable};
ghost use Rattle.static_rules.specs.Literals.{ends_wrong, is_over_zero, is_probability, weight};
ghost use Rattle.static_rules.specs.Literals.{weight_value};
ghost use Rattle.static_rules.specs.RightSides.{ValueType as Types, any_output_mismatches};
ghost use Rattle.static_rules.specs.RightSides.{first_mismatches, flip_type, has_over_zero};
ghost use Rattle.static_rules.specs.RightSides.{literal_wrong, right_findings, right_rules};
ghost use Rattle.static_rules.specs.RightSides.{right_type, type_of_expression};
ghost use Rattle.typed_expressions.specs.Signatures.{find_call};
ghost use Rattle.static_rules.specs.StatementActs.{assigned, callee, first_or_zero, unif_parts};
ghost use Rattle.typed_expressions.specs.Values.{form};
ghost use Rattle.typed_expressions.specs.TypedExpressions.{closed_findings, elaborate};
ghost use Rattle.typed_right_sides.specs.internal.RightSideParts.{join_all, types_of};
ghost use Rattle.typed_right_sides.specs.internal.RightSideParts.{types_of_choices};
ghost use Rattle.typed_right_sides.specs.internal.RightSideRules.{any_mismatches, call_rules};
ghost use Rattle.typed_right_sides.specs.internal.RightSideRules.{value_rules};
ghost use Rattle.std.specs.Prelude.{◌++◌, ◌<◌, ◌^◌, ◌≡◌, [], IfOk, IfSome, Some, false, map, not};
ghost use Rattle.std.specs.Prelude.{option_map, unsigned_abs};

use crate::choices::{Choices, any_over_zero, read_choices, weigh_wrong};
use crate::draws::{flip_parts, unif_parts};
use crate::integers::{ends_wrong, integer, is_negative};
use crate::typed_values::{Values, join_all, read_value, read_values};
use crate::value_types::{
    ValueType, mismatches, mismatches_target, toss_type, type_of_integers, type_of_meaning,
    type_of_name,
};
use crate::weights::{is_over_zero, is_probability, is_weight_literal, weight_of, weight_value};
use heylo_formula::Term;
use heyvl_acts::Act;
use heyvl_num::Frac;
use heyvl_places::{Name, Span};
use heyvl_syntax::{Expr, Right, TypeName};
use std::alloc::{AllocError, Global};
use typed_expressions::{Calls, Demand, ResolveStop, Scope, Signature, form, read, told};

/// The variables that a statement assigns, with what its rules ask of them.
#[derive(Drop)]
pub(crate) struct Targets {
    /// Whether one of them is not visible.
    pub(crate) unknown: bool,
    /// Whether a name is given twice.
    pub(crate) twice: bool,
    /// Whether a declared variable may not have its type.
    pub(crate) undeclarable: bool,
    /// Whether one of them is an input.
    pub(crate) input: bool,
    /// Their declared types; nothing for a variable that is not visible.
    pub(crate) types: Vec<Option<TypeName>>,
    /// Their numbers.
    pub(crate) numbers: Vec<u32>,
}

/// Returns the first of the numbers, or 0 if there is none.
fn first_or_zero(numbers: &[u32]) -> u32
    ensures { result ≡ first_or_zero numbers.now }
{
    match numbers.split_first() {
        Some((first, _)) => *first,
        None => 0,
    }
}

/// Returns true if a value of this type may not be assigned to the first target.
fn first_mismatches(value: Option<ValueType>, targets: &[Option<TypeName>]) -> bool
    ensures { result ≡ first_mismatches (option_map value_type value) targets.now }
{
    match targets.split_first() {
        Some((first, _)) => mismatches_target(value, *first),
        None => false,
    }
}

/// Returns the rules of a right side other than a call, which has the type `value`. `literal` says
/// that a literal is out of range, and `zero` that a divisor is 0.
fn value_rules(
    targets: &Targets,
    value: Option<ValueType>,
    literal: bool,
    zero: bool,
) -> [(u8, bool); 7]
    ensures { result ≡ value_rules targets.now (option_map value_type value) literal zero }
{
    let mismatch = targets.undeclarable || first_mismatches(value, &targets.types);
    [
        (10, targets.unknown),
        (11, targets.twice),
        (12, mismatch),
        (13, targets.input),
        (14, targets.types.len() != 1),
        (15, literal),
        (16, zero),
    ]
}

/// Returns the act that assigns an expression, or the first error in the statement.
fn read_plain(
    alloc: Global,
    scope: &Scope,
    next: u32,
    e: &Expr,
    targets: &Targets,
    span: Span,
) -> Result<Act, ResolveStop>
    ensures { Gives act_of result
        (right_findings next scope.now (RightSide.plain (expression e.now))
        ++ at span (value_rules targets.now
        (right_type next scope.now (RightSide.plain (expression e.now)))
        (literal_wrong next scope.now (RightSide.plain (expression e.now)))
        (has_over_zero (RightSide.plain (expression e.now)))))
        (assigned [] next scope.now targets.now.numbers.items
        (RightSide.plain (expression e.now)) span) }
{
    let value = read_value(alloc, scope, next, e)?;
    told(span, &value_rules(targets, value.ty, false, false))?;
    Ok(Act::Set(first_or_zero(&targets.numbers), value.term, span))
}

/// Returns the act that assigns a `flip`, or the first error in the statement.
fn read_flip(
    alloc: Global,
    scope: &Scope,
    next: u32,
    probability: &Expr,
    targets: &Targets,
    span: Span,
) -> Result<Act, ResolveStop>
    ensures { Gives act_of result
        (right_findings next scope.now (RightSide.flip (expression probability.now))
        ++ at span (value_rules targets.now
        (right_type next scope.now (RightSide.flip (expression probability.now)))
        (literal_wrong next scope.now (RightSide.flip (expression probability.now)))
        (has_over_zero (RightSide.flip (expression probability.now)))))
        (assigned [] next scope.now targets.now.numbers.items
        (RightSide.flip (expression probability.now)) span) }
{
    if is_weight_literal(weight_of(probability)) {
        read_likely(alloc, probability, targets, span)
    } else {
        read_toss(alloc, scope, next, probability, targets, span)
    }
}

/// Returns the act of a `flip` whose probability is a weight literal, or the first error.
fn read_likely(
    alloc: Global,
    probability: &Expr,
    targets: &Targets,
    span: Span,
) -> Result<Act, ResolveStop>
    ensures { Gives act_of result
        (at span (value_rules targets.now (Some Types.truth)
        (not (is_probability (weight (expression probability.now))))
        (is_over_zero (weight (expression probability.now)))))
        (Plain.draw (first_or_zero targets.now.numbers.items)
        (flip_parts (weight_value (weight (expression probability.now)))) span) }
{
    let improbable = !is_probability(weight_of(probability));
    let zero = is_over_zero(weight_of(probability));
    let rules = value_rules(targets, Some(ValueType::Truth), improbable, zero);
    told(span, &rules)?;
    let parts = flip_parts(alloc, weight_value(weight_of(probability)))?;
    Ok(Act::Draw(first_or_zero(&targets.numbers), parts, span))
}

/// Returns the act of a `flip` whose probability is another expression, or the first error.
fn read_toss(
    alloc: Global,
    scope: &Scope,
    next: u32,
    probability: &Expr,
    targets: &Targets,
    span: Span,
) -> Result<Act, ResolveStop>
    ensures { Gives act_of result
        (closed_findings Demand.Any next scope.now (expression probability.now)
        ++ at span (value_rules targets.now
        (flip_type false (type_of_expression next scope.now (expression probability.now)))
        (has_variable (form (elaborate next scope.now (expression probability.now)))) false))
        (Plain.toss (first_or_zero targets.now.numbers.items)
        (form (elaborate next scope.now (expression probability.now))) span) }
{
    let made = read(alloc, scope, next, probability, Demand::Any)?;
    let ty = toss_type(type_of_meaning(&made));
    let weight = form(made);
    let rules = value_rules(targets, ty, weight.has_variable(), false);
    told(span, &rules)?;
    Ok(Act::Toss(first_or_zero(&targets.numbers), weight, span))
}

/// Returns the parts of a `unif` from `low` to `high`; none if one of them is missing.
fn parts_between(
    alloc: Global,
    low: Option<i128>,
    high: Option<i128>,
) -> Result<Vec<(Frac, Term)>, AllocError>
    requires ends { ends_wrong low high ≡ false }
    requires low { IfSome low (λ whole. unsigned_abs whole < 2 ^ 127) }
    requires high { IfSome high (λ whole. unsigned_abs whole < 2 ^ 127) }
    ensures { IfOk result (λ parts. parts_of parts.items ≡ unif_parts low high) }
{
    match (low, high) {
        (Some(low), Some(high)) => unif_parts(alloc, low, high),
        (Some(_), None) => Ok(Vec::new(alloc)),
        (None, _) => Ok(Vec::new(alloc)),
    }
}

/// Returns the act that assigns a `unif`, or the first error in the statement.
fn read_unif(
    alloc: Global,
    scope: &Scope,
    next: u32,
    low: &Expr,
    high: &Expr,
    targets: &Targets,
    span: Span,
) -> Result<Act, ResolveStop>
    ensures { Gives act_of result
        (right_findings next scope.now (RightSide.unif (expression low.now) (expression high.now))
        ++ at span (value_rules targets.now
        (right_type next scope.now (RightSide.unif (expression low.now) (expression high.now)))
        (literal_wrong next scope.now (RightSide.unif (expression low.now) (expression high.now)))
        (has_over_zero (RightSide.unif (expression low.now) (expression high.now)))))
        (assigned [] next scope.now targets.now.numbers.items
        (RightSide.unif (expression low.now) (expression high.now)) span) }
{
    read(alloc, scope, next, low, Demand::Any)?;
    read(alloc, scope, next, high, Demand::Any)?;
    let from = integer(low);
    let to = integer(high);
    let ty = type_of_integers(is_negative(from));
    told(
        span,
        &value_rules(targets, Some(ty), ends_wrong(from, to), false),
    )?;
    let parts = parts_between(alloc, from, to)?;
    Ok(Act::Draw(first_or_zero(&targets.numbers), parts, span))
}

/// Returns the act that assigns a `choose`, or the first error in the statement.
fn read_choose(
    alloc: Global,
    scope: &Scope,
    next: u32,
    all: &[(Expr, Expr)],
    targets: &Targets,
    span: Span,
) -> Result<Act, ResolveStop>
    ensures { Gives act_of result
        (right_findings next scope.now (RightSide.choose (choices all.now))
        ++ at span (value_rules targets.now
        (join_all (types_of_choices next scope.now (choices all.now)))
        (literal_wrong next scope.now (RightSide.choose (choices all.now)))
        (has_over_zero (RightSide.choose (choices all.now)))))
        (assigned [] next scope.now targets.now.numbers.items
        (RightSide.choose (choices all.now)) span) }
{
    let Choices { parts, types } = read_choices(alloc, scope, next, all)?;
    let rules = value_rules(
        targets,
        join_all(&types),
        weigh_wrong(all),
        any_over_zero(all),
    );
    told(span, &rules)?;
    Ok(Act::Draw(first_or_zero(&targets.numbers), parts, span))
}

/// Returns true if the type of a value does not match that of its input.
fn any_mismatches(values: &[Option<ValueType>], inputs: &[TypeName]) -> bool
    ensures { result ≡ any_mismatches (map (option_map value_type) values.now) inputs.now }
{
    let mut rest = inputs;
    for value in values {
        let Some((input, others)) = rest.split_first() else {
            return false;
        };
        if mismatches(*value, *input) {
            return true;
        }
        rest = others;
    }
    false
}

/// Returns true if the type of an output does not match that of its target.
fn any_output_mismatches(outputs: &[TypeName], targets: &[Option<TypeName>]) -> bool
    ensures { result ≡ any_output_mismatches outputs.now targets.now }
{
    let mut rest = targets;
    for output in outputs {
        let Some((target, others)) = rest.split_first() else {
            return false;
        };
        if mismatches_target(type_of_name(*output), *target) {
            return true;
        }
        rest = others;
    }
    false
}

/// Returns the rules of a call of `procedure` with arguments of these types.
fn call_rules(
    co: bool,
    targets: &Targets,
    procedure: Option<&Signature>,
    arguments: &[Option<ValueType>],
) -> [(u8, bool); 7]
    ensures { result ≡ call_rules co targets.now
        (option_map (λ found. signature_of found.now) procedure.entry)
        (map (option_map value_type) arguments.now) }
{
    let unknown = targets.unknown || procedure.is_none();
    let (mismatch, counts, against, quantified) = match procedure {
        None => (false, false, false, false),
        Some(found) => (
            any_mismatches(arguments, &found.inputs)
                || any_output_mismatches(&found.outputs, &targets.types),
            arguments.len() != found.inputs.len() || targets.types.len() != found.outputs.len(),
            found.co != co,
            found.quantified,
        ),
    };
    [
        (10, unknown),
        (11, targets.twice),
        (12, targets.undeclarable || mismatch),
        (13, targets.input),
        (14, counts),
        (21, against),
        (23, quantified),
    ]
}

/// Returns the act of a call, or the first error in the statement.
fn read_call(
    alloc: Global,
    co: bool,
    calls: &Calls,
    scope: &Scope,
    next: u32,
    name: &Name,
    arguments: &[Expr],
    targets: Targets,
    span: Span,
) -> Result<Act, ResolveStop>
    ensures { Gives act_of result
        (right_findings next scope.now (RightSide.call name.now (expressions arguments.now))
        ++ at span (call_rules co targets (find_call calls.now name.now)
        (types_of next scope.now (expressions arguments.now))))
        (assigned calls.now next scope.now targets.numbers.items
        (RightSide.call name.now (expressions arguments.now)) span) }
{
    let Values { terms, types } = read_values(alloc, scope, next, arguments)?;
    let procedure = calls.find(name);
    told(span, &call_rules(co, &targets, procedure, &types))?;
    Ok(Act::Call(targets.numbers, number(procedure), terms, span))
}

/// Returns the number of a procedure, or 0 without one.
fn number(procedure: Option<&Signature>) -> u32
    ensures { result ≡ callee (option_map (λ found. signature_of found.now) procedure.entry) }
{
    match procedure {
        Some(found) => found.number,
        None => 0,
    }
}

/// Returns the act that assigns a right side to `targets`, or the first error in the statement.
pub(crate) fn read_right(
    alloc: Global,
    co: bool,
    calls: &Calls,
    scope: &Scope,
    next: u32,
    targets: Targets,
    right: &Right,
    span: Span,
) -> Result<Act, ResolveStop>
    ensures { Gives act_of result
        (right_findings next scope.now (right_side right.now)
        ++ at span (right_rules co calls.now next scope.now targets.unknown targets.twice
        targets.undeclarable targets.input targets.types.items (right_side right.now)))
        (assigned calls.now next scope.now targets.numbers.items (right_side right.now) span) }
{
    match right {
        Right::Plain(e) => read_plain(alloc, scope, next, e, &targets, span),
        Right::Flip(probability) => read_flip(alloc, scope, next, probability, &targets, span),
        Right::Unif(low, high) => read_unif(alloc, scope, next, low, high, &targets, span),
        Right::Choose(all) => read_choose(alloc, scope, next, all, &targets, span),
        Right::Call(name, arguments) => {
            read_call(
                alloc, co, calls, scope, next, name, arguments, targets, span,
            )
        }
    }
}
