//! The goals of a procedure.

ghost use Rattle.heylo_formula.specs.BinderNames.{binders};
ghost use Rattle.heylo_formula.specs.PlainTrees.{form_of};
ghost use Rattle.heyvl_acts.specs.Acts.{procedure_at};
ghost use Rattle.heyvl_acts.specs.PlainActs.{procedure_of, procedures_of};
ghost use Rattle.heyvl_acts.specs.Rules.{AreNamed, Each, MeetsAllRules};
ghost use Rattle.loop_encodings.specs.BoundGoals.{BoundGoal, bound_goals};
ghost use Rattle.std.specs.Prelude.{IfOk, List, length, map, ◌++◌, ◌<◌, ◌^◌};
ghost use Rattle.verify_core.specs.Questions.{AreGoals, IsMadeOf, one_bound, question};
ghost use Rattle.verify_core.specs.Rankings.{AreAllGoals};
ghost use Rattle.verify_core.specs.internal.BoundQuestions.{AreMadeFor, IsAsked, NamedQuestion};
ghost use Rattle.verify_core.specs.internal.BoundQuestions.{asked_question, plain};

use crate::bound_questions::{Asked, asked_of};
use crate::rankings::rankings;
use goal_answers::NamedGoal;
use heylo_formula::{Form, GoalId, Made, what_substitution_gives};
use heyvl_acts::{TProc, Typed};
use heyvl_num::Ext;
use loop_encodings::{encode, encodings_are_over_their_variables};
use made_goals::{generated_goal, goal_over};
use std::alloc::{AllocError, Global};
use vp_generator::generated_form_means_acts;

/// Returns the goals of the procedure with the number `p`: those of its bound, then one for each of
/// its rankings, in the order of the text. A procedure without a body has none.
pub fn goals(alloc: Global, typed: &Typed, p: u32) -> Result<Vec<NamedGoal>, AllocError>
    requires there { p < length typed.now.procs.items }
    requires rules { MeetsAllRules typed.now }
    ensures { IfOk result (λ all. AreAllGoals (procedures_of typed.now) p all.items) }
{
    let mut all = bounds(alloc, typed, p)?;
    let mut ranked = rankings(alloc, typed, p)?;
    all.append(&mut ranked)?;
    Ok(all)
}

/// Returns the goals of the procedure's bound: the main goal and, for a proc with `@wlp`, that its
/// pre, its post and each of its invariants are at most 1. A procedure without a body has none.
pub(crate) fn bounds(alloc: Global, typed: &Typed, p: u32) -> Result<Vec<NamedGoal>, AllocError>
    requires there { p < length typed.now.procs.items }
    requires rules { MeetsAllRules typed.now }
    ensures { IfOk result (λ all.
        AreGoals (procedures_of typed.now) p
        (bound_goals (procedure_at (procedures_of typed.now) p)) all.items) }
{
    what_substitution_gives();
    let procedure = &typed.procs[p as usize];
    let mut all = Vec::new(alloc);
    if procedure.body.is_none() {
        return Ok(all);
    }
    let made = main_goal(alloc, typed, p)?;
    all.push(NamedGoal {
        proc: p,
        id: GoalId::Main,
        made,
    })?;
    if !procedure.weak {
        return Ok(all);
    }
    let asked = asked_of(alloc, procedure)?;
    add_bounds(alloc, typed, p, asked, all)
}

/// Returns the main goal, which compares the pre with the pre-expectation of the encoded body.
fn main_goal(alloc: Global, typed: &Typed, p: u32) -> Result<Made, AllocError>
    requires there { p < length typed.now.procs.items }
    requires rules { MeetsAllRules typed.now }
    ensures { IfOk result (λ made.
        IsMadeOf (question (procedures_of typed.now)
        (procedure_at (procedures_of typed.now) p) BoundGoal.main) made) }
{
    generated_form_means_acts();
    encodings_are_over_their_variables();
    let procedure = &typed.procs[p as usize];
    let encoded = encode(alloc, typed, p)?;
    generated_goal(
        alloc,
        procedure.co,
        &encoded.vars,
        &procedure.pre,
        &encoded.acts,
        &procedure.post,
    )
}

/// Appends a goal for each formula of `asked`, that it is at most 1.
fn add_bounds(
    alloc: Global,
    typed: &Typed,
    p: u32,
    asked: Vec<Asked>,
    all: Vec<NamedGoal>,
) -> Result<Vec<NamedGoal>, AllocError>
    requires there { p < length typed.now.procs.items }
    requires rules { MeetsAllRules typed.now }
    requires asked { Each (IsAsked (procedures_of typed.now)
        (procedure_at (procedures_of typed.now) p)) (map plain asked.items) }
    ensures { (questions : List NamedQuestion) → AreMadeFor p questions all.items
        → IfOk result
        (λ more. AreMadeFor p
        (questions ++ map (asked_question (procedure_at (procedures_of typed.now) p))
        (map plain asked.items)) more.items) }
{
    let mut more = all;
    for one in asked {
        let id = one.id;
        let made = bound_goal(alloc, &typed.procs[p as usize], one.form)?;
        more.push(NamedGoal { proc: p, id, made })?;
    }
    Ok(more)
}

/// Returns the goal that `form` is at most 1.
fn bound_goal(alloc: Global, procedure: &TProc, form: Form) -> Result<Made, AllocError>
    requires few { length procedure.now.vars.items < 2 ^ 30 }
    requires named { AreNamed (length procedure.now.vars.items) (binders (form_of form)) }
    ensures { IfOk result (λ made.
        IsMadeOf (one_bound (procedure_of procedure.now) (form_of form)) made) }
{
    let most = Form::Const(Ext::one());
    goal_over(alloc, true, &procedure.vars, &most, form)
}
