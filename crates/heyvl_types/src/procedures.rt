//! Procedures.

ghost use Rattle.heylo_formula.specs.PlainTrees.{form_of};
ghost use Rattle.heyvl_syntax.specs.Expressions.{expressions};
ghost use Rattle.heyvl_syntax.specs.Procedures.{optional_block, procedure};
ghost use Rattle.heyvl_acts.specs.Acts.{acts_in};
ghost use Rattle.typed_expressions.specs.Answers.{Gives, TellsFirst};
ghost use Rattle.heyvl_acts.specs.Count.{count_of};
ghost use Rattle.static_rules.specs.Files.{arity, body_acts, body_findings, clause, front_of};
ghost use Rattle.static_rules.specs.Files.{head_scope, input_scope, is_wlp, loops_of_body};
ghost use Rattle.static_rules.specs.Files.{parameters_findings, post_forms, posts_findings};
ghost use Rattle.static_rules.specs.Files.{pre_forms, pres_findings, procedure_findings, typed};
ghost use Rattle.typed_expressions.specs.Findings.{at};
ghost use Rattle.static_rules.specs.PartCounts.{HasFewParts};
ghost use Rattle.heyvl_types.specs.internal.ProcedureParts.{is_larger, with_parts};
ghost use Rattle.heyvl_acts.specs.PlainActs.{body_of, procedure_of, variable_of};
ghost use Rattle.heyvl_acts.specs.Rules.{IsCounted};
ghost use Rattle.static_rules.specs.Variables.{locals_of_body, parameters};
ghost use Rattle.typed_expressions.specs.DeclaredVariables.{fronts_variables};
ghost use Rattle.std.specs.Prelude.{◌&&◌, ◌++◌, ◌+◌, ◌<◌, ◌^◌, ◌||◌, ◌≡◌, ◌∷◌, [], IfOk, OnOk};
ghost use Rattle.std.specs.Prelude.{length, map, nat_lt, not};

use crate::blocks::read_block;
use heylo_formula::Form;
use heyvl_acts::{Act, TProc, VarInfo, count};
use heyvl_syntax::{Note, Proc, Stmt};
use static_rules::Setting;
use std::alloc::Global;
use typed_expressions::{Calls, ResolveStop, Scope, any_quantified};
use typed_heads::{clause, count_locals, list_fronts, read_parameters, read_posts, read_pres};

/// The head of a procedure: its scopes and its variables.
#[derive(Drop)]
struct Head {
    /// The scope of the pre clauses.
    inputs: Scope,
    /// The scope of the post clauses and the body.
    all: Scope,
    /// The variables of the inputs and the outputs.
    vars: Vec<VarInfo>,
    /// The number of inputs.
    count: u32,
    /// The number of outputs.
    outputs: u32,
    /// The number of inputs and outputs.
    arity: u32,
}

/// The formulas of the clauses of a procedure. They are joined only once the procedure is known not
/// to be too large, since joined clauses of a large file can be too deep to be dropped.
#[derive(Drop)]
struct Clauses {
    pre: Vec<Form>,
    post: Vec<Form>,
}

/// The body of a procedure.
#[derive(Drop)]
struct Body {
    acts: Option<Vec<Act>>,
    loops: u32,
}

/// Returns true for `@wlp`.
fn is_wlp(note: Option<Note>) -> bool
    ensures { result ≡ is_wlp note }
{
    match note {
        Some(Note::Wlp) => true,
        Some(Note::Wp) => false,
        Some(Note::Ert) => false,
        None => false,
    }
}

/// Returns a procedure with this number of inputs as its statements see it.
fn setting_of(proc: &Proc, inputs: u32) -> Setting
    ensures { result ≡ record {
      co = proc.now.co;
      weak = is_wlp proc.now.note && not proc.now.co;
      inputs = inputs;
    } }
{
    Setting {
        co: proc.co,
        weak: is_wlp(proc.note) && !proc.co,
        inputs,
    }
}

/// Returns the first broken rule of a procedure's name and note as an error. `named` says that an
/// earlier procedure has its name.
fn check_name(named: bool, proc: &Proc) -> Result<(), ResolveStop>
    ensures { TellsFirst result
        (at proc.now.span ((11, named) ∷ [])
        ++ at proc.now.span ((17, is_wlp proc.now.note && proc.now.co) ∷ [])) }
{
    if named {
        return Err(ResolveStop::Fault(11, proc.span));
    }
    if is_wlp(proc.note) && proc.co {
        return Err(ResolveStop::Fault(17, proc.span));
    }
    Ok(())
}

/// Returns the inputs and outputs of a procedure, or the first error in them.
fn read_head(alloc: Global, proc: &Proc) -> Result<Head, ResolveStop>
    requires { length proc.now.inputs.items + length proc.now.outputs.items < 2 ^ 32 }
    ensures gives { Gives (λ head. head.arity) result
        (parameters_findings 0 [] proc.now.inputs.items
        ++ parameters_findings (length proc.now.inputs.items)
        (input_scope (procedure proc.now)) proc.now.outputs.items) (arity (procedure proc.now)) }
    ensures inputs { IfOk result (λ head. head.inputs ≡ input_scope (procedure proc.now)) }
    ensures all { IfOk result (λ head. head.all ≡ head_scope (procedure proc.now)) }
    ensures vars { IfOk result (λ head. map variable_of head.vars.items
        ≡ parameters proc.now.inputs.items ++ parameters proc.now.outputs.items) }
    ensures count { IfOk result (λ head. head.count ≡ length proc.now.inputs.items) }
    ensures outputs { IfOk result (λ head. head.outputs ≡ length proc.now.outputs.items) }
{
    let mut inputs = Scope::new(alloc);
    let mut vars = Vec::new(alloc);
    let count = read_parameters(alloc, &mut inputs, &mut vars, 0, &proc.inputs)?;
    let mut all = inputs.copy()?;
    let arity = read_parameters(alloc, &mut all, &mut vars, count, &proc.outputs)?;
    let outputs = arity - count;
    Ok(Head {
        inputs,
        all,
        vars,
        count,
        outputs,
        arity,
    })
}

/// Returns the clauses of a procedure, or the first error in them. The pre clauses see the inputs,
/// the post clauses also the outputs.
fn read_clauses(
    alloc: Global,
    inputs: &Scope,
    all: &mut Scope,
    arity: u32,
    proc: &Proc,
) -> Result<Clauses, ResolveStop>
    requires { arity + length (locals_of_body (optional_block proc.now.body))
        + length (fronts_variables (expressions proc.now.posts.items)) < 2 ^ 32 }
    ensures gives { Gives (λ clauses. map form_of clauses.pre.items) result
        (pres_findings arity inputs.now (expressions proc.now.pres.items)
        ++ posts_findings (front_of proc.now.co)
        (arity + length (locals_of_body (optional_block proc.now.body))) all.old
        (expressions proc.now.posts.items))
        (pre_forms arity inputs.now (expressions proc.now.pres.items)) }
    ensures post { IfOk result (λ clauses. map form_of clauses.post.items
        ≡ post_forms (arity + length (locals_of_body (optional_block proc.now.body))) all.old
        (expressions proc.now.posts.items)) }
    ensures kept { OnOk result (all.new ≡ all.old) }
{
    let pre = read_pres(alloc, inputs, arity, &proc.pres)?;
    let quantified = arity + count_locals(&proc.body);
    let post = read_posts(alloc, all, quantified, proc.co, &proc.posts)?;
    Ok(Clauses { pre, post })
}

/// Returns the body of a procedure, or the first error in it.
fn read_body(
    alloc: Global,
    setting: Setting,
    calls: &Calls,
    bound: bool,
    scope: &mut Scope,
    vars: &mut Vec<VarInfo>,
    body: &Option<Vec<Stmt>>,
) -> Result<Body, ResolveStop>
    requires variables { length vars.old.items + length (locals_of_body (optional_block body.now))
        < 2 ^ 32 }
    requires loops { 1 + loops_of_body (optional_block body.now) < 2 ^ 32 }
    ensures gives { Gives (λ made. body_of made.acts) result
        (body_findings setting calls.now bound (length vars.old.items) scope.old
        (optional_block body.now))
        (body_acts setting calls.now (length vars.old.items) scope.old (optional_block body.now)) }
    ensures loops { IfOk result (λ made. made.loops ≡ loops_of_body (optional_block body.now)) }
    ensures declared { OnOk result
        (map variable_of vars.new.items ≡ map variable_of vars.old.items
        ++ locals_of_body (optional_block body.now)) }
{
    match body {
        None => Ok(Body {
            acts: None,
            loops: 0,
        }),
        Some(statements) => {
            let mut next = 1;
            let acts = read_block(
                alloc, setting, calls, bound, scope, vars, &mut next, statements,
            )?;
            let loops = next - 1;
            Ok(Body {
                acts: Some(acts),
                loops,
            })
        }
    }
}

/// Returns true if the encoding of a body has more than 1,024 statements.
fn has_too_many_statements(body: &Option<Vec<Act>>) -> bool
    ensures { result ≡ nat_lt 1024 (count_of (acts_in (body_of body.now))) }
{
    match body {
        None => false,
        Some(acts) => count(acts) > 1024,
    }
}

/// Returns true if a procedure with this number of parameters and variables is too large.
fn is_too_large(proc: &Proc, arity: u64, vars: usize, body: &Option<Vec<Act>>) -> bool
    ensures { result ≡ is_larger (procedure proc.now) arity vars (body_of body.now) }
{
    arity > 16
        || proc.pres.len() > 64
        || proc.posts.len() > 64
        || vars > 256
        || has_too_many_statements(body)
}

/// Returns the typed procedure of these parts, or the error of one that is too large.
fn put_together(
    alloc: Global,
    proc: &Proc,
    inputs: u32,
    outputs: u32,
    vars: Vec<VarInfo>,
    clauses: Clauses,
    body: Body,
) -> Result<TProc, ResolveStop>
    ensures gives { Gives procedure_of result
        (at proc.now.span
        ((
          24,
          is_larger (procedure proc.now) (inputs + outputs) (length vars.items)
              (body_of body.acts),
        ) ∷ []))
        (with_parts (procedure proc.now) inputs outputs (map variable_of vars.items)
        (clause proc.now.co (map form_of clauses.pre.items))
        (clause proc.now.co (map form_of clauses.post.items)) (body_of body.acts) body.loops) }
    ensures counted { IfOk result (λ typed. (typed.inputs ≡ inputs) × (typed.outputs ≡ outputs)
        × (typed.vars ≡ vars)) }
{
    let arity = u64::from(inputs) + u64::from(outputs);
    if is_too_large(proc, arity, vars.len(), &body.acts) {
        return Err(ResolveStop::Fault(24, proc.span));
    }
    let pre = clause(alloc, proc.co, clauses.pre)?;
    let post = clause(alloc, proc.co, clauses.post)?;
    Ok(TProc {
        name: proc.name.copy(alloc)?,
        co: proc.co,
        weak: is_wlp(proc.note) && !proc.co,
        vars,
        inputs,
        outputs,
        pre,
        post,
        body: body.acts,
        loops: body.loops,
        span: proc.span,
    })
}

/// Returns the typed procedure, or the first error in it. `named` says that an earlier procedure
/// has its name.
pub(crate) fn read_procedure(
    alloc: Global,
    calls: &Calls,
    named: bool,
    proc: &Proc,
) -> Result<TProc, ResolveStop>
    requires { HasFewParts (procedure proc.now) }
    ensures gives { Gives procedure_of result
        (procedure_findings calls.now named (procedure proc.now))
        (typed calls.now (procedure proc.now)) }
    ensures counted { IfOk result (λ typed. IsCounted typed) }
{
    check_name(named, proc)?;
    let Head {
        inputs,
        mut all,
        mut vars,
        count,
        outputs,
        arity,
    } = read_head(alloc, proc)?;
    let clauses = read_clauses(alloc, &inputs, &mut all, arity, proc)?;
    let setting = setting_of(proc, count);
    let bound = any_quantified(&proc.posts);
    let body = read_body(
        alloc, setting, calls, bound, &mut all, &mut vars, &proc.body,
    )?;
    list_fronts(alloc, &mut vars, &proc.posts)?;
    put_together(alloc, proc, count, outputs, vars, clauses, body)
}
