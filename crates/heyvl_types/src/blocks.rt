//! Statements with blocks, and blocks.

ghost use Rattle.heyvl_acts.specs.PlainActs.{arm_of, variable_of};
ghost use Rattle.heyvl_syntax.specs.Expressions.{expression};
ghost use Rattle.heyvl_syntax.specs.Statements.{arms, block, statement};
ghost use Rattle.typed_right_sides.specs.Views.{acts_view, arms_view};
ghost use Rattle.static_rules.specs.StatementActs.{arms_acts, block_acts, loops as loops_of};
ghost use Rattle.static_rules.specs.StatementActs.{loops_of_arms, loops_of_block, statement_acts};
ghost use Rattle.static_rules.specs.StatementRules.{arms_findings, block_findings};
ghost use Rattle.static_rules.specs.StatementRules.{statement_findings};
ghost use Rattle.static_rules.specs.Variables.{behind, locals, locals_of_arms, locals_of_block};
ghost use Rattle.std.specs.Prelude.{◌++◌, ◌+◌, ◌<◌, ◌^◌, ◌≡◌, OnOk, length, map, take};
ghost use Rattle.typed_expressions.specs.Answers.{Gives};
ghost use Rattle.typed_expressions.specs.TypedExpressions.{closed_findings, elaborate};
ghost use Rattle.typed_expressions.specs.Values.{condition};

use crate::bindings::{binding_arms, binding_statements, block_binds};
use crate::loops::{close_loop, read_head};
use crate::statements::{
    next_number, read_check, read_declaration, read_havoc, read_reward, read_targets,
    read_validate, single,
};
use heylo_formula::Cond;
use heyvl_acts::{Act, VarInfo};
use heyvl_syntax::{Arm, Stmt};
use static_rules::Setting;
use std::alloc::Global;
use typed_expressions::{Calls, Demand, ResolveStop, Scope, after, condition, read};

/// Returns the condition and the acts of an arm, or the first error in it.
#[cycle(reading)]
fn read_arm(
    alloc: Global,
    setting: Setting,
    calls: &Calls,
    bound: bool,
    scope: &mut Scope,
    vars: &mut Vec<VarInfo>,
    loops: &mut u32,
    arm: &Arm,
) -> Result<(Cond, Vec<Act>), ResolveStop>
    requires variables { length vars.old.items + length (locals_of_block (block arm.now.body.items))
        < 2 ^ 32 }
    requires loops { loops.old + loops_of_block (block arm.now.body.items) < 2 ^ 32 }
    ensures gives { Gives arm_of result
        (closed_findings Demand.Truth (length vars.old.items) scope.old (expression arm.now.guard)
        ++ block_findings setting calls.now bound (length vars.old.items) scope.old
        (block arm.now.body.items)) (
          condition (elaborate (length vars.old.items) scope.old (expression arm.now.guard)),
          block_acts setting calls.now (length vars.old.items) loops.old scope.old
              (block arm.now.body.items),
        ) }
    ensures kept { OnOk result (scope.new ≡ scope.old) }
    ensures listed { OnOk result (map variable_of vars.new.items ≡ map variable_of vars.old.items
        ++ locals_of_block (block arm.now.body.items)) }
    ensures numbered { OnOk result
        (loops.new ≡ loops.old + loops_of_block (block arm.now.body.items)) }
{
    let guard = read(alloc, scope, next_number(vars), &arm.guard, Demand::Truth)?;
    let body = read_block(alloc, setting, calls, bound, scope, vars, loops, &arm.body)?;
    Ok((condition(guard), body))
}

/// Returns the conditions and the acts of arms, or the first error in them.
#[cycle(reading)]
fn read_arms(
    alloc: Global,
    setting: Setting,
    calls: &Calls,
    bound: bool,
    scope: &mut Scope,
    vars: &mut Vec<VarInfo>,
    loops: &mut u32,
    all: &[Arm],
) -> Result<Vec<(Cond, Vec<Act>)>, ResolveStop>
    requires variables { length vars.old.items + length (locals_of_arms (arms all.now)) < 2 ^ 32 }
    requires loops { loops.old + loops_of_arms (arms all.now) < 2 ^ 32 }
    ensures gives { Gives arms_view result
        (arms_findings setting calls.now bound (length vars.old.items) scope.old (arms all.now))
        (arms_acts setting calls.now (length vars.old.items) loops.old scope.old (arms all.now)) }
    ensures kept { OnOk result (scope.new ≡ scope.old) }
    ensures listed { OnOk result (map variable_of vars.new.items ≡ map variable_of vars.old.items
        ++ locals_of_arms (arms all.now)) }
    ensures numbered { OnOk result (loops.new ≡ loops.old + loops_of_arms (arms all.now)) }
{
    let binding = binding_arms(all);
    let mut made = Vec::with_capacity(alloc, all.len())?;
    for (i, arm) in all.iter().enumerate() {
        let behind = i + 1;
        let arm_bound = bound || behind < binding;
        made.push(read_arm(alloc, setting, calls, arm_bound, scope, vars, loops, arm)?)?;
    }
    Ok(made)
}

/// Returns the acts of a statement, or the first error in it. What it declares is visible from here
/// on.
#[cycle(reading)]
fn read_statement(
    alloc: Global,
    setting: Setting,
    calls: &Calls,
    bound: bool,
    scope: &mut Scope,
    vars: &mut Vec<VarInfo>,
    loops: &mut u32,
    one: &Stmt,
) -> Result<Vec<Act>, ResolveStop>
    requires variables { length vars.old.items + length (locals (statement one.now)) < 2 ^ 32 }
    requires loops { loops.old + loops_of (statement one.now) < 2 ^ 32 }
    ensures gives { Gives acts_view result
        (statement_findings setting calls.now bound (length vars.old.items) scope.old
        (statement one.now))
        (statement_acts setting calls.now (length vars.old.items) loops.old scope.old
        (statement one.now)) }
    ensures shown { OnOk result
        (scope.new ≡ behind (length vars.old.items) scope.old (statement one.now)) }
    ensures kept { OnOk result (take (length scope.old) scope.new ≡ scope.old) }
    ensures listed { OnOk result (map variable_of vars.new.items ≡ map variable_of vars.old.items
        ++ locals (statement one.now)) }
    ensures numbered { OnOk result (loops.new ≡ loops.old + loops_of (statement one.now)) }
{
    match one {
        Stmt::Var(name, ty, right, span) => {
            read_declaration(alloc, setting, calls, scope, vars, name, *ty, right, *span)
        }
        Stmt::Assign(names, right, span) => {
            read_targets(alloc, setting, calls, scope, vars, names, right, *span)
        }
        Stmt::Check(kind, claim, span) => {
            read_check(alloc, setting, bound, scope, vars, *kind, claim, *span)
        }
        Stmt::Validate(co, span) => read_validate(alloc, setting, bound, *co, *span),
        Stmt::Havoc(co, names, span) => read_havoc(alloc, setting, scope, *co, names, *span),
        Stmt::Reward(amount, span) => read_reward(alloc, setting, scope, vars, amount, *span),
        Stmt::If(all, other, span) => {
            let arms_bound = bound || block_binds(other);
            let made = read_arms(alloc, setting, calls, arms_bound, scope, vars, loops, all)?;
            let other = read_block(alloc, setting, calls, bound, scope, vars, loops, other)?;
            Ok(single(alloc, Act::If(made, other, *span))?)
        }
        Stmt::Pick(up, left, right, span) => {
            let left_bound = bound || block_binds(right);
            let left = read_block(alloc, setting, calls, left_bound, scope, vars, loops, left)?;
            let right = read_block(alloc, setting, calls, bound, scope, vars, loops, right)?;
            Ok(single(alloc, Act::Pick(*up, left, right, *span))?)
        }
        Stmt::While(rules, guard, body, span) => {
            let number = *loops;
            *loops = after(number);
            let (found, guard) = read_head(alloc, scope, vars, rules, guard)?;
            let made = read_block(alloc, setting, calls, true, scope, vars, loops, body)?;
            close_loop(alloc, number, rules, found, guard, scope, made, body, *span)
        }
    }
}

/// Returns the acts of a block, or the first error in it. `bound` says that a check against the
/// direction may not occur in it. Its variables are numbered from the length of `vars` on, and its
/// loops from `loops` on.
#[cycle(reading)]
pub(crate) fn read_block(
    alloc: Global,
    setting: Setting,
    calls: &Calls,
    bound: bool,
    scope: &mut Scope,
    vars: &mut Vec<VarInfo>,
    loops: &mut u32,
    statements: &[Stmt],
) -> Result<Vec<Act>, ResolveStop>
    requires variables { length vars.old.items + length (locals_of_block (block statements.now))
        < 2 ^ 32 }
    requires loops { loops.old + loops_of_block (block statements.now) < 2 ^ 32 }
    ensures gives { Gives acts_view result
        (block_findings setting calls.now bound (length vars.old.items) scope.old
        (block statements.now))
        (block_acts setting calls.now (length vars.old.items) loops.old scope.old
        (block statements.now)) }
    ensures kept { OnOk result (scope.new ≡ scope.old) }
    ensures declared { OnOk result
        (map variable_of vars.new.items ≡ map variable_of vars.old.items
        ++ locals_of_block (block statements.now)) }
    ensures numbered { OnOk result (loops.new ≡ loops.old + loops_of_block (block statements.now)) }
{
    let kept = scope.len();
    let binding = binding_statements(statements);
    let mut acts = Vec::new(alloc);
    for (i, one) in statements.iter().enumerate() {
        let behind = i + 1;
        let one_bound = bound || behind < binding;
        let mut made = read_statement(alloc, setting, calls, one_bound, scope, vars, loops, one)?;
        acts.append(&mut made)?;
    }
    scope.truncate(kept);
    Ok(acts)
}
