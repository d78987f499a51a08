//! Properties of statements: whether they choose arbitrary values, and whether a loop with a
//! ranking may have them in its body.

ghost use Rattle.heyvl_syntax.specs.Statements.{arms, block, optional_right, right_side, statement};
ghost use Rattle.static_rules.specs.StatementRules.{arms_are_rankable, arms_bind, binds};
ghost use Rattle.static_rules.specs.StatementRules.{binds_value, block_binds, block_is_rankable};
ghost use Rattle.static_rules.specs.StatementRules.{calls_value, is_call, is_rankable};
ghost use Rattle.std.specs.Prelude.{◌≡◌, ◌<◌, drop, nat_lt, ℕ};

use heyvl_syntax::{Arm, Right, Stmt};

/// Returns true for a call.
fn is_call(right: &Right) -> bool
    ensures { result ≡ is_call (right_side right.now) }
{
    match right {
        Right::Call(_, _) => true,
        Right::Plain(_) | Right::Flip(_) | Right::Unif(_, _) | Right::Choose(_) => false,
    }
}

/// Returns true if a declaration chooses an arbitrary value: it has no right side, or a call.
fn binds_value(right: &Option<Right>) -> bool
    ensures { result ≡ binds_value (optional_right right.now) }
{
    match right {
        None => true,
        Some(right) => is_call(right),
    }
}

/// Returns true if the right side of a declaration is a call.
fn calls_value(right: &Option<Right>) -> bool
    ensures { result ≡ calls_value (optional_right right.now) }
{
    match right {
        None => false,
        Some(right) => is_call(right),
    }
}

/// Returns true if a statement has a havoc, a declaration without a value, a loop or a call in it.
#[cycle(binding)]
fn binds(one: &Stmt) -> bool
    ensures { result ≡ binds (statement one.now) }
{
    match one {
        Stmt::Var(_, _, right, _) => binds_value(right),
        Stmt::Assign(_, right, _) => is_call(right),
        Stmt::Check(_, _, _) | Stmt::Validate(_, _) | Stmt::Reward(_, _) => false,
        Stmt::Havoc(_, _, _) | Stmt::While(_, _, _, _) => true,
        Stmt::If(arms, other, _) => arms_bind(arms) || block_binds(other),
        Stmt::Pick(_, left, right, _) => block_binds(left) || block_binds(right),
    }
}

/// Returns true if a statement of the block `binds`.
#[cycle(binding)]
pub(crate) fn block_binds(statements: &[Stmt]) -> bool
    ensures { result ≡ block_binds (block statements.now) }
{
    for one in statements {
        if binds(one) {
            return true;
        }
    }
    false
}

/// Returns true if a statement in the blocks of the arms `binds`.
#[cycle(binding)]
fn arms_bind(all: &[Arm]) -> bool
    ensures { result ≡ arms_bind (arms all.now) }
{
    for arm in all {
        if block_binds(&arm.body) {
            return true;
        }
    }
    false
}

/// Returns the number of statements of a block up to the last one that `binds`.
pub(crate) fn binding_statements(statements: &[Stmt]) -> usize
    ensures { (i : ℕ) → block_binds (block (drop i statements.now)) ≡ nat_lt i result }
{
    let mut rest = statements;
    while let Some((last, front)) = rest.split_last() {
        if binds(last) {
            return rest.len();
        }
        rest = front;
    }
    0
}

/// Returns the number of arms up to the last one with a statement that `binds`.
pub(crate) fn binding_arms(all: &[Arm]) -> usize
    ensures { (i : ℕ) → arms_bind (arms (drop i all.now)) ≡ nat_lt i result }
{
    let mut rest = all;
    while let Some((last, front)) = rest.split_last() {
        if block_binds(&last.body) {
            return rest.len();
        }
        rest = front;
    }
    0
}

/// Returns true if a statement has no loop, call, check or validation in it, so that a loop with a
/// ranking may have it in its body.
#[cycle(ranking)]
fn is_rankable(one: &Stmt) -> bool
    ensures { result ≡ is_rankable (statement one.now) }
{
    match one {
        Stmt::Var(_, _, right, _) => !calls_value(right),
        Stmt::Assign(_, right, _) => !is_call(right),
        Stmt::Check(_, _, _) | Stmt::Validate(_, _) | Stmt::While(_, _, _, _) => false,
        Stmt::Havoc(_, _, _) | Stmt::Reward(_, _) => true,
        Stmt::If(arms, other, _) => arms_are_rankable(arms) && block_is_rankable(other),
        Stmt::Pick(_, left, right, _) => block_is_rankable(left) && block_is_rankable(right),
    }
}

/// Returns true if all statements of a block are rankable.
#[cycle(ranking)]
pub(crate) fn block_is_rankable(statements: &[Stmt]) -> bool
    ensures { result ≡ block_is_rankable (block statements.now) }
{
    for one in statements {
        if !is_rankable(one) {
            return false;
        }
    }
    true
}

/// Returns true if all statements in the blocks of the arms are rankable.
#[cycle(ranking)]
fn arms_are_rankable(all: &[Arm]) -> bool
    ensures { result ≡ arms_are_rankable (arms all.now) }
{
    for arm in all {
        if !block_is_rankable(&arm.body) {
            return false;
        }
    }
    true
}
