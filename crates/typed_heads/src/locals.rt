//! The number of variables that a body declares.

ghost use Rattle.heyvl_syntax.specs.Procedures.{optional_block};
ghost use Rattle.heyvl_syntax.specs.Statements.{arms, block, statement};
ghost use Rattle.static_rules.specs.Variables.{locals, locals_of_arms, locals_of_block};
ghost use Rattle.static_rules.specs.Variables.{locals_of_body};
ghost use Rattle.std.specs.Prelude.{◌<◌, ◌^◌, ◌≡◌, length};

use heyvl_syntax::{Arm, Stmt};

/// Returns the number of variables that a block declares.
#[cycle(local_counts)]
fn count_block(statements: &[Stmt]) -> u32
    requires { length (locals_of_block (block statements.now)) < 2 ^ 32 }
    ensures { result ≡ length (locals_of_block (block statements.now)) }
{
    let mut count = 0_u32;
    for one in statements {
        count += count_statement(one);
    }
    count
}

/// Returns the number of variables that a statement declares.
#[cycle(local_counts)]
fn count_statement(one: &Stmt) -> u32
    requires { length (locals (statement one.now)) < 2 ^ 32 }
    ensures { result ≡ length (locals (statement one.now)) }
{
    match one {
        Stmt::Var(_, _, _, _) => 1,
        Stmt::Assign(_, _, _) => 0,
        Stmt::Check(_, _, _) => 0,
        Stmt::Validate(_, _) => 0,
        Stmt::Havoc(_, _, _) => 0,
        Stmt::Reward(_, _) => 0,
        Stmt::If(arms, other, _) => count_arms(arms) + count_block(other),
        Stmt::Pick(_, left, right, _) => count_block(left) + count_block(right),
        Stmt::While(_, _, body, _) => count_block(body),
    }
}

/// Returns the number of variables that the blocks of arms declare.
#[cycle(local_counts)]
fn count_arms(all: &[Arm]) -> u32
    requires { length (locals_of_arms (arms all.now)) < 2 ^ 32 }
    ensures { result ≡ length (locals_of_arms (arms all.now)) }
{
    let mut count = 0_u32;
    for arm in all {
        count += count_block(&arm.body);
    }
    count
}

/// Returns the number of variables that a body declares.
pub fn count_locals(body: &Option<Vec<Stmt>>) -> u32
    requires { length (locals_of_body (optional_block body.now)) < 2 ^ 32 }
    ensures { result ≡ length (locals_of_body (optional_block body.now)) }
{
    match body {
        None => 0,
        Some(statements) => count_block(statements),
    }
}
