//! The statements of commands.

ghost use Rattle.heyvl_syntax.specs.Expressions.{Expression, expression};
ghost use Rattle.heyvl_syntax.specs.Statements.{RightSide, Statement, block, statement};
ghost use Rattle.guarded_commands.specs.Programs.{block_tree, command_tree};
ghost use Rattle.guarded_commands.specs.Translation.{arm, lines, pick_name, picks, picks_in};
ghost use Rattle.guarded_commands.specs.Translation.{statements};
ghost use Rattle.std.specs.Prelude.{[], IfOk, OnOk, map, ◌+◌, ◌<◌, ◌^◌, ◌≡◌, ◌∷◌};

use crate::lines::{assignment, branch, enclosed, nothing, picked, repetition, reward, toss};
use crate::programs::Command;
use heyvl_places::Span;
use heyvl_syntax::{Expr, Stmt, TypeName};
use std::alloc::{AllocError, Global};

/// Returns the number of the next probabilistic choice, and increases `next`.
fn next_pick(next: &mut u32) -> u32
    requires { next.old + 1 < 2 ^ 32 }
    ensures given { result ≡ next.old }
    ensures counted { next.new ≡ next.old + 1 }
{
    let number = *next;
    *next = number + 1;
    number
}

/// Returns the list of one statement.
fn single(alloc: Global, one: Stmt) -> Result<Vec<Stmt>, AllocError>
    ensures { IfOk result (λ made. map statement made.items ≡ statement one ∷ []) }
{
    Ok(vec![in alloc; one]?)
}

/// Returns the statements of a probabilistic choice with this number: the block `left` with this
/// probability, otherwise `right`.
fn mixed(
    alloc: Global,
    number: u32,
    probability: &Expr,
    left: Vec<Stmt>,
    right: Vec<Stmt>,
    span: Span,
) -> Result<Vec<Stmt>, AllocError>
    ensures { IfOk result (λ made. map statement made.items
        ≡ Statement.var (pick_name number) TypeName.Bool
        (Some (RightSide.flip (expression probability.now))) span
        ∷ Statement.branch (arm (Expression.name (pick_name number) span) (block left.items))
        (block right.items) span ∷ []) }
{
    let mut made = Vec::with_capacity(alloc, 2)?;
    made.push(toss(alloc, number, probability, span)?)?;
    let guard = picked(alloc, number, span)?;
    made.push(branch(alloc, guard, left, right, span)?)?;
    Ok(made)
}

/// Returns the statements of a command. Its first probabilistic choice has the number `next`.
#[cycle(translating)]
fn lines(alloc: Global, next: &mut u32, command: &Command) -> Result<Vec<Stmt>, AllocError>
    requires { next.old + picks (command_tree command.now) < 2 ^ 32 }
    ensures lines { IfOk result (λ made. map statement made.items
        ≡ lines next.old (command_tree command.now)) }
    ensures picks { OnOk result (next.new ≡ next.old + picks (command_tree command.now)) }
{
    match command {
        Command::Skip(span) => single(alloc, nothing(alloc, *span)?),
        Command::Assign(name, value, span) => single(alloc, assignment(alloc, name, value, *span)?),
        Command::Tick(amount, span) => single(alloc, reward(alloc, amount, *span)?),
        Command::If(guard, left, right, span) => {
            let left = statements(alloc, next, left)?;
            let right = statements(alloc, next, right)?;
            let guard = enclosed(alloc, guard, *span)?;
            single(alloc, branch(alloc, guard, left, right, *span)?)
        }
        Command::Mix(probability, left, right, span) => {
            let number = next_pick(next);
            let left = statements(alloc, next, left)?;
            let right = statements(alloc, next, right)?;
            mixed(alloc, number, probability, left, right, *span)
        }
        Command::Choice(left, right, span) => {
            let left = statements(alloc, next, left)?;
            let right = statements(alloc, next, right)?;
            single(alloc, Stmt::Pick(true, left, right, *span))
        }
        Command::While(guard, bound, body, span) => {
            let body = statements(alloc, next, body)?;
            single(alloc, repetition(alloc, guard, bound, body, *span)?)
        }
    }
}

/// Returns the statements of a block. Its first probabilistic choice has the number `next`.
#[cycle(translating)]
pub(crate) fn statements(
    alloc: Global,
    next: &mut u32,
    commands: &[Command],
) -> Result<Vec<Stmt>, AllocError>
    requires { next.old + picks_in (block_tree commands.now) < 2 ^ 32 }
    ensures lines { IfOk result (λ made. map statement made.items
        ≡ statements next.old (block_tree commands.now)) }
    ensures picks { OnOk result (next.new ≡ next.old + picks_in (block_tree commands.now)) }
{
    let mut made = Vec::new(alloc);
    for command in commands {
        let mut behind = lines(alloc, next, command)?;
        made.append(&mut behind)?;
    }
    Ok(made)
}
