//! The translation of tokens to a file.

ghost use Rattle.heyvl_syntax.specs.Procedures.{procedure, procedures};
ghost use Rattle.heyvl_syntax.specs.Statements.{block, block_of};
ghost use Rattle.heyvl_syntax.specs.SourceFaults.{IsLight};
ghost use Rattle.guarded_commands.specs.Grammar.{IsProgram};
ghost use Rattle.guarded_commands.specs.ProgramFaults.{IsPgclMemory, IsThisPgclStop};
ghost use Rattle.guarded_commands.specs.Programs.{ProgramTree, block_tree, program_tree};
ghost use Rattle.guarded_commands.specs.ReservedNames.{IsTranslatable};
ghost use Rattle.guarded_commands.specs.Translation.{first_place, picks_in, start};
ghost use Rattle.guarded_commands.specs.Translation.{statements as statements_of, translated};
ghost use Rattle.guarded_commands.specs.TranslationFaults.{IsTranslationFault, IsTranslationStop};
ghost use Rattle.guarded_commands.specs.Translations.{IsTranslation};
ghost use Rattle.std.specs.Prelude.{[], IfErr, IfOk, MatchResult, length, map, ◌++◌, ◌<◌, ◌^◌, ◌≡◌};
ghost use Rattle.std.specs.Prelude.{◌∷◌, ℕ};

use crate::program_reader::parse_program;
use crate::programs::Program;
use crate::reserved_names::reserved_at;
use crate::starts::{at_start, inputs, outputs, starts};
use crate::statements::statements;
use crate::stops::PgclStop;
use heyvl_places::{Name, Span};
use heyvl_syntax::{File, Proc, Stmt, Token};
use std::alloc::{AllocError, Global};

/// Returns the place of the first token.
fn first_place(tokens: &[Token]) -> Span
    ensures { result ≡ first_place tokens.now }
{
    match tokens.split_first() {
        None => Span { from: 0, to: 0 },
        Some((token, _)) => token.span,
    }
}

/// Returns the statements of the coproc: `x = init_x` for each variable, then the statements of the
/// commands.
fn body(alloc: Global, program: &Program) -> Result<Vec<Stmt>, AllocError>
    requires { picks_in (block_tree program.now.body.items) < 2 ^ 31 }
    ensures { IfOk result (λ made. block made.items
        ≡ block_of (map start program.now.declarations.items
        ++ statements_of 1 (block_tree program.now.body.items))) }
{
    let mut made = starts(alloc, &program.declarations)?;
    let mut next = 1_u32;
    let mut behind = statements(alloc, &mut next, &program.body)?;
    made.append(&mut behind)?;
    Ok(made)
}

/// Returns the coproc of `program`, at `place`.
fn main_procedure(alloc: Global, place: Span, program: &Program) -> Result<Proc, AllocError>
    requires { picks_in (block_tree program.now.body.items) < 2 ^ 31 }
    ensures { IfOk result (λ made. procedure made ≡ translated place (program_tree program.now)) }
{
    let name = Name::new(alloc, b"main")?;
    let inputs = inputs(alloc, &program.declarations)?;
    let outputs = outputs(alloc, &program.declarations)?;
    let pres = vec![in alloc; at_start(alloc, &program.pre)?]?;
    let posts = vec![in alloc; program.post.copy(alloc)?]?;
    let body = body(alloc, program)?;
    Ok(Proc {
        co: true,
        note: None,
        name,
        inputs,
        outputs,
        pres,
        posts,
        body: Some(body),
        span: place,
    })
}

/// Returns the file of the coproc of `program`, at `place`.
fn file_of(alloc: Global, place: Span, program: &Program) -> Result<File, AllocError>
    requires { picks_in (block_tree program.now.body.items) < 2 ^ 31 }
    ensures { IfOk result (λ file. procedures file ≡ translated place (program_tree program.now)
        ∷ []) }
{
    let main = main_procedure(alloc, place, program)?;
    Ok(File {
        procs: vec![in alloc; main]?,
    })
}

/// Translates `program`, which the tokens spell, or returns the first reserved name among the
/// tokens.
fn file_or_reserved(alloc: Global, tokens: &[Token], program: &Program) -> Result<File, PgclStop>
    requires short { length tokens.now < 2 ^ 31 }
    requires spelled { IsLight tokens.now × IsProgram (program_tree program.now) tokens.now }
    ensures found { IfOk result (λ file. IsTranslation tokens.now (procedures file)) }
    ensures fault { IfErr result (λ stop. IsTranslationStop tokens.now stop) }
{
    match reserved_at(tokens, program.declarations.as_slice().len()) {
        Some(index) => Err(PgclStop::Fault(31, index as u32)),
        None => Ok(file_of(alloc, first_place(tokens), program)?),
    }
}

/// Translates the tokens, or returns their first error.
fn file_or_fault(alloc: Global, tokens: &[Token]) -> Result<File, PgclStop>
    requires { length tokens.now < 2 ^ 31 }
    ensures found { IfOk result (λ file. IsTranslation tokens.now (procedures file)) }
    ensures fault { IfErr result (λ stop. IsTranslationStop tokens.now stop) }
{
    let program = parse_program(alloc, tokens)?;
    file_or_reserved(alloc, tokens, &program)
}

/// Translates the tokens of a program, which have to be fewer than 2^31, to a file. The file has
/// one coproc `main`, whose inputs are the start values of the variables and whose outputs are the
/// variables.
///
/// # Errors
///
/// `Fault` with the first error of the tokens, or `Memory`. The error is one of:
/// - 5 at the first token after which the load exceeds 200;
/// - 30 at the first token with which no program goes on, which may be `sup` or `inf`, or at the
///   number of tokens if they end too early;
/// - 31 at the first identifier that begins with `init_` or `pick_`, or that declares `skip`.
pub fn translate(alloc: Global, tokens: &[Token]) -> Result<File, PgclStop>
    requires { length tokens.now < 2 ^ 31 }
    ensures found { IfOk result (λ file. IsTranslation tokens.now (procedures file)) }
    ensures only { (program : ProgramTree) → IsTranslatable program tokens.now
        → MatchResult result (λ file. procedures file ≡ translated (first_place tokens.now) program
        ∷ []) (λ stop. IsPgclMemory stop) }
    ensures fault { IfErr result (λ stop. IsTranslationStop tokens.now stop) }
    ensures only_fault { (number i : ℕ) → IsTranslationFault tokens.now number i
        → MatchResult result (λ _. ⊥) (λ stop. IsThisPgclStop number i stop) }
{
    file_or_fault(alloc, tokens)
}
