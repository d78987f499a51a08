//! The translation of a program to a file with the same sums.

ghost use Rattle.guarded_commands.specs.ProgramFaults.{IsPgclMemory, IsThisPgclStop};
ghost use Rattle.guarded_commands.specs.Programs.{ProgramTree};
ghost use Rattle.guarded_commands.specs.ReservedNames.{IsTranslatable};
ghost use Rattle.guarded_commands.specs.Translation.{first_place, translated};
ghost use Rattle.guarded_commands.specs.TranslationFaults.{IsTranslationFault, IsTranslationStop};
ghost use Rattle.guarded_commands.specs.Translations.{IsTranslation};
ghost use Rattle.heyvl_syntax.specs.Procedures.{procedures};
ghost use Rattle.pgcl_front.specs.EqualSums.{HasTranslatedSums};
ghost use Rattle.std.specs.Prelude.{[], IfErr, IfOk, MatchResult, length, ◌<◌, ◌^◌, ◌≡◌, ◌∷◌, ℕ};

use guarded_commands::PgclStop;
use heyvl_syntax::{File, Token};
use std::alloc::Global;

/// Returns the file of the program that `tokens` spell: one coproc `main`, whose inputs are the
/// start values of the variables and whose outputs are the variables.
///
/// If the file has no static error, it has the sums of the program: the upper sums of the program's
/// runs, by the steps of guarded commands, are those of `main`, and if the bound of `main` holds,
/// each of them is at most the program's pre.
///
/// # Errors
///
/// The error is the first of these that applies.
///
/// - 5: the nesting depth is larger than 200.
/// - 30: the tokens spell no program. The place is that of the first token that no program has
///   after the tokens before it (such as a `sup` or `inf`), or the number of tokens if they end too
///   early.
/// - 31: an identifier begins with `init_` or `pick_`, or the identifier `skip` is declared. The
///   place is that of the first one.
///
/// `Memory`: memory ran out.
pub fn translate(alloc: Global, tokens: &[Token]) -> Result<File, PgclStop>
    requires { length tokens.now < 2 ^ 31 }
    ensures found { IfOk result (λ file. IsTranslation tokens.now (procedures file)) }
    ensures only { (program : ProgramTree) → IsTranslatable program tokens.now
        → MatchResult result (λ file. procedures file ≡ translated (first_place tokens.now) program
        ∷ []) (λ stop. IsPgclMemory stop) }
    ensures fault { IfErr result (λ stop. IsTranslationStop tokens.now stop) }
    ensures only_fault { (number i : ℕ) → IsTranslationFault tokens.now number i
        → MatchResult result (λ _. ⊥) (λ stop. IsThisPgclStop number i stop) }
    ensures sums { IfOk result (λ file. HasTranslatedSums tokens.now (procedures file)) }
{
    guarded_commands::translate(alloc, tokens)
}
