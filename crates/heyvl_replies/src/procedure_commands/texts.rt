//! Lines about a procedure.

ghost use Rattle.command_rules.specs.RunTexts.{no_coproc_text, no_program_text};
ghost use Rattle.std.specs.Prelude.{IfOk, ◌≡◌};

use std::alloc::{AllocError, Global};

/// Returns the line on a procedure that is no program.
pub(crate) fn no_program_text(alloc: Global, name: &[u8]) -> Result<Vec<u8>, AllocError>
    ensures { IfOk result (λ text. text.items ≡ no_program_text name.now) }
{
    let mut text = Vec::new(alloc);
    text.extend_from_slice(name)?;
    text.extend_from_slice(b" is not a program\n")?;
    Ok(text)
}

/// Returns the line on a procedure that is no coproc.
pub(crate) fn no_coproc_text(alloc: Global, name: &[u8]) -> Result<Vec<u8>, AllocError>
    ensures { IfOk result (λ text. text.items ≡ no_coproc_text name.now) }
{
    let mut text = Vec::new(alloc);
    text.extend_from_slice(name)?;
    text.extend_from_slice(b" is not a coproc\n")?;
    Ok(text)
}
