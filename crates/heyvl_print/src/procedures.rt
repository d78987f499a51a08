//! The text of procedures and files.

ghost use Rattle.heyvl_print.specs.Canonical.{body_lines, canonical_text, file_lines, head_line};
ghost use Rattle.heyvl_print.specs.Canonical.{note_line, param_pieces, post_line, pre_line};
ghost use Rattle.heyvl_print.specs.Canonical.{procedure_lines};
ghost use Rattle.heyvl_print.specs.Pieces.{comma, each, separated, text_of};
ghost use Rattle.heyvl_syntax.specs.Expressions.{expressions};
ghost use Rattle.heyvl_syntax.specs.Procedures.{optional_block, procedure, procedures};
ghost use Rattle.std.specs.Prelude.{◌++◌, ◌≡◌, IfOk, OnOk, map};

use crate::bytes::write;
use crate::lines::print_claim;
use crate::statements::print_block;
use crate::symbols::{note_text, procedure_text, type_text};
use heyvl_syntax::{Expr, File, Note, Param, Proc, Stmt};
use std::alloc::{AllocError, Global};

/// Appends the line of a note to `text`, or nothing without a note.
fn print_note(text: &mut Vec<u8>, note: Option<Note>) -> Result<(), AllocError>
    ensures { OnOk result (text.new.items ≡ text.old.items ++ text_of (note_line note)) }
{
    match note {
        None => Ok(()),
        Some(note) => {
            write(text, b"@")?;
            write(text, note_text(note))?;
            Ok(write(text, b"\n")?)
        }
    }
}

/// Appends `x: T` to `text`.
fn print_param(text: &mut Vec<u8>, param: &Param) -> Result<(), AllocError>
    ensures { OnOk result (text.new.items ≡ text.old.items ++ text_of (param_pieces param.now)) }
{
    write(text, param.name.as_bytes())?;
    write(text, b": ")?;
    Ok(write(text, type_text(param.ty))?)
}

/// Appends parameters to `text`, with commas between them.
fn print_params(text: &mut Vec<u8>, params: &[Param]) -> Result<(), AllocError>
    ensures { OnOk result (text.new.items ≡ text.old.items
        ++ text_of (separated comma param_pieces params.now)) }
{
    let Some((first, others)) = params.split_first() else {
        return Ok(());
    };
    print_param(text, first)?;
    for other in others {
        write(text, b", ")?;
        print_param(text, other)?;
    }
    Ok(())
}

/// Appends the line `coproc f(x: T) -> (y: U)` to `text`.
fn print_head(text: &mut Vec<u8>, printed: &Proc) -> Result<(), AllocError>
    ensures { OnOk result (text.new.items ≡ text.old.items
        ++ text_of (head_line (procedure printed.now))) }
{
    write(text, procedure_text(printed.co))?;
    write(text, b" ")?;
    write(text, printed.name.as_bytes())?;
    write(text, b"(")?;
    print_params(text, &printed.inputs)?;
    write(text, b") -> (")?;
    print_params(text, &printed.outputs)?;
    Ok(write(text, b")\n")?)
}

/// Appends the lines of pre clauses to `text`.
fn print_pres(text: &mut Vec<u8>, pres: &[Expr]) -> Result<(), AllocError>
    ensures { OnOk result (text.new.items ≡ text.old.items
        ++ text_of (each pre_line (expressions pres.now))) }
{
    for pre in pres {
        print_claim(text, 2, b"pre", pre)?;
    }
    Ok(())
}

/// Appends the lines of post clauses to `text`.
fn print_posts(text: &mut Vec<u8>, posts: &[Expr]) -> Result<(), AllocError>
    ensures { OnOk result (text.new.items ≡ text.old.items
        ++ text_of (each post_line (expressions posts.now))) }
{
    for post in posts {
        print_claim(text, 2, b"post", post)?;
    }
    Ok(())
}

/// Appends the lines of a body to `text`, or nothing without a body.
fn print_body(text: &mut Vec<u8>, body: &Option<Vec<Stmt>>) -> Result<(), AllocError>
    ensures { OnOk result (text.new.items ≡ text.old.items
        ++ text_of (body_lines (optional_block body.now))) }
{
    match body {
        None => Ok(()),
        Some(statements) => {
            write(text, b"{\n")?;
            print_block(text, 2, statements)?;
            Ok(write(text, b"}\n")?)
        }
    }
}

/// Appends the lines of a procedure to `text`.
fn print_procedure(text: &mut Vec<u8>, printed: &Proc) -> Result<(), AllocError>
    ensures { OnOk result (text.new.items ≡ text.old.items
        ++ text_of (procedure_lines (procedure printed.now))) }
{
    print_note(text, printed.note)?;
    print_head(text, printed)?;
    print_pres(text, &printed.pres)?;
    print_posts(text, &printed.posts)?;
    Ok(print_body(text, &printed.body)?)
}

/// Appends the lines of procedures to `text`, with an empty line between them.
fn print_procedures(text: &mut Vec<u8>, all: &[Proc]) -> Result<(), AllocError>
    ensures { OnOk result (text.new.items ≡ text.old.items
        ++ text_of (file_lines (map procedure all.now))) }
{
    let Some((first, others)) = all.split_first() else {
        return Ok(());
    };
    print_procedure(text, first)?;
    for other in others {
        write(text, b"\n")?;
        print_procedure(text, other)?;
    }
    Ok(())
}

/// Returns the canonical text of `file`: one text for each tree.
pub fn print(alloc: Global, file: &File) -> Result<Vec<u8>, AllocError>
    ensures text { IfOk result (λ text. text.items ≡ canonical_text (procedures file.now)) }
{
    let mut text = Vec::new(alloc);
    print_procedures(&mut text, &file.procs)?;
    Ok(text)
}
