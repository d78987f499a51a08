//! Questions of lines about a text.

use crate::file_texts::write_file;
use crate::token_texts::write_lexed;
use crate::tree_texts::{HEAD, write_clause};
use heyvl_parse::parse;
use heyvl_syntax::{File, Token, lex};
use std::alloc::{AllocError, Global};
use std::process::Abort;
use test_lines::{LineKind, differences};

/// The question of a line.
#[derive(Clone, Copy)]
pub enum Kind {
    /// The tokens of the text, or its error.
    Tokens,
    /// The tree of an expression, and its place in the text.
    Tree,
    /// The procedures of a file, and its first statement.
    File,
    /// The procedures of a copy of a file, and its first statement.
    Copy,
}

/// Returns the tokens of a text of at most 1,000 bytes.
fn tokens_of(alloc: Global, text: &str) -> Result<Vec<Token>, AllocError> {
    if text.len() > 1000 {
        return Err(AllocError);
    }
    match lex(alloc, text.as_bytes()) {
        Ok(tokens) => Ok(tokens),
        Err(_) => Err(AllocError),
    }
}

/// Returns the file that a text spells, in at most 1,000 tokens.
fn file_of(alloc: Global, text: &str) -> Result<File, AllocError> {
    let tokens = tokens_of(alloc, text)?;
    if tokens.len() > 1000 {
        return Err(AllocError);
    }
    match parse(alloc, &tokens) {
        Ok(file) => Ok(file),
        Err(_) => Err(AllocError),
    }
}

/// Writes the tree of an expression, which is read after a head.
fn write_parsed(alloc: Global, asked: &str, text: &mut String) -> Result<(), AllocError> {
    let mut whole = String::from_str(alloc, HEAD)?;
    whole.push_str(asked)?;
    let file = file_of(alloc, whole.as_str())?;
    write_clause(&file, text)
}

fn write_copied(alloc: Global, file: &File, text: &mut String) -> Result<(), AllocError> {
    let copied = file.copy(alloc)?;
    write_file(&copied, text)
}

impl LineKind for Kind {
    fn write_answer(
        &self,
        alloc: Global,
        asked: &str,
        text: &mut String,
    ) -> Result<(), AllocError> {
        match self {
            Kind::Tokens => write_lexed(alloc, asked.as_bytes(), text),
            Kind::Tree => write_parsed(alloc, asked, text),
            Kind::File => write_file(&file_of(alloc, asked)?, text),
            Kind::Copy => write_copied(alloc, &file_of(alloc, asked)?, text),
        }
    }
}

/// Checks each line of each text.
pub fn check_texts(
    rt: &(impl Abort + AllocGlobal),
    kind: Kind,
    texts: &[&str],
) -> Result<(), AllocError> {
    let found = differences(rt.alloc(), &kind, texts)?;
    assert!(rt; found.is_empty(), "{found}");
    Ok(())
}
