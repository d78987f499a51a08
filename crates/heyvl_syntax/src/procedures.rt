//! Procedures and files.

ghost use Rattle.heyvl_syntax.specs.Procedures.{optional_block, procedure, procedures};
ghost use Rattle.std.specs.Prelude.{◌≡◌, IfOk, map};

use crate::{Expr, Stmt, TypeName};
use heyvl_places::{Name, Span};
use std::alloc::{AllocError, Global};

/// A note on a procedure: the expectation that it is about.
#[derive(Clone, Copy, Debug, PartialEq, Eq)]
pub enum Note {
    /// `@wlp`: the weakest liberal pre-expectation.
    Wlp,
    /// `@wp`: the weakest pre-expectation.
    Wp,
    /// `@ert`: the expected running time.
    Ert,
}

/// An input or an output of a procedure.
pub struct Param {
    pub name: Name,
    pub ty: TypeName,
    pub span: Span,
}

impl Drop for Param {
    fn drop(self) {
        let Param {
            name: _,
            ty: _,
            span: _,
        } = self;
    }
}

/// A procedure: a coproc if `co` is true, otherwise a proc. Its place begins at its note, if it has
/// one.
pub struct Proc {
    pub co: bool,
    pub note: Option<Note>,
    pub name: Name,
    pub inputs: Vec<Param>,
    pub outputs: Vec<Param>,
    pub pres: Vec<Expr>,
    pub posts: Vec<Expr>,
    pub body: Option<Vec<Stmt>>,
    pub span: Span,
}

impl Drop for Proc {
    fn drop(self) {
        let Proc {
            co: _,
            note: _,
            name: _,
            inputs: _,
            outputs: _,
            pres: _,
            posts: _,
            body: _,
            span: _,
        } = self;
    }
}

/// The procedures of a file.
pub struct File {
    pub procs: Vec<Proc>,
}

impl Drop for File {
    fn drop(self) {
        let File { procs: _ } = self;
    }
}

impl Param {
    /// Returns a copy of the parameter.
    pub fn copy(&self, alloc: Global) -> Result<Param, AllocError>
        ensures { IfOk result (λ copied. copied ≡ self.now) }
    {
        Ok(Param {
            name: self.name.copy(alloc)?,
            ty: self.ty,
            span: self.span,
        })
    }

    /// Returns copies of the parameters, in their order.
    pub fn copy_all(alloc: Global, all: &[Param]) -> Result<Vec<Param>, AllocError>
        ensures { IfOk result (λ copied. copied.items ≡ all.now) }
    {
        let mut copied = Vec::with_capacity(alloc, all.len())?;
        for one in all {
            copied.push(one.copy(alloc)?)?;
        }
        Ok(copied)
    }
}

/// Returns a copy of the body, if there is one.
fn copy_body(alloc: Global, body: &Option<Vec<Stmt>>) -> Result<Option<Vec<Stmt>>, AllocError>
    ensures { IfOk result (λ copied. optional_block copied ≡ optional_block body.now) }
{
    match body {
        None => Ok(None),
        Some(statements) => Ok(Some(Stmt::copy_all(alloc, statements)?)),
    }
}

impl Proc {
    /// Returns a copy of the procedure.
    pub fn copy(&self, alloc: Global) -> Result<Proc, AllocError>
        ensures { IfOk result (λ copied. procedure copied ≡ procedure self.now) }
    {
        Ok(Proc {
            co: self.co,
            note: self.note,
            name: self.name.copy(alloc)?,
            inputs: Param::copy_all(alloc, &self.inputs)?,
            outputs: Param::copy_all(alloc, &self.outputs)?,
            pres: Expr::copy_all(alloc, &self.pres)?,
            posts: Expr::copy_all(alloc, &self.posts)?,
            body: copy_body(alloc, &self.body)?,
            span: self.span,
        })
    }

    /// Returns copies of the procedures, in their order.
    pub fn copy_all(alloc: Global, all: &[Proc]) -> Result<Vec<Proc>, AllocError>
        ensures { IfOk result (λ copied. map procedure copied.items ≡ map procedure all.now) }
    {
        let mut copied = Vec::with_capacity(alloc, all.len())?;
        for one in all {
            copied.push(one.copy(alloc)?)?;
        }
        Ok(copied)
    }
}

impl File {
    /// Returns a copy of the file.
    pub fn copy(&self, alloc: Global) -> Result<File, AllocError>
        ensures { IfOk result (λ copied. procedures copied ≡ procedures self.now) }
    {
        Ok(File {
            procs: Proc::copy_all(alloc, &self.procs)?,
        })
    }
}
