//! The procedures of a file as calls see them.

ghost use Rattle.heyvl_syntax.specs.Procedures.{procedure};
ghost use Rattle.std.specs.Prelude.{◌<◌, ◌^◌, ◌≡◌, [], IfOk, OnOk, length, map, option_map};
ghost use Rattle.typed_expressions.specs.Signatures.{Called, called, find_call, signature};
ghost use Rattle.typed_expressions.specs.Signatures.{with_signature};
ghost use Rattle.typed_expressions.specs.Views.{called_of, signature_of};

use crate::quantifiers::any_quantified;
use heyvl_places::Name;
use heyvl_syntax::{Param, Proc, TypeName};
use indexmap::IndexMap;
use std::alloc::{AllocError, Global};
use std::marker::Model;

/// A procedure as a call sees it.
#[derive(Drop)]
pub struct Signature {
    pub number: u32,
    /// Whether it is a coproc.
    pub co: bool,
    /// The declared types of its inputs.
    pub inputs: Vec<TypeName>,
    /// The declared types of its outputs.
    pub outputs: Vec<TypeName>,
    /// Whether one of its post clauses has a quantifier.
    pub quantified: bool,
}

impl Signature {
    /// Returns the signature of a procedure with this number.
    fn new(alloc: Global, number: u32, proc: &Proc) -> Result<Signature, AllocError>
        ensures { IfOk result (λ made. signature_of made ≡ signature number (procedure proc.now)) }
    {
        let inputs = types(alloc, &proc.inputs)?;
        Ok(Signature {
            number,
            co: proc.co,
            inputs,
            outputs: types(alloc, &proc.outputs)?,
            quantified: any_quantified(&proc.posts),
        })
    }
}

/// The callable procedures by the bytes of their names, in the order of the text.
#[derive(Drop)]
pub struct Calls {
    entries: IndexMap<Vec<u8>, Signature>,
}

impl Model for Calls {
    ghost Value = { Called };

    ghost view = { λ calls. called_of calls.entries.entries };
}

impl Calls {
    /// Returns a table without procedures.
    fn new(alloc: Global) -> Calls
        ensures { result ≡ [] }
    {
        Calls {
            entries: IndexMap::new(alloc),
        }
    }

    /// Returns the procedure with this name, if there is one.
    pub fn find(&self, name: &Name) -> Option<&Signature>
        ensures { option_map (λ found. signature_of found.now) result
            ≡ find_call self.now name.now }
    {
        self.entries.get(name.as_bytes())
    }

    /// Adds a procedure, unless there is one with its name.
    fn declare(&mut self, alloc: Global, number: u32, proc: &Proc) -> Result<(), AllocError>
        ensures { OnOk result (self.new
            ≡ with_signature proc.now.name (signature number (procedure proc.now)) self.old) }
    {
        if self.find(&proc.name).is_none() {
            let bytes = Vec::from_slice(alloc, proc.name.as_bytes())?;
            self.entries
                .insert(bytes, Signature::new(alloc, number, proc)?)?;
        }
        Ok(())
    }
}

/// Returns the declared types of parameters.
fn types(alloc: Global, params: &[Param]) -> Result<Vec<TypeName>, AllocError>
    ensures { IfOk result (λ all. all.items ≡ map (λ param. param.ty) params.now) }
{
    let mut all = Vec::with_capacity(alloc, params.len())?;
    for param in params {
        all.push(param.ty)?;
    }
    Ok(all)
}

/// Returns the callable procedures of a file: the first of those with one name.
pub fn calls_of(alloc: Global, procs: &Vec<Proc>) -> Result<Calls, AllocError>
    requires { length procs.now.items < 2 ^ 31 }
    ensures { IfOk result (λ calls. calls ≡ called (map procedure procs.now.items)) }
{
    let mut calls = Calls::new(alloc);
    let mut number = 0_u32;
    for proc in procs {
        calls.declare(alloc, number, proc)?;
        number += 1;
    }
    Ok(calls)
}
