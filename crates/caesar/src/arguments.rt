//! The arguments of the command line.

use std::alloc::AllocError;
use std::env::{self, FillError};
use std::io::ErrorKind;
use std::rt::Env;

/// An environment without the program's name. The name is not read, as it may be any bytes.
#[derive(Drop)]
struct WithoutName<'a, R>(&'a R);

impl<'a, R: Env> Env for WithoutName<'a, R> {
    fn arg(&self, i: usize, buf: &mut [u8]) -> Result<usize, FillError> {
        match i.checked_add(1) {
            Some(next) => self.0.arg(next, buf),
            None => Err(FillError::NotPresent),
        }
    }

    fn var(&self, name: &str, buf: &mut [u8]) -> Result<usize, FillError> {
        self.0.var(name, buf)
    }

    fn var_at(&self, i: usize, buf: &mut [u8]) -> Result<usize, FillError> {
        self.0.var_at(i, buf)
    }
}

/// Returns the arguments after the program's name, or none if one of them is not UTF-8.
///
/// # Errors
///
/// Memory ran out.
pub(crate) fn words<R: Env + AllocGlobal>(rt: &R) -> Result<Vec<String>, AllocError> {
    match env::args(&(WithoutName(rt), rt.alloc())) {
        Ok(args) => {
            let mut words = Vec::new(rt.alloc());
            for word in args {
                words.push(word)?;
            }
            Ok(words)
        }
        Err(error) => {
            if error.kind() == ErrorKind::OutOfMemory {
                Err(AllocError)
            } else {
                Ok(Vec::new(rt.alloc()))
            }
        }
    }
}
