//! Scripts, and the lines that may follow theirs.

ghost use Rattle.heyvl_acts.specs.PlainActs.{variable_of};
ghost use Rattle.run_script.specs.Lines.{said as said_of};
ghost use Rattle.run_script.specs.PlainScripts.{known_in, script_of};
ghost use Rattle.run_script.specs.Scripts.{takes as takes_value};
ghost use Rattle.run_script.specs.internal.ReadLines.{begun, gone_on, is_set, line_of, may_follow};
ghost use Rattle.run_script.specs.internal.ReadLines.{may_set, with_line};
ghost use Rattle.std.specs.List.{list_any};
ghost use Rattle.std.specs.Prelude.{IfOk, None, OnOk, Some, if◌then◌else◌, ◌≡◌};
ghost use Rattle.std.specs.Str.{bytes_eq};

use crate::lines::{Line, said};
use heylo_formula::Val;
use heyvl_acts::VarInfo;
use heyvl_places::Name;
use run_machine::Decide;
use std::alloc::{AllocError, Global};

/// A value that a script sets.
#[derive(Drop)]
pub struct Setting {
    /// The name of an input or output.
    pub name: Name,
    /// The initial value of this variable.
    pub value: Val,
}

/// A script of a run.
#[derive(Drop)]
pub struct Script {
    /// The number of steps of the run, at most 10,000.
    pub steps: u32,
    /// The values that are set.
    pub settings: Vec<Setting>,
    /// The decisions, in order.
    pub decisions: Vec<Decide>,
}

/// Returns whether the variable has this name and the value has its type.
fn takes(name: &[u8], value: &Val, variable: &VarInfo) -> bool
    ensures { result ≡ takes_value (record { name = name.now; value = value.now })
        (variable_of variable.now) }
{
    name == variable.name.as_bytes() && variable.ty.has(value)
}

/// Returns whether one of the variables has this name and the value has its type.
fn some_takes(name: &[u8], value: &Val, variables: &[VarInfo]) -> bool
    ensures { result ≡ list_any
        (λ x. takes_value (record { name = name.now; value = value.now }) (variable_of x))
        variables.now }
{
    variables
        .iter()
        .any(|variable| takes(name, value, variable))
}

/// Returns whether `setting` sets the variable with this name.
fn sets(name: &[u8], setting: &Setting) -> bool
    ensures { result ≡ bytes_eq setting.now.name name.now }
{
    setting.name.as_bytes() == name
}

/// Returns whether one of the settings sets the variable with this name.
fn is_set(name: &[u8], settings: &[Setting]) -> bool
    ensures { result ≡ is_set name.now settings.now }
{
    settings.iter().any(|setting| sets(name, setting))
}

impl Script {
    /// Returns a script without settings and decisions.
    pub(crate) fn new(alloc: Global, steps: u32) -> Self
        ensures { Some (script_of result) ≡ begun (Some (line_of (Line.Steps steps))) }
    {
        Script {
            steps,
            settings: Vec::new(alloc),
            decisions: Vec::new(alloc),
        }
    }

    /// Returns whether the script may also set this variable to this value. If no procedure is
    /// known, any name may be set that is not empty.
    fn may_set(&self, known: Option<&[VarInfo]>, name: &[u8], value: &Val) -> bool
        ensures { result ≡ may_set (known_in known.entry) (script_of self.now).settings
            (record { name = name.now; value = value.now }) }
    {
        match known {
            None => !name.is_empty(),
            Some(variables) => {
                some_takes(name, value, variables) && !is_set(name, &self.settings)
            }
        }
    }

    /// Returns whether the line may follow those of the script.
    fn may_follow(&self, known: Option<&[VarInfo]>, line: &Line<'_>) -> bool
        ensures { result ≡ may_follow (known_in known.entry) (script_of self.now)
            (line_of line.now) }
    {
        match line {
            Line::Steps(_) => false,
            Line::Set(name, value) => {
                self.decisions.is_empty() && self.may_set(known, name, value)
            }
            Line::Decide(_) => true,
        }
    }

    /// Adds a line.
    fn add(&mut self, alloc: Global, line: &Line<'_>) -> Result<(), AllocError>
        ensures { OnOk result (script_of self.new
            ≡ with_line (script_of self.old) (line_of line.now)) }
    {
        match line {
            Line::Steps(steps) => {
                self.steps = *steps;
                Ok(())
            }
            Line::Set(name, value) => {
                let name = Name::new(alloc, name)?;
                Ok(
                    self.settings.push(Setting {
                        name,
                        value: *value,
                    })?,
                )
            }
            Line::Decide(made) => Ok(self.decisions.push(*made)?),
        }
    }

    /// Adds a line if it may follow those of the script. Returns whether it may.
    fn take(
        &mut self,
        alloc: Global,
        known: Option<&[VarInfo]>,
        line: &Line<'_>,
    ) -> Result<bool, AllocError>
        ensures { IfOk result (λ kept.
            gone_on (known_in known.entry) (script_of self.old) (Some (line_of line.now))
            ≡ (if kept then Some (script_of self.new) else None)) }
    {
        if !self.may_follow(known, line) {
            return Ok(false);
        }
        self.add(alloc, line)?;
        Ok(true)
    }

    /// Reads one more line, and adds it if it may follow those of the script. Returns whether it
    /// may.
    pub(crate) fn read(
        &mut self,
        alloc: Global,
        known: Option<&[VarInfo]>,
        line: &[u8],
    ) -> Result<bool, AllocError>
        ensures { IfOk result (λ kept.
            gone_on (known_in known.entry) (script_of self.old) (said_of line.now)
            ≡ (if kept then Some (script_of self.new) else None)) }
    {
        match said(alloc, line) {
            Ok(Some(line)) => self.take(alloc, known, &line),
            Ok(None) => Ok(false),
            Err(error) => Err(error),
        }
    }
}
