//! Variables and their values in a report. The names are those of a goal's variables, by number;
//! variables from `own` on were binders.

ghost use Rattle.std.specs.Prelude.{◌≡◌, ◌++◌, ◌+◌, ◌<◌, ◌^◌, OnOk};
ghost use Rattle.verdict_report.specs.Settings.{mark_text, more_settings_text, named_by};
ghost use Rattle.verdict_report.specs.Settings.{setting_text, settings_text, variable_text};

use heylo_formula::Val;
use heyvl_places::Name;
use number_texts::{write_number, write_value};
use std::alloc::AllocError;

/// Appends the mark that distinguishes a variable that was a binder from others of its name.
fn write_mark(text: &mut Vec<u8>, own: u32, var: usize) -> Result<(), AllocError>
    requires { var + 1 < 2 ^ 64 }
    ensures { OnOk result (text.new.items ≡ text.old.items ++ mark_text own var) }
{
    let own = own as usize;
    if var < own {
        Ok(())
    } else {
        text.push(b'\'')?;
        write_number(text, (var - own) as u64 + 1)
    }
}

/// Appends the name of a variable.
pub(crate) fn write_variable(
    text: &mut Vec<u8>,
    names: &[Name],
    own: u32,
    var: usize,
) -> Result<(), AllocError>
    requires { var + 1 < 2 ^ 64 }
    ensures { OnOk result (text.new.items ≡ text.old.items
        ++ variable_text (named_by names.now own) var) }
{
    if let Some(name) = names.get(var) {
        text.extend_from_slice(name.as_bytes())?;
    }
    write_mark(text, own, var)
}

/// Appends a variable with its value.
pub(crate) fn write_setting(
    text: &mut Vec<u8>,
    names: &[Name],
    own: u32,
    var: usize,
    value: Val,
) -> Result<(), AllocError>
    requires { var + 1 < 2 ^ 64 }
    ensures { OnOk result (text.new.items ≡ text.old.items
        ++ setting_text (named_by names.now own) (var, value)) }
{
    write_variable(text, names, own, var)?;
    text.extend_from_slice(b" = ")?;
    write_value(text, value)
}

/// Appends variables with their values, a comma before each.
fn write_more(
    text: &mut Vec<u8>,
    names: &[Name],
    own: u32,
    settings: &[(u32, Val)],
) -> Result<(), AllocError>
    ensures { OnOk result (text.new.items ≡ text.old.items
        ++ more_settings_text (named_by names.now own) settings.now) }
{
    let mut rest = settings;
    'settings: while let Some((setting, more)) = rest.split_first() {
        text.extend_from_slice(b", ")?;
        write_setting(text, names, own, setting.0 as usize, setting.1)?;
        rest = more;
    }
    Ok(())
}

/// Appends variables with their values, with commas between them.
pub(crate) fn write_settings(
    text: &mut Vec<u8>,
    names: &[Name],
    own: u32,
    settings: &[(u32, Val)],
) -> Result<(), AllocError>
    ensures { OnOk result (text.new.items ≡ text.old.items
        ++ settings_text (named_by names.now own) settings.now) }
{
    match settings.split_first() {
        None => Ok(()),
        Some((setting, more)) => {
            write_setting(text, names, own, setting.0 as usize, setting.1)?;
            write_more(text, names, own, more)
        }
    }
}
