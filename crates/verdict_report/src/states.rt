//! States in a report.

ghost use Rattle.std.specs.Prelude.{◌≡◌, ◌++◌, ◌+◌, ◌<◌, ◌^◌, ◌||◌, IfOk, OnOk, drop, length};
ghost use Rattle.verdict_report.specs.Settings.{named_by};
ghost use Rattle.verdict_report.specs.States.{is_telling, state_text, telling, valued};
ghost use Rattle.verdict_report.specs.internal.Listings.{behind_text, is_some_setting};

use crate::settings::{write_setting, write_settings};
use heylo_formula::Val;
use heyvl_places::Name;
use std::alloc::{AllocError, Global};

/// Returns whether the value of a binder is shown: it is neither 0 nor false.
fn is_telling(value: Val) -> bool
    ensures { result ≡ is_telling value }
{
    match value {
        Val::Truth(truth) => truth,
        Val::Num(fraction) => fraction.num().unsigned_abs() != 0,
    }
}

/// Appends the variables `shown` with their values to `settings`.
fn add_valued(
    settings: &mut Vec<(u32, Val)>,
    shown: &[u32],
    state: &[Val],
) -> Result<(), AllocError>
    ensures { OnOk result (settings.new.items ≡ settings.old.items ++ valued state.now shown.now) }
{
    let mut rest = shown;
    'shown: while let Some((var, more)) = rest.split_first() {
        let value = match state.get(*var as usize) {
            Some(value) => *value,
            None => Val::Truth(false),
        };
        settings.push((*var, value))?;
        rest = more;
    }
    Ok(())
}

/// Returns the variables `shown` with their values.
fn settings_of(alloc: Global, shown: &[u32], state: &[Val]) -> Result<Vec<(u32, Val)>, AllocError>
    ensures { IfOk result (λ settings. settings.items ≡ valued state.now shown.now) }
{
    let mut settings = Vec::new(alloc);
    add_valued(&mut settings, shown, state)?;
    Ok(settings)
}

/// Appends those binders whose values are shown, and returns whether the text has a setting then.
/// `begun` says whether it has one before, so that a comma comes first. The first binder has the
/// number `own`.
fn write_telling(
    text: &mut Vec<u8>,
    names: &[Name],
    own: u32,
    begun: bool,
    values: &[Val],
) -> Result<bool, AllocError>
    requires { own + length values.now < 2 ^ 64 }
    ensures text { OnOk result
        (text.new.items ≡ text.old.items
        ++ behind_text begun (named_by names.now own) (telling own values.now)) }
    ensures begun { IfOk result
        (λ stands. stands ≡ (begun || is_some_setting (telling own values.now))) }
{
    let mut stands = begun;
    let mut var = own as usize;
    let mut rest = values;
    'values: while let Some((value, more)) = rest.split_first() {
        if is_telling(*value) {
            if stands {
                text.extend_from_slice(b", ")?;
            }
            write_setting(text, names, own, var, *value)?;
            stands = true;
        }
        var += 1;
        rest = more;
    }
    Ok(stands)
}

/// Returns the values of the binders of a state, which have the numbers from `own` on.
fn binders_of(own: u32, state: &[Val]) -> &[Val]
    ensures { result.now ≡ drop own state.now }
{
    match state.get(own as usize..) {
        Some(binders) => binders,
        None => &[],
    }
}

/// Appends the state of a goal, as `name = value` with commas between: the variables `shown`, in
/// this order, then the binders whose values are neither 0 nor false. Binders have the numbers from
/// `own` on. If nothing is shown, appends `any state`. `names` has the names of the goal's
/// variables, by number.
pub fn write_state(
    alloc: Global,
    text: &mut Vec<u8>,
    names: &[Name],
    own: u32,
    shown: &[u32],
    state: &[Val],
) -> Result<(), AllocError>
    ensures { OnOk result (text.new.items ≡ text.old.items
        ++ state_text (named_by names.now own) shown.now state.now) }
{
    let settings = settings_of(alloc, shown, state)?;
    write_settings(text, names, own, &settings)?;
    let begun = !settings.is_empty();
    if !write_telling(text, names, own, begun, binders_of(own, state))? {
        text.extend_from_slice(b"any state")?;
    }
    Ok(())
}
