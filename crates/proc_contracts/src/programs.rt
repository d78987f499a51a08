//! Programs: procedures whose bound is about runs.

ghost use Rattle.heyvl_acts.specs.Acts.{procedure_at};
ghost use Rattle.heyvl_acts.specs.Places.{in_order, inside};
ghost use Rattle.heyvl_acts.specs.PlainActs.{act_of, acts_of, procedure_of, procedures_of};
ghost use Rattle.heyvl_acts.specs.Program.{first_break, why_no_program};
ghost use Rattle.proc_contracts.specs.Reasons.{stated};
ghost use Rattle.std.specs.Prelude.{length, ◌<◌, ◌≡◌, ◌∷◌};

use crate::reasons::WhyNot;
use heyvl_acts::{Act, TProc, Typed};
use heyvl_places::Span;

/// Returns the first reason why the procedure `p` is not a program, or `None` if it is one. It
/// allocates nothing.
pub fn not_program(typed: &Typed, p: u32) -> Option<WhyNot>
    requires { p < length typed.now.procs.items }
    ensures { stated result ≡ why_no_program (procedure_at (procedures_of typed.now) p) }
{
    why_not(&typed.procs[p as usize])
}

fn why_not(procedure: &TProc) -> Option<WhyNot>
    ensures { stated result ≡ why_no_program (procedure_of procedure.now) }
{
    let Some(acts) = &procedure.body else {
        return Some(WhyNot::NoBody);
    };
    if !(procedure.co || procedure.weak) {
        return Some(WhyNot::NoWlp);
    }
    if procedure.post.has_binder() {
        return Some(WhyNot::Quantifier);
    }
    first_break(procedure.co, acts).map(WhyNot::Statement)
}

/// Returns the place of the first of the acts, also of those inside others, that no program of this
/// direction has.
#[cycle(breaking)]
fn first_break(co: bool, acts: &[Act]) -> Option<Span>
    ensures { result ≡ first_break co (in_order (acts_of acts.now)) }
{
    for act in acts {
        if let Some(found) = break_from(co, act) {
            return Some(found);
        }
    }
    None
}

/// Returns the place of the first act, of `act` and those inside it, that no program of this
/// direction has.
#[cycle(breaking)]
fn break_from(co: bool, act: &Act) -> Option<Span>
    ensures { result ≡ first_break co (act_of act.now ∷ inside (act_of act.now)) }
{
    match act {
        Act::Check(_, _, span) => Some(*span),
        Act::Validate(_, span) => Some(*span),
        Act::Pick(up, left, right, span) => {
            if co != *up {
                return Some(*span);
            }
            match first_break(co, left) {
                Some(found) => Some(found),
                None => first_break(co, right),
            }
        }
        Act::If(arms, other, _) => {
            for arm in arms {
                if let Some(found) = first_break(co, &arm.1) {
                    return Some(found);
                }
            }
            first_break(co, other)
        }
        Act::Loop(one) => first_break(co, &one.body),
        _ => None,
    }
}
