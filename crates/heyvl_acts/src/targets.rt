//! The variables that acts assign.

ghost use Rattle.heyvl_acts.specs.ModifiedVariables.{is_target_of, is_target_of_act, modified};
ghost use Rattle.heyvl_acts.specs.PlainActs.{act_of, acts_of};
ghost use Rattle.heyvl_acts.specs.Visible.{among};
ghost use Rattle.std.specs.Prelude.{◌≡◌, length};

use crate::acts::Act;

/// Returns whether one of the acts assigns the variable `x`.
#[cycle(targets)]
pub fn is_target(x: u32, acts: &[Act]) -> bool
    ensures { result ≡ is_target_of x (acts_of acts.now) }
{
    for act in acts {
        if is_target_of_act(x, act) {
            return true;
        }
    }
    false
}

/// Returns whether the act assigns the variable `x`.
#[cycle(targets)]
fn is_target_of_act(x: u32, act: &Act) -> bool
    ensures { result ≡ is_target_of_act x (act_of act.now) }
{
    match act {
        Act::Set(y, _, _) => *y == x,
        Act::Draw(y, _, _) => *y == x,
        Act::Toss(y, _, _) => *y == x,
        Act::Any(y, _, _, _) => *y == x,
        Act::Reward(_, _) => false,
        Act::If(arms, other, _) => {
            for arm in arms {
                if is_target(x, &arm.1) {
                    return true;
                }
            }
            is_target(x, other)
        }
        Act::Pick(_, first, second, _) => is_target(x, first) || is_target(x, second),
        Act::Check(_, _, _) => false,
        Act::Validate(_, _) => false,
        Act::Loop(one) => is_target(x, &one.body),
        Act::Call(targets, _, _, _) => is_among(x, targets),
    }
}

/// Returns whether `x` is one of the targets.
fn is_among(x: u32, targets: &[u32]) -> bool
    ensures { result ≡ among targets.now x }
{
    targets.contains(&x)
}

/// Returns the number of variables of the scope that the acts assign.
pub(crate) fn modified(scope: &[u32], acts: &[Act]) -> usize
    ensures { result ≡ length (modified scope.now (acts_of acts.now)) }
{
    scope.iter().filter(|x| is_target(**x, acts)).count()
}
