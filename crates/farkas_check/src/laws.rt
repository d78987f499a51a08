//! The laws of certificates. Each function does nothing: its contract is the law.

ghost use Rattle.farkas_check.specs.CertificateLaws as law;

/// States that a tree is not both accepted and refused, and is refused at one place.
pub fn certificates_are_told_apart()
    ensures never_both { law.NeverBoth }
    ensures one_place { law.OnePlace }
{}

/// States that a goal with a certificate holds in each state.
pub fn certified_goals_hold()
    ensures { law.CertifiedGoalsHold }
{}
