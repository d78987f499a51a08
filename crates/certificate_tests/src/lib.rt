//! Tests of the text of certificates.
#![tactic(auto)]

#[cfg(test)]
mod broken_texts;
#[cfg(test)]
mod right_texts;
