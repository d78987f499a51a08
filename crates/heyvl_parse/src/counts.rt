//! The counts of the load: one for each open bracket, and one for the text outside of all brackets.

ghost use Rattle.heyvl_parse.specs.internal.HeldCounts.{IsCounted, counts_of, effect_of};
ghost use Rattle.heyvl_syntax.specs.Load.{changed, load};
ghost use Rattle.std.specs.Prelude.{OnOk, [], ◌∷◌, ◌≡◌, ◌≤◌};

use crate::effects::Effect;
use std::alloc::{AllocError, Global};
use std::collections::VecDeque;

/// The count of the innermost bracket, the counts of the brackets around it from the inside to the
/// outside, and the load.
#[derive(Drop)]
pub(crate) struct Counts {
    pub innermost: usize,
    pub outer: VecDeque<usize>,
    pub load: usize,
}

impl Counts {
    /// Returns the counts before the first token.
    pub fn new(alloc: Global) -> Counts
        ensures counts { counts_of result ≡ 0 ∷ [] }
        ensures counted { IsCounted result }
    {
        Counts {
            innermost: 0,
            outer: VecDeque::new(alloc),
            load: 0,
        }
    }

    fn open(&mut self) -> Result<(), AllocError>
        requires counted { IsCounted self.old }
        requires light { self.old.load ≤ 200 }
        ensures counts { OnOk result (counts_of self.new ≡ 0 ∷ counts_of self.old) }
        ensures counted { OnOk result (IsCounted self.new) }
    {
        self.outer.push_front(self.innermost)?;
        self.innermost = 0;
        self.load += 1;
        Ok(())
    }

    fn close(&mut self)
        requires { IsCounted self.old }
        ensures counts { counts_of self.new
            ≡ changed (counts_of self.old) (effect_of Effect.Closes) }
        ensures counted { IsCounted self.new }
    {
        if let Some(count) = self.outer.pop_front() {
            self.load = self.load - self.innermost - 1;
            self.innermost = count;
        }
    }

    fn reset(&mut self)
        requires { IsCounted self.old }
        ensures counts { counts_of self.new
            ≡ changed (counts_of self.old) (effect_of Effect.Resets) }
        ensures counted { IsCounted self.new }
    {
        self.load -= self.innermost;
        self.innermost = 0;
    }

    /// Applies the effect of a token.
    pub fn change(&mut self, effect: Effect) -> Result<(), AllocError>
        requires counted { IsCounted self.old }
        requires light { self.old.load ≤ 200 }
        ensures counts { OnOk result
            (counts_of self.new ≡ changed (counts_of self.old) (effect_of effect)) }
        ensures counted { OnOk result (IsCounted self.new) }
    {
        match effect {
            Effect::Opens => self.open()?,
            Effect::Closes => self.close(),
            Effect::Adds => {
                self.innermost += 1;
                self.load += 1;
            }
            Effect::Resets => self.reset(),
            Effect::Keeps => {}
        }
        Ok(())
    }
}
