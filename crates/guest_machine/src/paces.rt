//! A run of the guest's steps that may be held at any of them.
ghost use Rattle.std.specs.Prelude.{◌≡◌, ◌<◌, ◌≤◌, ◌++◌, length};
ghost use Rattle.guest_rules.specs.Flags.{KeepsFlags};
ghost use Rattle.guest_rules.specs.Limits.{stepping_frames};
ghost use Rattle.guest_machine.specs.Paces.{Lets, Holds};
ghost use Rattle.guest_rules.specs.Runs.{after_steps, sent_in, marked_in, HaveRoom};

use crate::machine::{Machine, STEPPING_FRAMES};

/// Whether the guest goes on.
pub trait Pace {
    ghost use Rattle.std.specs.Prelude.{ℕ, Bool, ◌<◌};

    /// How many steps one yes lets by: 1 for a pace that is asked before each step.
    ghost STRETCH: { ℕ };

    /// A pace, how many steps were made when it is asked, its answer, and the pace after it.
    ghost answers: { Self → ℕ → Bool → Self → Type 0 };

    const STRETCH: u64;

    /// Whether the guest goes on after so many steps.
    fn go_on(&mut self, made: u64) -> bool
        ensures { answers self.old made result self.new };

    ghost some: { 0 < STRETCH };
}

/// A pace that lets all steps by.
#[derive(Drop)]
pub struct Unpaced;

impl Pace for Unpaced {
    ghost use Rattle.std.specs.Prelude.{◌≡◌, true};
    ghost use Rattle.std.proofs.Common.{rules};

    ghost STRETCH = { 18446744073709551615 };

    ghost answers = { λ before made yes after. yes ≡ true };

    const STRETCH: u64 = u64::MAX;

    fn go_on(&mut self, _made: u64) -> bool {
        true
    }

    ghost some = { Prim.search rules };
}

impl Machine {
    /// Steps of the guest, as [`run`](Machine::run) makes them, for a pace that is asked before them, and again each time that as many
    /// steps were made as one yes of its type lets by. `count` steps are made, or fewer where the next one finds more than 192 frames in
    /// the outbox, so that a cut is needed, or where the pace says no. The answer is how many were made. It takes no memory.
    pub fn run_paced<P: Pace>(&mut self, count: u64, pace: &mut P) -> u64
        ensures most { result ≤ count }
        ensures guest { self.new.guest ≡ after_steps result self.old.guest }
        ensures outbox { self.new.outbox ≡ self.old.outbox ++ sent_in result self.old.guest }
        ensures dirty { self.new.dirty ≡ marked_in result self.old.guest self.old.dirty }
        ensures settled { self.new.settled ≡ self.old.settled }
        ensures flags { KeepsFlags self.old.written self.new.written }
        ensures room { HaveRoom result self.old.guest self.old.outbox }
        ensures unchanged { result ≡ 0 → self.new ≡ self.old }
        ensures all { result ≡ count → Lets P.answers P.STRETCH result pace.old pace.new }
        ensures cut_needed { stepping_frames < length self.new.outbox → Lets P.answers P.STRETCH result pace.old pace.new }
        ensures held { result < count → length self.new.outbox ≤ stepping_frames → Holds P.answers P.STRETCH result pace.old pace.new }
    {
        let mut made = 0;
        while made < count && self.outbox().len() <= STEPPING_FRAMES {
            if !pace.go_on(made) {
                return made;
            }
            made += self.run_while((count - made).min(P::STRETCH), STEPPING_FRAMES);
        }
        made
    }
}
