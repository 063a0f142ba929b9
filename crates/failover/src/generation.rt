//! A generation of the pair, as a value that must be spent.
ghost use Rattle.std.specs.Prelude.{◌≡◌, ◌≤◌, ◌<◌};
ghost use Rattle.failover.specs.Generations.{GenerationState, IsGeneration, generation_limit, first_generation, told_generation, spent};
ghost use Rattle.failover.specs.declared.mode.Mode.TheVariants.{Paired, Filling};
ghost use Rattle.failover.specs.declared.change.Change.TheVariants as changes;

use crate::change::Change;
use crate::errors::GenerationError;
use crate::mode::Mode;
use std::marker::Model;

/// The number of the first generation that there is no number for, 2^62.
pub const GENERATION_LIMIT: u64 = 4611686018427387904;

/// The generation that a node is in: its number, from 1 to 2^62 - 1, and the mode.
///
/// It can't be copied, nor let go: it isn't `Drop`. So whoever holds one has to give it to a call that spends it, and gets the next one, the
/// same one with a refusal, or none from [`Generation::end`]. A node that goes live has spent its generation, and can't do so again.
pub struct Generation {
    number: u64,
    mode: Mode,
}

impl Model for Generation {
    ghost use Rattle.failover.specs.Generations.{GenerationState};

    ghost Value = { GenerationState };

    ghost use Rattle.failover.specs.internal.Fields.{generation_state, AreFields};

    ghost view = { generation_state };

    ghost invariant = { AreFields };
}

impl Generation {
    /// The first generation, of a pair.
    pub fn boot() -> Generation
        ensures { result ≡ first_generation }
    {
        Generation {
            number: 1,
            mode: Mode::Paired,
        }
    }

    /// The generation that a standby was told to wait for, from 1 to 2^62 - 1: it has to be filled.
    pub fn told(number: u64) -> Generation
        requires first { 1 ≤ number }
        requires last { number < generation_limit }
        ensures { result ≡ told_generation number }
    {
        Generation {
            number,
            mode: Mode::Filling,
        }
    }

    /// Its number, from 1 to 2^62 - 1.
    pub fn number(&self) -> u64
        ensures number { result ≡ self.now.number }
        // What is true of every generation.
        ensures generation { IsGeneration self.now }
    {
        self.number
    }

    /// The mode of the node that holds it.
    pub fn mode(&self) -> Mode
        ensures { result ≡ self.now.mode }
    {
        self.mode
    }

    /// The primary stops.
    ///
    /// # Errors
    ///
    /// This generation, with why it can't be: the refusal of [`Change::FailPrimary`].
    pub fn stop(self) -> Result<Generation, (Generation, GenerationError)>
        ensures { result ≡ spent changes.FailPrimary self }
    {
        self.after(Change::FailPrimary)
    }

    /// The standby stops, and the primary goes on alone.
    ///
    /// # Errors
    ///
    /// This generation, with why it can't be: the refusal of [`Change::FailBackup`].
    pub fn alone(self) -> Result<Generation, (Generation, GenerationError)>
        ensures { result ≡ spent changes.FailBackup self }
    {
        self.after(Change::FailBackup)
    }

    /// A node that is alone gets a standby to fill, in the next generation.
    ///
    /// # Errors
    ///
    /// This generation, with why it can't be: the refusal of [`Change::Protect`], or [`GenerationError::Exhausted`] if there is no next
    /// number.
    pub fn protect(self) -> Result<Generation, (Generation, GenerationError)>
        ensures { result ≡ spent changes.Protect self }
    {
        self.after(Change::Protect)
    }

    /// The standby goes live in the place of a stopped primary, in the next generation.
    ///
    /// # Errors
    ///
    /// This generation, with why it can't be: the refusal of [`Change::GoLive`], or [`GenerationError::Exhausted`] if there is no next
    /// number.
    pub fn go_live(self) -> Result<Generation, (Generation, GenerationError)>
        ensures { result ≡ spent changes.GoLive self }
    {
        self.after(Change::GoLive)
    }

    /// The full checkpoint is committed: a generation that was filling, as the caller knows, is a pair's.
    pub fn filled(&mut self)
        requires { self.old.mode ≡ Filling }
        ensures { self.new ≡ record self.old { mode = Paired } }
    {
        self.mode = Mode::Paired;
    }

    /// The holder of this generation comes to its end, and the generation with it.
    pub fn end(self) {
        let Generation { number: _, mode: _ } = self;
    }

    /// What a change makes of it.
    fn after(self, change: Change) -> Result<Generation, (Generation, GenerationError)>
        ensures { result ≡ spent change self }
    {
        let Generation { number, mode } = self;
        match mode.after(change) {
            Err(why) => Err((Generation { number, mode }, GenerationError::Refused(why))),
            Ok((mode, raise)) if raise < GENERATION_LIMIT - number => Ok(Generation {
                number: number + raise,
                mode,
            }),
            Ok(_) => Err((Generation { number, mode }, GenerationError::Exhausted)),
        }
    }
}
