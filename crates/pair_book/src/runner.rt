//! What the runner calls.
ghost use Rattle.std.specs.Prelude.{◌≡◌, true, false, IfOk, OnOk, IfErr};
ghost use Rattle.pair_book.specs.Running.{may_run, kind_wanted, wanted_of};

use crate::book::Book;
use growing_history::{Pair, RunnerSeat};
use pair_record::{Mode, Refusal, is_stopped};

/// Which checkpoint the runner is to prepare.
#[derive(Clone, Copy, PartialEq, Eq)]
pub enum Kind {
    /// None: the node is alone.
    Nothing,
    /// What changed since the checkpoint before, with the frames that the guest sent.
    Delta,
    /// All that a new backup needs to begin with.
    Full,
}

/// What the runner is to prepare, and under which generation and number it is taken.
#[derive(Clone, Copy, PartialEq, Eq)]
pub struct Want {
    pub kind: Kind,
    /// The pair's generation, from 1. Where nothing is wanted it isn't looked at.
    pub generation: u64,
    /// The checkpoint's number in its generation; 0 for a full one, and where nothing is wanted.
    pub number: u64,
}

impl<P: Pair> Book<P> {
    /// Whether the runner of this seat is the live one, and the primary hasn't stopped.
    pub(crate) fn may_run(&self, seat: &RunnerSeat<P>) -> bool
        ensures { result ≡ may_run P.start self.now seat.now.number }
    {
        self.seats.keep();
        seat.number() == self.seats.runner() && !is_stopped(self.record.mode())
    }

    /// Which kind of checkpoint is wanted.
    pub(crate) fn kind_wanted(&self) -> Kind
        ensures { result ≡ kind_wanted self.now.protocol.mode self.now.protocol.window.to_cut }
    {
        match self.record.mode() {
            Mode::Alone => Kind::Nothing,
            Mode::Filling if self.record.window().to_cut == 0 => Kind::Full,
            Mode::Filling | Mode::Paired | Mode::Stopped => Kind::Delta,
        }
    }

    /// What the runner is to prepare for its next submit: nothing where the node is alone; the full checkpoint, number 0, of a new backup
    /// until it is sealed; else a delta under the next number.
    ///
    /// # Errors
    ///
    /// [`Refusal::Stopped`] where another runner is live, or the primary has stopped.
    pub fn ask(&self, seat: &RunnerSeat<P>) -> Result<Want, Refusal>
        ensures done { IfOk result (λ want. want ≡ wanted_of self.now) }
        ensures free { OnOk result (may_run P.start self.now seat.now.number ≡ true) }
        ensures why { IfErr result (λ why. (why ≡ Refusal.Stopped) × (may_run P.start self.now seat.now.number ≡ false)) }
    {
        if !self.may_run(seat) {
            return Err(Refusal::Stopped);
        }
        let kind = self.kind_wanted();
        let number = match kind {
            Kind::Delta => self.record.window().to_cut,
            Kind::Nothing | Kind::Full => 0,
        };
        Ok(Want {
            kind,
            generation: self.record.generation(),
            number,
        })
    }
}
