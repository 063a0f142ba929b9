//! The keeper's seat, and whose seats are live.
ghost use Rattle.std.specs.Prelude.{◌≡◌, ◌+◌, ◌<◌, ◌^◌, ◌++◌, ◌∷◌, [], length};
ghost use Rattle.growing_history.specs.LogState.{LegalSteps, IsNew, state_at};
ghost use Rattle.growing_history.specs.Steps.{Begins, WentLive, Protected, step, steps_by};
ghost use Rattle.pair_book.specs.internal.Live.{AreLive, LeavesLive};

use growing_history::{BackupSeat, Clock, KeeperSeat, MemberSeat, Pair, RunnerSeat, Tells, What};
use std::marker::Model;

/// The keeper's seat, and the numbers of the seats of the live runner and of the backup. Each client has a number of its own by now.
#[derive(Drop)]
pub(crate) struct Seats<P: Pair> {
    keeper: KeeperSeat<P>,
    runner: u64,
    backup: u64,
}

impl<P: Pair> Model for Seats<P> {
    ghost use Rattle.growing_history.specs.Views.{Keeper};
    ghost use Rattle.pair_book.specs.internal.Live.{AreLive};

    ghost Value = { Keeper };

    ghost view = { λ s. s.keeper };

    ghost invariant = { λ s. AreLive P.start s.keeper s.runner s.backup };
}

impl<P: Pair> Seats<P> {
    /// The seats of a pair at its start, once every client's number was given out.
    pub(crate) fn first(keeper: KeeperSeat<P>, runner: u64, backup: u64) -> Seats<P>
        requires { AreLive P.start keeper runner backup }
        ensures { result ≡ keeper }
    {
        Seats {
            keeper,
            runner,
            backup,
        }
    }

    /// How many steps were made: what the word is.
    pub(crate) fn count(&self) -> u64
        ensures { result ≡ length self.now.steps }
    {
        self.keeper.count()
    }

    /// What is true of every keeper's seat is true of this one.
    pub(crate) fn keep(&self)
        ensures { LegalSteps P.start self.now.steps }
    {
        let _count = self.keeper.count();
    }

    /// The number of the live runner's seat.
    pub(crate) fn runner(&self) -> u64
        ensures { result ≡ (state_at P.start self.now.steps).runner }
    {
        self.runner
    }

    /// The number of the backup's seat.
    pub(crate) fn backup(&self) -> u64
        ensures { result ≡ (state_at P.start self.now.steps).backup }
    {
        self.backup
    }

    /// The number that the next seat gets.
    pub(crate) fn next(&self) -> u64
        requires few { (state_at P.start self.now.steps).generation < 2 ^ 62 }
        ensures next { result ≡ self.now.enrolled + 1 }
        ensures new { IsNew (state_at P.start self.now.steps) result }
    {
        self.keeper.enrolled() + 1
    }

    /// A step of the member whose seat is lent.
    pub(crate) fn step<W: Tells>(&mut self, clock: &Clock<P>, member: &mut MemberSeat<P>, what: &W)
        requires room { length self.old.steps < 2 ^ 62 }
        requires legal { LegalSteps P.start (self.old.steps ++ step member.old.number (W.what what.now) ∷ []) }
        requires live { LeavesLive (W.what what.now) }
        ensures keeper { self.new ≡ record self.old { steps = self.old.steps ++ step member.old.number (W.what what.now) ∷ [] } }
        ensures member { member.new ≡ record { number = member.old.number; steps = self.new.steps } }
        ensures before { Begins member.old.steps self.old.steps }
        ensures own { steps_by member.old.number member.new.steps ≡ steps_by member.old.number member.old.steps ++ step member.old.number
            (W.what what.now) ∷ [] }
    {
        self.keeper.step(clock, member, what);
    }

    /// A step that is no member's.
    pub(crate) fn step_alone<W: Tells>(&mut self, clock: &Clock<P>, what: &W)
        requires room { length self.old.steps < 2 ^ 62 }
        requires legal { LegalSteps P.start (self.old.steps ++ step 0 (W.what what.now) ∷ []) }
        requires live { LeavesLive (W.what what.now) }
        ensures { self.new ≡ record self.old { steps = self.old.steps ++ step 0 (W.what what.now) ∷ [] } }
    {
        self.keeper.step_alone(clock, what);
    }

    /// Shows a member all the steps that were made.
    pub(crate) fn meet(&mut self, clock: &Clock<P>, member: &mut MemberSeat<P>)
        ensures keeper { self.new ≡ self.old }
        ensures member { member.new ≡ record { number = member.old.number; steps = self.old.steps } }
        ensures before { Begins member.old.steps self.old.steps }
        ensures own { steps_by member.old.number self.old.steps ≡ steps_by member.old.number member.old.steps }
        ensures legal { LegalSteps P.start self.old.steps }
    {
        self.keeper.meet(clock, member);
    }

    /// The live node gets a backup, whose seat this is.
    pub(crate) fn protect(&mut self, clock: &Clock<P>) -> BackupSeat<P>
        requires room { length self.old.steps < 2 ^ 62 }
        requires few { (state_at P.start self.old.steps).generation < 2 ^ 62 }
        requires legal { LegalSteps P.start (self.old.steps ++ step 0 (Protected (self.old.enrolled + 1)) ∷ []) }
        ensures keeper { self.new ≡ record {
          steps = self.old.steps ++ step 0 (Protected (self.old.enrolled + 1)) ∷ [];
          enrolled = self.old.enrolled + 1;
        } }
        ensures seat { result ≡ record { number = self.old.enrolled + 1; steps = self.new.steps } }
    {
        let mut seat = self.keeper.enroll(clock);
        let number = seat.number();
        self.keeper.step_alone(clock, &What::Protected(number));
        self.backup = number;
        self.keeper.meet(clock, &mut seat);
        seat
    }

    /// The backup goes live, with a runner whose seat this is.
    pub(crate) fn go_live(&mut self, clock: &Clock<P>) -> RunnerSeat<P>
        requires room { length self.old.steps < 2 ^ 62 }
        requires few { (state_at P.start self.old.steps).generation < 2 ^ 62 }
        requires legal { LegalSteps P.start (self.old.steps ++ step 0 (WentLive (self.old.enrolled + 1)) ∷ []) }
        ensures keeper { self.new ≡ record {
          steps = self.old.steps ++ step 0 (WentLive (self.old.enrolled + 1)) ∷ [];
          enrolled = self.old.enrolled + 1;
        } }
        ensures seat { result ≡ record { number = self.old.enrolled + 1; steps = self.new.steps } }
    {
        let mut seat = self.keeper.enroll(clock);
        let number = seat.number();
        self.keeper.step_alone(clock, &What::WentLive(number));
        self.runner = number;
        self.keeper.meet(clock, &mut seat);
        seat
    }
}
