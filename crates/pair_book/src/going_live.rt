//! The backup goes live.
ghost use Rattle.std.specs.Prelude.{◌≡◌, ℕ, ◌+◌, All, map, None, IfOk, OnOk, IfErr, OnErr};
ghost use Rattle.frame_ports.specs.Addresses.{IsFrame};
ghost use Rattle.growing_history.specs.LogState.{state_at};
ghost use Rattle.pair_record.specs.declared.event.Reply.TheVariants as replies;
ghost use Rattle.pair_record.specs.Kept.{Brings, brought_done, ports_after_brought};
ghost use Rattle.pair_book.specs.Calls.{IsWhy, IsAsBefore};
ghost use Rattle.pair_book.specs.GoingLive.{GoesLive, BeginsWithImage, go_live_why};
ghost use Rattle.pair_book.specs.Packets.{no_texts};
ghost use Rattle.pair_book.specs.Standing.{KeepsFrames};

use crate::book::Book;
use frame_list::FrameList;
use growing_history::{BackupSeat, Clock, Pair, RunnerSeat};
use pair_record::{Event, Refusal, mode_refusal};

impl<P: Pair> Book<P> {
    /// Why the backup of this seat doesn't go live with these frames, the first of which has the number `first`.
    fn go_live_refusal(
        &self,
        seat: &BackupSeat<P>,
        first: u64,
        kept: &[FrameList],
    ) -> Option<Refusal>
        ensures { result ≡ go_live_why P.start self.now seat.now.number first (map (λ v. v.items) kept.now) }
    {
        if let Some(why) = mode_refusal(self.record.mode(), Event::GoLive) {
            return Some(why);
        }
        if seat.number() != self.seats.backup() {
            return Some(Refusal::Stopped);
        }
        if let Some(why) = self.record.go_live_refusal(first, kept) {
            return Some(why);
        }
        if self.is_word_full() {
            return Some(Refusal::Exhausted);
        }
        None
    }

    /// The primary has stopped, and the backup goes on alone, in the next generation, from its guest. What wasn't committed is discarded,
    /// with the frames that it took in and those that were handed out; then, of the frames of its last commits, which it hands over, and
    /// the first of which has the number `first`, those land that haven't come yet. Answers the seat of the runner of its guest.
    ///
    /// # Errors
    ///
    /// In this order: [`Refusal::NotPaired`] where a node is alone; [`Refusal::AlreadyPaired`] where the primary hasn't stopped;
    /// [`Refusal::Stopped`] where this backup isn't the live one; [`Refusal::Exhausted`] where the generation's number, the history or the
    /// word would reach 2^62. [`Refusal::NoMemory`] where the room in the history can't be had.
    pub fn go_live(
        &mut self,
        clock: &Clock<P>,
        seat: &mut BackupSeat<P>,
        first: u64,
        kept: &[FrameList],
    ) -> Result<RunnerSeat<P>, Refusal>
        requires frames { All (λ v. All IsFrame v.items) kept.now }
        requires stands { (sent : ℕ) × KeepsFrames P.start seat.old sent first (map (λ v. v.items) kept.now) }
        ensures number { seat.new.number ≡ seat.old.number }
        // However many steps the backup's guest has made.
        ensures done { OnOk result ((steps : ℕ) → (replies.Live (self.old.protocol.generation + 1) steps, self.new.protocol)
            ≡ brought_done self.old.protocol self.old.ports first (map (λ v. v.items) kept.now) steps) }
        ensures ports { OnOk result (self.new.ports
            ≡ ports_after_brought self.old.ports self.old.protocol first (map (λ v. v.items) kept.now)) }
        ensures texts { OnOk result (self.new.texts ≡ no_texts) }
        // What it hands over ends with all that the clients are owed, unless a commit is marked.
        ensures owed { OnOk result ((state_at P.start self.old.steps).marked ≡ 0
            → Brings self.old.protocol self.old.ports first (map (λ v. v.items) kept.now)) }
        ensures step { OnOk result (GoesLive self.old self.new seat.old seat.new) }
        ensures runner { IfOk result (λ runner. runner ≡ record { number = self.new.enrolled; steps = self.new.steps }) }
        ensures runs { IfOk result (λ runner. BeginsWithImage P.start seat.old runner first (map (λ v. v.items) kept.now)) }
        ensures free { OnOk result (go_live_why P.start self.old seat.old.number first (map (λ v. v.items) kept.now) ≡ None) }
        ensures why { IfErr result (IsWhy (go_live_why P.start self.old seat.old.number first (map (λ v. v.items) kept.now))) }
        ensures refused { OnErr result (IsAsBefore self.old self.new seat.old seat.new) }
    {
        if let Some(why) = self.go_live_refusal(seat, first, kept) {
            return Err(why);
        }
        let _new = self.seats.next();
        self.record.keep();
        // Its count of steps stands in the record's answer alone, which the book doesn't give.
        self.record.go_live(0, first, kept)?;
        self.texts.clear();
        self.seats.meet(clock, seat);
        let runner = self.seats.go_live(clock);
        self.seats.meet(clock, seat);
        Ok(runner)
    }
}
