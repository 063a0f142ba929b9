//! What the backup calls.
ghost use Rattle.std.specs.Prelude.{◌≡◌, ◌<◌, true, false, None, IfOk, OnOk, IfErr, OnErr, IfSome, option_map};
ghost use Rattle.pair_record.specs.declared.event.Reply.TheVariants as replies;
ghost use Rattle.pair_record.specs.Protocol.{again_done};
ghost use Rattle.pair_book.specs.Calls.{IsWhy, IsAsBefore};
ghost use Rattle.pair_book.specs.Commits.{may_commit, is_earlier, commit_why, AfterCommit, Acknowledges, StandsAfterNext};
ghost use Rattle.pair_book.specs.Commits.{StandsAfterAgain};
ghost use Rattle.epoch_snapshot.specs.Checkpoints.{is_old_delta};

use crate::book::Book;
use crate::failures::Ack;
use epoch_snapshot::Checkpoint;
use growing_history::{BackupSeat, Clock, Pair, Tells, Texts, sealed_texts_make_their_guests};
use pair_record::{Packet, Refusal, Reply, is_alone};

/// A checkpoint that the backup read. It is announced as the commit of its epoch, with its text, which is what was read; nothing is
/// copied.
#[derive(Drop)]
struct CommitOf<'a> {
    checkpoint: &'a Checkpoint,
}

impl Tells for CommitOf<'_> {
    ghost use Rattle.pair_book.specs.Commits.{commit_of};

    ghost what = { λ c. commit_of c.checkpoint.now };
}

/// What a text of the pair makes of a guest: it reads back as a checkpoint of the pair's shape, which carries the frames and makes the one
/// guest of the other.
impl<P: Pair> Texts for Book<P> {
    ghost use Rattle.pair_book.specs.Made.{Reads};

    ghost reads = { Reads P.start };
}

/// Whether it is a delta of version 1.
fn is_old_delta(checkpoint: &Checkpoint) -> bool
    ensures { result ≡ is_old_delta checkpoint.now }
{
    checkpoint.version() == 1 && checkpoint.number() != 0
}

impl<P: Pair> Book<P> {
    /// Whether the backup of this seat is the live one, and no node is alone.
    fn may_commit(&self, seat: &BackupSeat<P>) -> bool
        ensures { result ≡ may_commit P.start self.now seat.now.number }
    {
        self.seats.keep();
        seat.number() == self.seats.backup() && !is_alone(self.record.mode())
    }

    /// Whether it is of an earlier number than the next that is to be committed.
    pub fn is_earlier(&self, checkpoint: &Checkpoint) -> bool
        ensures { result ≡ is_earlier self.now checkpoint.now }
    {
        checkpoint.number() < self.record.window().to_commit
    }

    /// Why the commit of what was read would be refused, as [`Book::commit`] says, but for want of memory; `None` where nothing refuses it.
    pub fn commit_refusal(&self, seat: &BackupSeat<P>, read: Option<&Checkpoint>) -> Option<Refusal>
        ensures { result ≡ commit_why P.start self.now seat.now.number (option_map (λ c. c.now) read.entry) }
    {
        let Some(checkpoint) = read else {
            if self.may_commit(seat) {
                return Some(Refusal::Stale);
            }
            return Some(Refusal::Stopped);
        };
        if is_old_delta(checkpoint) {
            return Some(Refusal::OldVersion);
        }
        if !self.may_commit(seat) {
            return Some(Refusal::Stopped);
        }
        let packet = Packet {
            generation: checkpoint.generation(),
            number: checkpoint.number(),
        };
        if let Some(why) = self.record.backup_refusal(packet) {
            return Some(why);
        }
        if self.is_earlier(checkpoint) {
            return None;
        }
        let window = self.record.window();
        if window.to_cut <= window.to_commit {
            return Some(Refusal::Gap);
        }
        if self.is_word_full() {
            return Some(Refusal::Exhausted);
        }
        None
    }

    /// The acknowledgement of the last committed checkpoint.
    fn last_ack(&self) -> Ack
        requires { 0 < self.now.protocol.window.to_commit }
        ensures { (replies.Again result.generation result.number, self.now.protocol) ≡ again_done self.now.protocol }
    {
        Ack {
            generation: self.record.generation(),
            number: self.record.window().to_commit - 1,
        }
    }

    /// The backup commits the checkpoint that it has read, none where it read none: where it is the next one, its epoch enters the
    /// history, and a new backup's first one makes a pair. Answers the acknowledgement; where it is an earlier one, that of the last
    /// committed checkpoint again, and nothing else happens but that the seat has seen all steps.
    ///
    /// A backup that stood (`Stands` of the specs) stands after it where the checkpoint was read and is of the pair's shape: its image then
    /// is the checkpoint applied to the one before. So it has to apply it before it calls the book again. Where the checkpoint is an earlier
    /// one it stands on, at the one that is acknowledged.
    ///
    /// # Errors
    ///
    /// In this order: [`Refusal::OldVersion`] for a delta of version 1; [`Refusal::Stopped`] where this backup isn't the live one, or a
    /// node is alone; [`Refusal::Stale`] for another generation, and where none was read; [`Refusal::Gap`] beyond the next number, and
    /// where nothing is sealed under it; [`Refusal::Exhausted`] where the word would reach 2^62. [`Refusal::NoMemory`] where the room in
    /// the history can't be had.
    pub fn commit(
        &mut self,
        clock: &Clock<P>,
        seat: &mut BackupSeat<P>,
        read: Option<&Checkpoint>,
    ) -> Result<Ack, Refusal>
        ensures number { seat.new.number ≡ seat.old.number }
        ensures texts { self.new.texts ≡ self.old.texts }
        ensures done { IfOk result (λ ack. IfSome read.entry (λ c. AfterCommit c.now ack self.old self.new seat.old seat.new)) }
        ensures acknowledged { IfOk result (λ ack. IfSome read.entry (λ c. Acknowledges (is_earlier self.old c.now) c.now ack)) }
        // A backup that stood at the image before stands after the next one, by what it read.
        ensures stands { IfOk result (λ ack. IfSome read.entry (λ c. is_earlier self.old c.now ≡ false
            → StandsAfterNext P.start c.now ack seat.old seat.new)) }
        ensures again { IfOk result (λ ack. IfSome read.entry (λ c. is_earlier self.old c.now ≡ true
            → StandsAfterAgain P.start ack seat.old seat.new)) }
        ensures free { OnOk result (commit_why P.start self.old seat.old.number (option_map (λ c. c.now) read.entry) ≡ None) }
        ensures why { IfErr result (IsWhy (commit_why P.start self.old seat.old.number (option_map (λ c. c.now) read.entry))) }
        ensures refused { OnErr result (IsAsBefore self.old self.new seat.old seat.new) }
    {
        if let Some(why) = self.commit_refusal(seat, read) {
            return Err(why);
        }
        let Some(checkpoint) = read else {
            unreachable!();
        };
        self.record.keep();
        if self.is_earlier(checkpoint) {
            self.seats.meet(clock, seat);
            return Ok(self.last_ack());
        }
        sealed_texts_make_their_guests::<Book<P>>();
        let reply = self.record.commit()?;
        let Reply::Committed { generation, number } = reply else {
            unreachable!();
        };
        self.seats.step(clock, seat, &CommitOf { checkpoint });
        Ok(Ack { generation, number })
    }
}
