//! The backup: it reads the checkpoints that come, and has the image of the last commit.
ghost use Rattle.std.specs.Prelude.{◌≡◌, ◌<◌, ◌≤◌, true, false, length, option_map, [], All, IfOk, OnOk, IfErr, OnErr, IsSome, IfSome, None};
ghost use Rattle.std.specs.List.{Contains};
ghost use Rattle.backup_image.specs.Images.{settled_machine};
ghost use Rattle.checkpoint_stream.specs.Readings.{is_closed};
ghost use Rattle.pair_book.specs.Commits.{WasRead};
ghost use Rattle.pair_book.specs.Made.{IsShape};
ghost use Rattle.pair_book.specs.Settled.{settled_runner, Runs};
ghost use Rattle.hypervisor.specs.Backups.{new_backup, ImageStands, HasHistorysGuest};
ghost use Rattle.hypervisor.specs.Commits.{Commits, MayRefuseCommit, AfterRefusedCommit, gives_up, read_after_refusal};
ghost use Rattle.hypervisor.specs.Feeding.{Feeds};
ghost use Rattle.hypervisor.specs.FirstBackups.{AfterPacket, AnswersPacket, HasSeen, Hears, ReadsWhole, is_all_of};
ghost use Rattle.hypervisor.specs.GoingLive.{BecomesLive, GoesLiveWith, live_refusals};
ghost use Rattle.hypervisor.specs.Runners.{new_runner};

use crate::backup_calls::{Committed, commit, go_live, take_in};
use crate::runner::Runner;
use crate::shared::Shared;
use backup_image::{Image, Resumed};
use checkpoint_stream::{Reader, StreamError, read_is_its_text};
use epoch_snapshot::Checkpoint;
use growing_history::{BackupSeat, Badge, Clock, Pair, RunnerSeat};
use guest_machine::Shape;
use pair_book::{Ack, Book, Refusal, TextPacket, members_go_on};
use std::alloc::Global;
use std::marker::Model;
use std::sync::{Arc, Wait};

/// A node's image of the guest as of the last commit, and what was read of the checkpoint that comes next. Contracts see it as a
/// `BackupState` of the specs.
///
/// Checkpoints are read, and taken into the image, with no lock held.
pub struct Backup<P: Pair> {
    shared: Arc<Shared<P>>,
    image: Image,
    reader: Reader,
    read: Option<Checkpoint>,
    seat: BackupSeat<P>,
}

// Proved here, and not in each crate above that keeps one in a `Box` or an `Option`.
impl<P: Pair> Drop for Backup<P> {
    fn drop(self) {
        let Backup {
            shared: _,
            image: _,
            reader: _,
            read: _,
            seat: _,
        } = self;
    }
}

impl<P: Pair> Model for Backup<P> {
    ghost use Rattle.hypervisor.specs.Backups.{BackupState, backup_state, IsBackup};

    ghost Value = { BackupState };

    ghost view = { λ b. backup_state b.image b.reader b.read b.seat };

    ghost invariant = { λ b. IsBackup P.start (backup_state b.image b.reader b.read b.seat) };
}

impl<P: Pair> Backup<P> {
    /// The backup of this image, which has read nothing yet. Nothing is staged in the image, which is of the pair's shape, and the backup of
    /// that seat stands with it, as the caller knows. It takes no memory.
    pub(crate) fn new(
        alloc: Global,
        shared: Arc<Shared<P>>,
        image: Image,
        seat: BackupSeat<P>,
    ) -> Backup<P>
        requires unstaged { image.staged ≡ None }
        requires shape { IsShape P.start image.shape }
        requires stands { ImageStands P.start seat image }
        ensures { result ≡ new_backup image seat }
    {
        let reader = Reader::new(alloc, image.shape());
        Backup {
            shared,
            image,
            reader,
            read: None,
            seat,
        }
    }

    /// The image of the last commit.
    pub fn image(&self) -> &Image
        ensures value { result.now ≡ self.now.image }
        // What is true of every backup.
        ensures guest { HasHistorysGuest P.start self.now }
        ensures shape { IsShape P.start self.now.image.shape }
    {
        &self.image
    }

    /// The checkpoint that was read whole, and isn't committed or given up; `None` where there is none.
    pub fn read(&self) -> Option<&Checkpoint>
        ensures value { option_map (λ c. c.now) result ≡ self.now.read }
        // It is what its own text reads as.
        ensures was { IfSome result (λ c. WasRead c.now) }
    {
        self.read.as_ref()
    }

    /// Takes bytes up to the end of the checkpoint that has begun: all of the piece, or those up to its last byte, and none while a whole
    /// checkpoint stands. Answers how many. Memory is taken only for records whose bytes came.
    ///
    /// # Errors
    ///
    /// [`StreamError::Malformed`] with the offset of the unit that breaks its rule, counted modulo 2^64 from the first byte that was ever
    /// fed, from the call that takes the unit's last byte, and from every later one. [`StreamError::NoMemory`] where a growth was really
    /// refused: the backup is as before the call.
    pub fn feed(&mut self, bytes: &[u8]) -> Result<usize, StreamError>
        ensures stands { IsSome self.old.read → (result ≡ Ok 0) × (self.new ≡ self.old) }
        ensures feeds { self.old.read ≡ None → Feeds self.old bytes.now result self.new }
        ensures within { IfOk result (λ count. count ≤ length bytes.now) }
        ensures some { self.old.read ≡ None → is_closed self.old.reading.place ≡ false → 0 < length bytes.now
            → IfOk result (λ count. 0 < count) }
    {
        if self.read.is_some() {
            return Ok(0);
        }
        byte_widths(bytes);
        read_is_its_text();
        let count = self.reader.feed(bytes)?;
        self.read = self.reader.next();
        Ok(count)
    }

    /// Sees all that the seat had seen which told it, beside all that its own had seen.
    pub(crate) fn learn(&mut self, badge: &mut Badge<P>)
        ensures hears { Hears P.start badge.old self.old self.new }
        ensures badge { badge.new ≡ badge.old }
    {
        members_go_on();
        let shared = &*self.shared;
        self.seat.learn(shared.clock(), badge);
    }

    /// Sees all the steps that were made, at the book, which is lent to it.
    pub(crate) fn look(&mut self, book: &mut Book<P>, clock: &Clock<P>)
        ensures same { book.new ≡ book.old }
        ensures seen { HasSeen P.start book.old.steps self.old self.new }
    {
        members_go_on();
        book.show(clock, &mut self.seat);
    }

    /// Reads the checkpoint of this packet whole, in the place of what was read before; what came by [`feed`](Backup::feed) since stands.
    /// Answers whether there is one: none where the text isn't a whole checkpoint, of the packet's generation and number.
    ///
    /// # Errors
    ///
    /// [`StreamError::Malformed`] with the offset of the unit that breaks its rule, and [`StreamError::NoMemory`] where a growth was really
    /// refused: the backup is as before.
    pub(crate) fn read_packet(
        &mut self,
        alloc: Global,
        packet: &TextPacket,
    ) -> Result<bool, StreamError>
        ensures answers { AnswersPacket self.old.image.shape packet.now result }
        ensures after { AfterPacket packet.now result self.old self.new }
    {
        self.read = read_whole(alloc, self.image.shape(), packet)?;
        Ok(self.read.is_some())
    }

    /// Commits the checkpoint that was read whole. Where it is the next one its epoch enters the history, and then the image takes it in,
    /// with no lock held: the image then is the checkpoint read over the image before. An earlier one changes nothing, but its seat has seen
    /// all steps. In both cases what was read is given up. Answers the acknowledgement: of the next one, or of the last one that was
    /// committed, at which the image stands. It takes no memory but room in the history.
    ///
    /// # Errors
    ///
    /// In this order: [`Refusal::OldVersion`] for a delta of version 1; [`Refusal::Stopped`] where this backup isn't the live one, or a
    /// node is alone; [`Refusal::Stale`] for another generation, and where none was read; [`Refusal::Gap`] beyond the next number, and
    /// where nothing is sealed under it; [`Refusal::Exhausted`] where the word would reach 2^62, and last where the number of the
    /// checkpoint's last frame, as the image counts them, would. [`Refusal::NoMemory`] where the room in the history can't be had. What was
    /// read is given up at `OldVersion`, `Stale` and `Gap`, since it can't be committed any more, and stands at the others; all else is as
    /// before.
    pub fn commit<R: Wait>(&mut self, rt: &R) -> Result<Ack, Refusal>
        ensures some { OnOk result (IsSome self.old.read) }
        ensures done { IfOk result (λ ack. IfSome self.old.read (λ c. Commits P.start c ack self.old self.new)) }
        ensures why { IfErr result (MayRefuseCommit self.old.read) }
        ensures refused { IfErr result (λ why. AfterRefusedCommit why self.old self.new) }
    {
        let answer = {
            let shared = &*self.shared;
            let mut held = shared.lock(rt);
            commit(
                &mut *held,
                shared.clock(),
                &mut self.seat,
                &self.image,
                self.read.as_ref(),
            )
        };
        // What was read is given up by calls: else the proof would go over every part of it here.
        match answer {
            Ok(Committed { ack, is_next }) => {
                take_in(is_next, &mut self.image, &mut self.read);
                Ok(ack)
            }
            Err(why) => {
                give_up(&why, &mut self.read);
                Err(why)
            }
        }
    }

    /// The backup goes live, as [`Warden::go_live`](crate::Warden::go_live) says.
    pub(crate) fn go_live<R: Wait>(
        self,
        rt: &R,
        alloc: Global,
    ) -> Result<Runner<P>, (Backup<P>, Refusal)>
        ensures live { IfOk result (BecomesLive P.start self) }
        ensures back { IfErr result (λ refused. refused.0 ≡ self) }
        ensures why { IfErr result (λ refused. Contains live_refusals refused.1) }
    {
        let Backup {
            shared,
            image,
            reader,
            read,
            mut seat,
        } = self;
        match goes_live(rt, &shared, &mut seat, &image) {
            Ok(runner) => {
                // All that only a backup has is let go, by calls: else the proof would go over every part of it here.
                drop(reader);
                drop(read);
                drop(seat);
                Ok(resumed(alloc, shared, image, runner))
            }
            Err(why) => Err((
                Backup {
                    shared,
                    image,
                    reader,
                    read,
                    seat,
                },
                why,
            )),
        }
    }
}

/// The checkpoint of this packet, of that shape; `None` where its text isn't a whole one, of the packet's generation and number.
///
/// # Errors
///
/// [`StreamError::Malformed`] with the offset of the unit that breaks its rule, and [`StreamError::NoMemory`] where a growth was really
/// refused.
fn read_whole(
    alloc: Global,
    shape: Shape,
    packet: &TextPacket,
) -> Result<Option<Checkpoint>, StreamError>
    ensures { ReadsWhole shape packet.now result }
{
    read_is_its_text();
    let bytes = packet.bytes();
    byte_widths(bytes);
    let mut reader = Reader::new(alloc, shape);
    let count = reader.feed(bytes)?;
    let Some(checkpoint) = reader.next() else {
        return Ok(None);
    };
    if !is_all_of(count, &checkpoint, packet) {
        return Ok(None);
    }
    Ok(Some(checkpoint))
}

/// Whether so many bytes are all of the packet's, and this checkpoint has its generation and number.
fn is_all_of(count: usize, checkpoint: &Checkpoint, packet: &TextPacket) -> bool
    ensures value { result ≡ is_all_of count checkpoint.now packet.now }
    ensures all { result ≡ true → length packet.now.text ≤ count }
    ensures generation { result ≡ true → checkpoint.now.generation ≡ packet.now.generation }
    ensures number { result ≡ true → checkpoint.now.number ≡ packet.now.number }
{
    count >= packet.bytes().len()
        && checkpoint.generation() == packet.generation()
        && checkpoint.number() == packet.number()
}

/// The backup of this seat and this image goes live at the book.
fn goes_live<P: Pair, R: Wait>(
    rt: &R,
    shared: &Shared<P>,
    seat: &mut BackupSeat<P>,
    image: &Image,
) -> Result<RunnerSeat<P>, Refusal>
    requires stands { ImageStands P.start seat.old image.now }
    ensures live { IfOk result (GoesLiveWith P.start image.now seat.old) }
    ensures why { IfErr result (Contains live_refusals) }
    ensures refused { OnErr result (seat.new ≡ seat.old) }
{
    // The texts that were pending are given back after the lock.
    let (answer, _texts) = {
        let mut held = shared.lock(rt);
        let texts = held.keep_texts();
        let answer = go_live(&mut *held, shared.clock(), seat, image);
        (answer, texts)
    };
    answer
}

/// The runner that goes on with this image's guest.
fn resumed<P: Pair>(
    alloc: Global,
    shared: Arc<Shared<P>>,
    image: Image,
    seat: RunnerSeat<P>,
) -> Runner<P>
    requires some { IsSome image.stands_at }
    requires shape { IsShape P.start image.shape }
    requires runs { Runs P.start seat (settled_runner image.guest []) }
    ensures { result ≡ new_runner (settled_machine image.shape image.guest) seat }
{
    match image.resume() {
        Ok(Resumed { machine, kept }) => {
            drop(kept);
            Runner::new(alloc, shared, machine, seat)
        }
        Err(_) => unreachable!(),
    }
}

/// What was read is given up where it can't be committed any more after this refusal of its commit.
fn give_up(why: &Refusal, read: &mut Option<Checkpoint>)
    ensures { read.new ≡ read_after_refusal (gives_up why.now) read.old }
{
    if matches!(why, Refusal::OldVersion | Refusal::Stale | Refusal::Gap) {
        *read = None;
    }
}

/// Each byte is below 256.
fn byte_widths(bytes: &[u8])
    ensures { All (λ b. b < 256) bytes.now }
{}
