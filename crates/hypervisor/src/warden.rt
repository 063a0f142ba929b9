//! Failures of nodes, and what comes after them.
ghost use Rattle.std.specs.Prelude.{◌≡◌, ◌+◌, ◌++◌, ◌∷◌, [], None, Some, IfOk, OnOk, IfErr, OnErr};
ghost use Rattle.std.specs.List.{Contains};
ghost use Rattle.backup_image.specs.Images.{empty_image};
ghost use Rattle.pair_record.specs.EpochActs.{fail_within_done};
ghost use Rattle.pair_record.specs.declared.event.Reply.TheVariants as replies;
ghost use Rattle.pair_record.specs.Protocol.{fail_primary_done, begin_done};
ghost use Rattle.pair_record.specs.Record.{ports_after_all};
ghost use Rattle.pair_book.specs.Calls.{IsWhy};
ghost use Rattle.pair_book.specs.Failures.{MakesAlone, fail_primary_why, fail_backup_why, protect_why};
ghost use Rattle.pair_book.specs.Packets.{no_texts};
ghost use Rattle.hypervisor.specs.Failures.{IsProtected};
ghost use Rattle.hypervisor.specs.GoingLive.{BecomesLive, live_refusals};
ghost use Rattle.hypervisor.specs.FirstBackups.{FindFirstGeneration, FindLaterGeneration};
ghost use Rattle.hypervisor.specs.Looking.{HaveLooked};
ghost use Rattle.hypervisor.specs.declared.looking.Found.{Found};
ghost use Rattle.hypervisor.specs.Refusals.{fail_refusals, protect_refusals};
ghost use Rattle.hypervisor.specs.Seats.{SeesLast};
ghost use Rattle.growing_history.specs.Steps.{PrimaryFailed, BackupFailed, Protected, step};
ghost use Rattle.pair_book.specs.Made.{IsShape};

use crate::backup::Backup;
use crate::clients::Client;
use crate::first_backup::FirstBackup;
use crate::looking::{Found, LaterGeneration, look, look_beside};
use crate::runner::Runner;
use crate::seats::keep_seat;
use crate::shared::Shared;
use backup_image::{Image, ImageError};
use growing_history::{BackupSeat, Clock, Pair};
use guest_machine::Shape;
use memory_wanted::MemoryWanted;
use pair_book::{Book, LandedCount, Refusal, members_begin};
use std::alloc::Global;
use std::marker::Model;
use std::sync::{Arc, Wait};

/// One of the two nodes of a pair.
#[derive(Clone, Copy)]
pub enum Node {
    Primary,
    Backup,
}

/// Who says which node has failed, makes a backup go live, and gives a node that is alone a new one. It has no seat: what else its calls
/// do is said at the book, by [`Book::fail_primary`], [`Book::fail_backup`], [`Book::go_live`] and [`Book::protect`].
/// Contracts see the pair's shape.
pub struct Warden<P: Pair> {
    alloc: Global,
    shared: Arc<Shared<P>>,
    shape: Shape,
}

// Proved here, and not in each crate above that keeps one in a `Box` or an `Option`.
impl<P: Pair> Drop for Warden<P> {
    fn drop(self) {
        let Warden {
            alloc: _,
            shared: _,
            shape: _,
        } = self;
    }
}

impl<P: Pair> Model for Warden<P> {
    ghost use Rattle.guest_rules.specs.declared.shapes.Shape.{Shape};
    ghost use Rattle.pair_book.specs.Made.{IsShape};

    ghost Value = { Shape };

    ghost view = { λ w. w.shape };

    ghost invariant = { λ w. IsShape P.start w.shape };
}

/// As [`Book::fail_primary`] says.
fn fail_primary<P: Pair>(book: &mut Book<P>, clock: &Clock<P>) -> Result<(), Refusal>
    ensures among { IfErr result (Contains (fail_refusals Node.Primary)) }
    ensures done { OnOk result ((replies.Stopped, book.new.protocol) ≡ fail_primary_done book.old.protocol) }
    ensures ports { OnOk result (book.new.ports ≡ book.old.ports) }
    ensures texts { book.new.texts ≡ book.old.texts }
    ensures step { OnOk result (MakesAlone PrimaryFailed book.old book.new) }
    ensures free { OnOk result (fail_primary_why book.old ≡ None) }
    ensures why { IfErr result (λ why. fail_primary_why book.old ≡ Some why) }
    ensures refused { OnErr result (book.new ≡ book.old) }
{
    book.fail_primary(clock)
}

/// As [`Book::fail_backup`] says.
fn fail_backup<P: Pair>(book: &mut Book<P>, clock: &Clock<P>) -> Result<LandedCount, Refusal>
    ensures among { IfErr result (Contains (fail_refusals Node.Backup)) }
    ensures done { IfOk result (λ landed. (replies.Alone book.old.protocol.generation landed.count, book.new.protocol)
        ≡ fail_within_done book.old.ports.boxes book.old.protocol) }
    ensures ports { OnOk result (book.new.ports ≡ ports_after_all book.old.ports [] book.old.protocol) }
    ensures texts { OnOk result (book.new.texts ≡ no_texts) }
    ensures step { OnOk result (MakesAlone BackupFailed book.old book.new) }
    ensures free { OnOk result (fail_backup_why book.old ≡ None) }
    ensures why { IfErr result (IsWhy (fail_backup_why book.old)) }
    ensures refused { OnErr result (book.new ≡ book.old) }
{
    book.fail_backup(clock)
}

/// As [`Book::protect`] says.
fn protect<P: Pair>(book: &mut Book<P>, clock: &Clock<P>) -> Result<BackupSeat<P>, Refusal>
    ensures seat { IfOk result (λ seat. SeesLast P.start (Protected seat.number) seat.steps) }
    ensures why { IfErr result (Contains protect_refusals) }
    ensures done { OnOk result ((replies.Protecting (book.old.protocol.generation + 1), book.new.protocol)
        ≡ begin_done book.old.protocol) }
    ensures ports { OnOk result (book.new.ports ≡ book.old.ports) }
    ensures texts { OnOk result (book.new.texts ≡ no_texts) }
    ensures step { OnOk result (book.new.steps ≡ book.old.steps ++ step 0 (Protected (book.old.enrolled + 1)) ∷ []) }
    ensures enrolled { OnOk result (book.new.enrolled ≡ book.old.enrolled + 1) }
    ensures seated { IfOk result (λ seat. seat ≡ record { number = book.new.enrolled; steps = book.new.steps }) }
    ensures free { OnOk result (protect_why book.old ≡ None) }
    ensures row { IfErr result (λ why. protect_why book.old ≡ Some why) }
    ensures refused { OnErr result (book.new ≡ book.old) }
{
    let seat = book.protect(clock)?;
    keep_seat(&seat);
    Ok(seat)
}

/// The image of a new backup.
fn empty_image(alloc: Global, shape: Shape) -> Result<Image, MemoryWanted>
    ensures { IfOk result (λ image. image ≡ empty_image shape) }
{
    match Image::empty(alloc, shape) {
        Ok(image) => Ok(image),
        Err(ImageError::NoMemory(wanted)) => Err(wanted),
        Err(_) => unreachable!(),
    }
}

impl<P: Pair> Warden<P> {
    pub(crate) fn of(alloc: Global, shared: Arc<Shared<P>>, shape: Shape) -> Warden<P>
        requires { IsShape P.start shape }
        ensures { result ≡ shape }
    {
        Warden {
            alloc,
            shared,
            shape,
        }
    }

    /// This node stops, for good. Where it is the primary nothing else changes, until the backup goes live. Where it is the backup the
    /// primary goes on alone: sealed epochs enter the history, and what is held lands. Answers what landed: nothing where the primary
    /// fails.
    ///
    /// # Errors
    ///
    /// [`Refusal::Stopped`] where the primary has stopped already. Where a node is alone [`Refusal::NoImage`] for the primary, also where
    /// its backup has no image yet, and [`Refusal::NotPaired`] for the backup. [`Refusal::Exhausted`] where the history with what is kept,
    /// or the word, would reach 2^62. [`Refusal::NoMemory`] where the backup fails and the room in the history can't be had. Nothing has
    /// changed then.
    pub fn fail<R: Wait>(&mut self, rt: &R, node: Node) -> Result<LandedCount, Refusal>
        ensures landed { IfOk result (λ landed. node ≡ Node.Primary → landed.count ≡ 0) }
        ensures why { IfErr result (Contains (fail_refusals node)) }
    {
        let shared = &*self.shared;
        match node {
            Node::Primary => {
                let mut held = shared.lock(rt);
                fail_primary(&mut *held, shared.clock())?;
                Ok(LandedCount { count: 0 })
            }
            Node::Backup => {
                // The texts that were pending are given back after the lock.
                let (answer, _texts) = {
                    let mut held = shared.lock(rt);
                    let texts = held.keep_texts();
                    (fail_backup(&mut *held, shared.clock()), texts)
                };
                answer
            }
        }
    }

    /// The primary has stopped, and this backup goes on alone, in the next generation, as the runner of its image's guest: what it read
    /// and didn't commit is let go, and of the frames that its image keeps those land that haven't come yet. The machine is made of the
    /// image after the lock was let go of; no page or frame is copied, and it takes no memory but room in the history.
    ///
    /// # Errors
    ///
    /// In this order: [`Refusal::NotPaired`] where a node is alone; [`Refusal::AlreadyPaired`] where the primary hasn't stopped;
    /// [`Refusal::Stopped`] where this backup isn't the live one; [`Refusal::Exhausted`] where the generation's number, the history or the
    /// word would reach 2^62. [`Refusal::NoMemory`] where the room in the history can't be had. Nothing has changed then, and the backup is
    /// handed back as it was.
    pub fn go_live<R: Wait>(
        &mut self,
        rt: &R,
        backup: Backup<P>,
    ) -> Result<Runner<P>, (Backup<P>, Refusal)>
        ensures live { IfOk result (BecomesLive P.start backup) }
        ensures back { IfErr result (λ refused. refused.0 ≡ backup) }
        ensures why { IfErr result (λ refused. Contains live_refusals refused.1) }
        ensures same { self.new ≡ self.old }
    {
        backup.go_live(rt, self.alloc)
    }

    /// The node that is alone gets a new backup: in the next generation, whose first checkpoint is a full one. The backup has an empty
    /// image, whose memory is taken before the lock is.
    ///
    /// # Errors
    ///
    /// In this order: [`Refusal::Exhausted`] where there are as many members as can be counted; [`Refusal::NoMemory`] where that memory
    /// can't be had; [`Refusal::Stopped`] where the primary has stopped; [`Refusal::AlreadyPaired`] where there is a backup;
    /// [`Refusal::Exhausted`] where the generation's number, or the word, would reach 2^62. Nothing has changed then.
    pub fn protect<R: Wait>(&mut self, rt: &R) -> Result<Backup<P>, Refusal>
        ensures backup { IfOk result (IsProtected P.start) }
        ensures why { IfErr result (Contains protect_refusals) }
        ensures same { self.new ≡ self.old }
    {
        members_begin();
        let Ok(shared) = Arc::try_clone(&self.shared) else {
            return Err(Refusal::Exhausted);
        };
        let image = match empty_image(self.alloc, self.shape) {
            Ok(image) => image,
            Err(wanted) => return Err(Refusal::NoMemory(wanted)),
        };
        let seat = {
            let mut held = shared.lock(rt);
            protect(&mut *held, shared.clock())
        };
        match seat {
            Ok(seat) => Ok(Backup::new(self.alloc, shared, image, seat)),
            Err(why) => {
                // By a call: else the proof would go over every part of it here.
                drop(image);
                Err(why)
            }
        }
    }

    /// How far the pair has come. These clients look: each of them has then seen the one list of all the steps that were made, whose
    /// history has the length that is answered, and in which its own entries are as before.
    pub fn look<R: Wait>(&self, rt: &R, clients: &mut Vec<Client<P>>) -> Found
        ensures looked { HaveLooked P.start result clients.old.items clients.new.items }
    {
        let shared = &*self.shared;
        let mut held = shared.lock(rt);
        look(&mut *held, shared.clock(), clients)
    }

    /// As [`look`](Warden::look), and the first backup looks too, in the pair's first generation. It has committed nothing but what was
    /// sealed: so no commit is marked, and the history is that of one guest that never fails.
    ///
    /// # Errors
    ///
    /// [`LaterGeneration`] where a node has failed, and the pair is in a later generation. They have all looked then too.
    pub fn look_beside<R: Wait>(
        &self,
        rt: &R,
        clients: &mut Vec<Client<P>>,
        backup: &mut FirstBackup<P>,
    ) -> Result<Found, LaterGeneration>
        ensures first { IfOk result (λ found.
            FindFirstGeneration P.start found clients.old.items clients.new.items backup.old backup.new) }
        ensures later { IfErr result (λ generation.
            FindLaterGeneration P.start generation clients.old.items clients.new.items backup.old backup.new) }
    {
        let shared = &*self.shared;
        let mut held = shared.lock(rt);
        look_beside(&mut *held, shared.clock(), clients, backup)
    }

    /// The length of the history.
    pub fn entries<R: Wait>(&self, rt: &R) -> u64
        ensures { (found : Found) × HaveLooked P.start found [] [] × (result ≡ found.entries) }
    {
        self.look(rt, &mut Vec::new(self.alloc)).entries
    }
}
