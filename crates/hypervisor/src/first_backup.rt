//! The first backup of a pair, where nothing but what was sealed comes to it.
ghost use Rattle.std.specs.Prelude.{◌≡◌, None, IfOk, OnOk, IfErr, IfSome, IsSome};
ghost use Rattle.growing_history.specs.LogState.{first_backup};
ghost use Rattle.hypervisor.specs.Commits.{Commits, MayRefuseCommit, AfterRefusedCommit};
ghost use Rattle.growing_history.specs.FirstGeneration.{AreUnmarked};
ghost use Rattle.hypervisor.specs.FirstBackups.{AfterPacket, AnswersPacket, HasSeen, Hears, IsOfShape, IsReadOrNoMemory, with_seat};
ghost use Rattle.hypervisor.specs.Opening.{unseen};

use crate::backup::Backup;
use crate::sealed_packet::SealedPacket;
use checkpoint_stream::StreamError;
use growing_history::{Clock, Pair, sealed_commits_make_no_mark};
use pair_book::{Ack, Book, Refusal};
use std::alloc::Global;
use std::marker::Model;
use std::sync::Wait;

/// The first backup of a pair, which reads and commits nothing but packets of texts that were sealed. So no commit of the first generation
/// is marked in what its seat has seen, and nobody else commits in that. Contracts see it as they see a [`Backup`].
pub struct FirstBackup<P: Pair> {
    backup: Backup<P>,
}

// Proved here, and not in each crate above that keeps one in a `Box` or an `Option`.
impl<P: Pair> Drop for FirstBackup<P> {
    fn drop(self) {
        let FirstBackup { backup: _ } = self;
    }
}

impl<P: Pair> Model for FirstBackup<P> {
    ghost use Rattle.hypervisor.specs.Backups.{BackupState};
    ghost use Rattle.hypervisor.specs.FirstBackups.{IsFirstBackup};

    ghost Value = { BackupState };

    ghost view = { λ f. f.backup };

    ghost invariant = { λ f. IsFirstBackup P.start f.backup };
}

impl<P: Pair> FirstBackup<P> {
    /// The first backup, as a pair begins with it.
    pub fn of(backup: Backup<P>) -> FirstBackup<P>
        requires seat { backup.seat ≡ unseen first_backup }
        requires read { backup.read ≡ None }
        ensures { result ≡ backup }
    {
        sealed_commits_make_no_mark();
        FirstBackup { backup }
    }

    /// The backup. No commit of the first generation is marked in what its seat has seen.
    pub fn backup(&self) -> &Backup<P>
        ensures value { result.now ≡ self.now }
        ensures unmarked { AreUnmarked P.start self.now.seat.steps }
    {
        &self.backup
    }

    /// Reads the checkpoint of this packet whole, in the place of what was read before, with no lock held; its seat has then seen that the
    /// text was sealed. Answers whether there is one: none where the text isn't a whole checkpoint, of the packet's generation and number.
    /// A text that was sealed is one, for a reader of its shape.
    ///
    /// # Errors
    ///
    /// [`StreamError::Malformed`] with the offset of the unit that breaks its rule, as that of another shape does;
    /// [`StreamError::NoMemory`] where a growth was really refused. What was read stands then.
    pub fn read(&mut self, alloc: Global, sealed: &mut SealedPacket<P>) -> Result<bool, StreamError>
        ensures answers { AnswersPacket self.old.image.shape sealed.old.packet result }
        ensures after { AfterPacket sealed.old.packet result (with_seat self.old self.new) self.new }
        ensures hears { Hears P.start sealed.old.seen self.old (with_seat self.old self.new) }
        ensures packet { sealed.new ≡ sealed.old }
        // A checkpoint of the pair's shape is read wherever there is memory.
        ensures read { IsOfShape self.old.image.shape sealed.old.packet → IsReadOrNoMemory result }
    {
        sealed_commits_make_no_mark();
        self.backup.learn(&mut sealed.badge);
        self.backup.read_packet(alloc, &sealed.packet)
    }

    /// Commits the checkpoint that was read whole, as [`Backup::commit`] says.
    ///
    /// # Errors
    ///
    /// Those of `Backup::commit`.
    pub fn commit<R: Wait>(&mut self, rt: &R) -> Result<Ack, Refusal>
        ensures some { OnOk result (IsSome self.old.read) }
        ensures done { IfOk result (λ ack. IfSome self.old.read (λ c. Commits P.start c ack self.old self.new)) }
        ensures why { IfErr result (MayRefuseCommit self.old.read) }
        ensures refused { IfErr result (λ why. AfterRefusedCommit why self.old self.new) }
    {
        sealed_commits_make_no_mark();
        self.backup.commit(rt)
    }

    /// Sees all the steps that were made, at the book, which is lent to it.
    pub(crate) fn look(&mut self, book: &mut Book<P>, clock: &Clock<P>)
        ensures same { book.new ≡ book.old }
        ensures seen { HasSeen P.start book.old.steps self.old self.new }
        ensures unmarked { AreUnmarked P.start book.old.steps }
    {
        sealed_commits_make_no_mark();
        self.backup.look(book, clock);
    }
}
