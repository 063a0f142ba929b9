//! The members of a pair, with what they have outside its book, and their calls.
ghost use Rattle.std.specs.Prelude.{◌≡◌, [], IfOk, IfSome};
ghost use Rattle.pair_book.specs.Calls.{IsClientSeat};
ghost use Rattle.pair_book.specs.Made.{IsPrepared};

use crate::answers::{acknowledged, number, taken};
use crate::prepared::SettledMachine;
use crate::rows::Answer;
use epoch_snapshot::Checkpoint;
use frame_list::FrameList;
use growing_history::{BackupSeat, ClientSeat, Clock, Pair, RunnerSeat};
use pair_book::{Book, NewBook, OpenEpoch, Prepared, Refusal, Want, runners_bring_what_they_have};
use pair_history::Frame;
use std::alloc::Global;
use std::marker::Model;
use std::test::Fail;

/// The seat of the next client that has none yet.
pub(crate) fn next_client<P: Pair>(
    book: &mut NewBook<P>,
    clock: &Clock<P>,
) -> Result<ClientSeat<P>, Fail>
    ensures { IfOk result (λ seat. IsClientSeat P.start seat.number) }
{
    match book.next_client(clock) {
        Some(seat) => Ok(seat),
        None => Err("one more client".into()),
    }
}

/// One of the pair's clients.
#[derive(Drop)]
pub(crate) struct Client<P: Pair> {
    seat: ClientSeat<P>,
}

impl<P: Pair> Model for Client<P> {
    ghost use Rattle.growing_history.specs.Views.{Member};
    ghost use Rattle.pair_book.specs.Calls.{IsClientSeat};

    ghost Value = { Member };

    ghost view = { λ c. c.seat };

    ghost invariant = { λ c. IsClientSeat P.start c.seat.number };
}

/// The first client and the second.
pub(crate) fn two_clients<P: Pair>(
    book: &mut NewBook<P>,
    clock: &Clock<P>,
) -> Result<(Client<P>, Client<P>), Fail> {
    let first = next_client(book, clock)?;
    let second = next_client(book, clock)?;
    Ok((Client { seat: first }, Client { seat: second }))
}

impl<P: Pair> Client<P> {
    pub(crate) fn number(&self) -> u64 {
        self.seat.number()
    }

    /// How many steps the keeper has made.
    pub(crate) fn look(&mut self, clock: &Clock<P>) -> u64 {
        self.seat.look(clock)
    }

    pub(crate) fn deliver(
        &mut self,
        clock: &Clock<P>,
        book: &mut Book<P>,
        bytes: &[u8],
    ) -> Result<Answer, Refusal> {
        Ok(Answer::Number(book.deliver(clock, &mut self.seat, bytes)?))
    }

    pub(crate) fn take(&mut self, clock: &Clock<P>, book: &mut Book<P>) -> Result<Answer, Refusal> {
        let mut frame = Frame::new();
        let is_some = book.take(clock, &mut self.seat, &mut frame)?;
        Ok(taken(is_some, &frame))
    }
}

/// The first runner, whose machine has made no step since its last epoch. Contracts see its seat.
#[derive(Drop)]
pub(crate) struct Runner<P: Pair> {
    pub(crate) seat: RunnerSeat<P>,
    pub(crate) machine: SettledMachine,
}

impl<P: Pair> Model for Runner<P> {
    ghost use Rattle.std.specs.Prelude.{ℕ, List};
    ghost use Rattle.pair_history.specs.Entries.{Frame};
    ghost use Rattle.growing_history.specs.Views.{Member};
    ghost use Rattle.pair_book.specs.Settled.{Runs, settled_runner};
    ghost use Rattle.book_tests.specs.Machines.{IsLike};

    ghost Value = { Member };

    ghost view = { λ r. r.seat };

    // It holds some of the frames that were handed out to it.
    ghost invariant = { λ r. IsLike P.start r.machine × (held : List (ℕ × Frame)) × Runs P.start r.seat (settled_runner r.machine held) };
}

impl<P: Pair> Runner<P> {
    pub(crate) fn number(&self) -> u64 {
        self.seat.number()
    }

    pub(crate) fn ask(&self, book: &Book<P>) -> Result<Want, Refusal> {
        book.ask(&self.seat)
    }

    /// The checkpoint of its machine of this generation and number.
    pub(crate) fn checkpoint(
        &self,
        alloc: Global,
        generation: u64,
        number: u64,
    ) -> Option<Box<Checkpoint>> {
        self.machine.checkpoint(alloc, generation, number)
    }

    /// Its first delta of generation 1, in version 1.
    pub(crate) fn old_delta(&self, alloc: Global) -> Option<Box<Checkpoint>> {
        self.machine.old_delta(alloc)
    }

    /// The same as [`Runner::checkpoint`], as it is prepared.
    fn prepared(&self, alloc: Global, generation: u64, number: u64) -> Option<Prepared>
        ensures { IfSome result (IsPrepared P.start self.now 0 0 []) }
    {
        runners_bring_what_they_have();
        let packet = self.machine.packet(alloc, generation, number)?;
        Some(Prepared::Checkpoint(packet))
    }

    /// It submits this, with an epoch of no arrival and no step. Answers the number of the first frame that it is handed.
    fn submit(
        &mut self,
        alloc: Global,
        clock: &Clock<P>,
        book: &mut Book<P>,
        what: &Prepared,
    ) -> Result<Answer, Refusal>
        requires { IsPrepared P.start self.old 0 0 [] what.now }
    {
        runners_bring_what_they_have();
        let epoch = OpenEpoch {
            arrivals: 0,
            steps: 0,
        };
        let next = book.submit(alloc, clock, &mut self.seat, epoch, &[], what)?;
        Ok(number(next.frames.first().map(|given| given.0)))
    }

    /// It submits such an epoch with the checkpoint of this generation and number.
    pub(crate) fn submit_checkpoint(
        &mut self,
        alloc: Global,
        clock: &Clock<P>,
        book: &mut Book<P>,
        generation: u64,
        number: u64,
    ) -> Result<Answer, Refusal> {
        match self.prepared(alloc, generation, number) {
            Some(what) => self.submit(alloc, clock, book, &what),
            None => Ok(Answer::NotMade),
        }
    }

    /// And with none.
    pub(crate) fn submit_none(
        &mut self,
        alloc: Global,
        clock: &Clock<P>,
        book: &mut Book<P>,
    ) -> Result<Answer, Refusal> {
        self.submit(alloc, clock, book, &Prepared::Nothing)
    }
}

/// The first backup.
#[derive(Drop)]
pub(crate) struct Backup<P: Pair> {
    pub(crate) seat: BackupSeat<P>,
    /// Whether it isn't live, and has kept [`Backup::kept`].
    pub(crate) may_go_live: bool,
    /// The frames of its commits.
    pub(crate) kept: Vec<FrameList>,
}

impl<P: Pair> Model for Backup<P> {
    ghost use Rattle.std.specs.Prelude.{◌≡◌, ℕ, true, map, All};
    ghost use Rattle.frame_ports.specs.Addresses.{IsFrame};
    ghost use Rattle.growing_history.specs.Views.{Member};
    ghost use Rattle.pair_book.specs.Standing.{KeepsFrames};

    ghost Value = { Member };

    ghost view = { λ b. b.seat };

    ghost invariant = { λ b. All (λ v. All IsFrame v.items) b.kept.items
        × (b.may_go_live ≡ true → (sent : ℕ) × KeepsFrames P.start b.seat sent 1 (map (λ v. v.items) b.kept.items)) };
}

impl<P: Pair> Backup<P> {
    pub(crate) fn number(&self) -> u64 {
        self.seat.number()
    }

    /// Why it could commit nothing, where it has read nothing.
    pub(crate) fn foresee(&self, book: &Book<P>) -> Option<Refusal> {
        book.commit_refusal(&self.seat, None)
    }

    pub(crate) fn commit(
        &mut self,
        clock: &Clock<P>,
        book: &mut Book<P>,
        read: Option<&Checkpoint>,
    ) -> Result<Answer, Refusal> {
        self.may_go_live = false;
        Ok(acknowledged(book.commit(clock, &mut self.seat, read)?))
    }

    /// It is to go live, and hands over what it has kept. Answers its runner's seat; none where the call isn't made.
    pub(crate) fn go_live(
        &mut self,
        clock: &Clock<P>,
        book: &mut Book<P>,
    ) -> Result<Option<RunnerSeat<P>>, Refusal> {
        if !self.may_go_live {
            return Ok(None);
        }
        let runner = book.go_live(clock, &mut self.seat, 1, self.kept.as_slice())?;
        self.may_go_live = false;
        Ok(Some(runner))
    }
}
