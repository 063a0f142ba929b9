//! A pair's book, and its members. Each call of a row is a small method here.
ghost use Rattle.std.specs.Prelude.{◌≡◌, ℕ, List, [], map, All, IfOk};
ghost use Rattle.frame_ports.specs.Addresses.{IsFrame};
ghost use Rattle.pair_history.specs.Entries.{Frame};
ghost use Rattle.pair_history.specs.HistoryState.{start_state};
ghost use Rattle.growing_history.specs.LogState.{first_runner, first_backup};
ghost use Rattle.pair_book.specs.Opening.{IsBoot};
ghost use Rattle.pair_book.specs.Settled.{Runs, settled_runner};
ghost use Rattle.pair_book.specs.Standing.{KeepsFrames};
ghost use Rattle.book_tests.specs.Machines.{IsLike};

use crate::answers::{acknowledged, number, wanted};
use crate::members::{Backup, Client, Runner, two_clients};
use crate::prepared::SettledMachine;
use crate::rows::{Answer, By, Call, Read, Shown};
use epoch_snapshot::Checkpoint;
use frame_list::FrameList;
use growing_history::{BackupSeat, Clock, Pair, RunnerSeat};
use pair_book::{Ack, Book, LineSeat, Members, Refusal, UnnamedBook, members_begin};
use std::alloc::Global;
use std::test::Fail;

/// A frame from client 1 to the guest.
pub(crate) const FRAME: [u8; 14] = [2, 0, 0, 0, 0, 1, 2, 0, 0, 0, 1, 1, 0x88, 0xb5];

/// A book of two clients, and the members that call it.
#[derive(Drop)]
pub(crate) struct Host<P: Pair> {
    pub(crate) alloc: Global,
    pub(crate) clock: Clock<P>,
    pub(crate) book: Book<P>,
    pub(crate) first: Client<P>,
    pub(crate) second: Client<P>,
    pub(crate) line: LineSeat<P>,
    pub(crate) runner: Runner<P>,
    pub(crate) backup: Backup<P>,
    /// The backup that came last, of those that came later.
    pub(crate) new_backup: Option<BackupSeat<P>>,
    /// The runner of the first backup's guest.
    pub(crate) new_runner: Option<RunnerSeat<P>>,
}

/// A pair at its start: its book, and the seats that call it.
#[derive(Drop)]
pub(crate) struct Seated<P: Pair> {
    pub(crate) clock: Clock<P>,
    pub(crate) book: Book<P>,
    pub(crate) first: Client<P>,
    pub(crate) second: Client<P>,
    pub(crate) line: LineSeat<P>,
    pub(crate) runner: RunnerSeat<P>,
    pub(crate) backup: BackupSeat<P>,
}

/// The pair is named and opened. It stands in a box, since a function that keeps it in a local is slow to prove.
pub(crate) fn seat_all<P: Pair>(alloc: Global, book: UnnamedBook) -> Result<Box<Seated<P>>, Fail>
    requires word { book.word ≡ P.word }
    requires start { IsBoot P.start book.clients }
    ensures runner { IfOk result (λ s. s.value.runner ≡ record { number = first_runner; steps = [] }) }
    ensures backup { IfOk result (λ s. s.value.backup ≡ record { number = first_backup; steps = [] }) }
{
    let Members {
        clock,
        mut book,
        runner,
        backup,
        line,
    } = book.named::<P>();
    let (first, second) = two_clients(&mut book, &clock)?;
    let seated = Seated {
        book: book.open(&clock),
        clock,
        first,
        second,
        line,
        runner,
        backup,
    };
    Ok(Box::new(alloc, seated)?)
}

/// The host of the pair, whose runner has this machine, and whose first backup has kept these frames.
pub(crate) fn host_of<P: Pair>(
    alloc: Global,
    seated: Box<Seated<P>>,
    machine: SettledMachine,
    kept: Vec<FrameList>,
) -> Result<Box<Host<P>>, Fail>
    requires like { IsLike P.start machine }
    requires runs { (held : List (ℕ × Frame)) × Runs P.start seated.value.runner (settled_runner machine held) }
    requires frames { All (λ v. All IsFrame v.items) kept.items }
    requires keeps { (sent : ℕ) × KeepsFrames P.start seated.value.backup sent 1 (map (λ v. v.items) kept.items) }
{
    let Seated {
        clock,
        book,
        first,
        second,
        line,
        runner,
        backup,
    } = Box::into_inner(seated);
    let runner = Runner {
        seat: runner,
        machine,
    };
    let backup = Backup {
        seat: backup,
        may_go_live: true,
        kept,
    };
    let host = Host {
        alloc,
        clock,
        book,
        first,
        second,
        line,
        runner,
        backup,
        new_backup: None,
        new_runner: None,
    };
    Ok(Box::new(alloc, host)?)
}

/// The pair is named and opened, with a guest that makes no step.
pub(crate) fn opened<P: Pair>(alloc: Global, book: UnnamedBook) -> Result<Box<Host<P>>, Fail>
    requires { (book.word ≡ P.word) × (P.start ≡ start_state 1 1 [] book.clients) }
{
    members_begin();
    let seated = seat_all(alloc, book)?;
    let machine = SettledMachine::still(alloc)?;
    let host = host_of(alloc, seated, machine, Vec::new(alloc))?;
    Ok(host)
}

impl<P: Pair> Host<P> {
    /// Whether the first backup is the live one, and no node is alone: then reading nothing is Stale.
    fn may_commit(&self) -> bool {
        matches!(self.backup.foresee(&self.book), Some(Refusal::Stale))
    }

    /// What can be seen of the book by calls that change nothing.
    pub(crate) fn shown(&mut self) -> Shown {
        let steps = self.first.look(&self.clock);
        Shown {
            entries: self.book.entries(),
            steps,
            want: self.runner.ask(&self.book).ok(),
            may_commit: self.may_commit(),
        }
    }

    /// What is answered to this call.
    pub(crate) fn answer(&mut self, call: Call) -> Result<Answer, Refusal> {
        match call {
            Call::Deliver(bytes) => self.deliver(&FRAME[..bytes.min(FRAME.len())]),
            Call::Take(client) => self.take(client),
            Call::LoseIn(client, place) => self.lose_in(client, place),
            Call::LoseOut(client, place) => self.lose_out(client, place),
            Call::Ask => self.ask(),
            Call::AskNew => self.ask_new(),
            Call::Submit(generation, number) => self.submit_checkpoint(generation, number),
            Call::SubmitNone => self.submit_none(),
            Call::Next => self.next(),
            Call::Commit(by, read) => self.commit_read(by, read),
            Call::Acked(generation, number) => self.acked(Ack { generation, number }),
            Call::FailPrimary => self.fail_primary(),
            Call::FailBackup => self.fail_backup(),
            Call::GoLive => self.go_live(),
            Call::Protect => self.protect(),
            Call::Foresee => self.foresee(),
            Call::IsEarlier(generation, number) => Ok(self.is_earlier(generation, number)),
            Call::Seats => Ok(self.seats()),
            Call::Entries => Ok(self.entries()),
        }
    }

    fn deliver(&mut self, bytes: &[u8]) -> Result<Answer, Refusal> {
        self.first.deliver(&self.clock, &mut self.book, bytes)
    }

    fn take(&mut self, client: u64) -> Result<Answer, Refusal> {
        if client == 1 {
            self.first.take(&self.clock, &mut self.book)
        } else {
            self.second.take(&self.clock, &mut self.book)
        }
    }

    fn lose_in(&mut self, client: u64, place: u64) -> Result<Answer, Refusal> {
        Ok(Answer::Loss(
            self.book
                .lose_in(&self.clock, &mut self.line, client, place)?,
        ))
    }

    fn lose_out(&mut self, client: u64, place: u64) -> Result<Answer, Refusal> {
        Ok(Answer::Loss(
            self.book
                .lose_out(&self.clock, &mut self.line, client, place)?,
        ))
    }

    fn ask(&self) -> Result<Answer, Refusal> {
        Ok(wanted(self.runner.ask(&self.book)?))
    }

    fn ask_new(&self) -> Result<Answer, Refusal> {
        let Some(runner) = &self.new_runner else {
            return Ok(Answer::NotMade);
        };
        Ok(wanted(self.book.ask(runner)?))
    }

    fn submit_checkpoint(&mut self, generation: u64, number: u64) -> Result<Answer, Refusal> {
        self.runner.submit_checkpoint(self.alloc, &self.clock, &mut self.book, generation, number)
    }

    fn submit_none(&mut self) -> Result<Answer, Refusal> {
        self.runner
            .submit_none(self.alloc, &self.clock, &mut self.book)
    }

    fn next(&mut self) -> Result<Answer, Refusal> {
        Ok(number(self.book.next()?.map(|packet| packet.number())))
    }

    fn commit_new(&mut self, read: Option<&Checkpoint>) -> Result<Answer, Refusal> {
        let Some(backup) = &mut self.new_backup else {
            return Ok(Answer::NotMade);
        };
        Ok(acknowledged(self.book.commit(&self.clock, backup, read)?))
    }

    fn commit(&mut self, by: By, read: Option<&Checkpoint>) -> Result<Answer, Refusal> {
        match by {
            By::First => self.backup.commit(&self.clock, &mut self.book, read),
            By::New => self.commit_new(read),
        }
    }

    fn commit_read(&mut self, by: By, read: Read) -> Result<Answer, Refusal> {
        let checkpoint = match read {
            Read::Nothing => return self.commit(by, None),
            Read::Checkpoint(generation, number) => {
                self.runner.checkpoint(self.alloc, generation, number)
            }
            Read::OldDelta => self.runner.old_delta(self.alloc),
        };
        match checkpoint {
            Some(checkpoint) => self.commit(by, Some(&*checkpoint)),
            None => Ok(Answer::NotMade),
        }
    }

    fn acked(&mut self, ack: Ack) -> Result<Answer, Refusal> {
        let _kept = self.book.keep_texts();
        Ok(Answer::Number(self.book.acked(&self.clock, ack)?.count))
    }

    fn fail_primary(&mut self) -> Result<Answer, Refusal> {
        self.book.fail_primary(&self.clock)?;
        Ok(Answer::None)
    }

    fn fail_backup(&mut self) -> Result<Answer, Refusal> {
        Ok(Answer::Number(self.book.fail_backup(&self.clock)?.count))
    }

    /// Answers the number of the new runner's seat.
    fn go_live(&mut self) -> Result<Answer, Refusal> {
        let Some(runner) = self.backup.go_live(&self.clock, &mut self.book)? else {
            return Ok(Answer::NotMade);
        };
        let number = runner.number();
        self.new_runner = Some(runner);
        Ok(Answer::Number(number))
    }

    /// A new backup comes. Answers the number of its seat.
    fn protect(&mut self) -> Result<Answer, Refusal> {
        let backup = self.book.protect(&self.clock)?;
        let number = backup.number();
        self.new_backup = Some(backup);
        Ok(Answer::Number(number))
    }

    fn foresee(&self) -> Result<Answer, Refusal> {
        match self.backup.foresee(&self.book) {
            Some(why) => Err(why),
            None => Ok(Answer::None),
        }
    }

    fn is_earlier(&self, generation: u64, number: u64) -> Answer {
        match self.runner.checkpoint(self.alloc, generation, number) {
            Some(checkpoint) => Answer::Truth(self.book.is_earlier(&*checkpoint)),
            None => Answer::NotMade,
        }
    }

    fn seats(&self) -> Answer {
        Answer::Seats([
            self.runner.number(),
            self.backup.number(),
            self.line.number(),
            self.first.number(),
            self.second.number(),
        ])
    }

    fn entries(&self) -> Answer {
        Answer::Number(self.book.entries())
    }
}
