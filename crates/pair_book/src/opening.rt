//! A book and its members, at the start.
ghost use Rattle.std.specs.Prelude.{◌≡◌, ◌+◌, ◌≤◌, ◌↔◌, [], IfOk, IfSome, OnSome, IfNone, IsNone, length};
ghost use Rattle.growing_history.specs.LogState.{first_runner, first_backup, line_seat, client_seat};
ghost use Rattle.frame_ports.specs.Limits.{max_clients};
ghost use Rattle.pair_book.specs.Books.{start_book};
ghost use Rattle.pair_book.specs.Calls.{IsClientSeat};
ghost use Rattle.pair_book.specs.Opening.{IsBoot};

use crate::book::{Book, LINE_SEAT};
use crate::losses::LineSeat;
use crate::seats::Seats;
use crate::texts::Texts;
use growing_history::{BackupSeat, ClientSeat, Clock, KeeperSeat, Opened, Pair, RunnerSeat};
use pair_record::PairRecord;
use std::alloc::{AllocError, Global};
use std::marker::Model;

/// The numbers of the first runner's seat and of the first backup's.
const RUNNER_SEAT: u64 = 1;

const BACKUP_SEAT: u64 = 2;

/// A book that has no name yet, with all the memory that it takes to begin. Contracts see the word, and how many clients there are.
#[derive(Drop)]
pub struct UnnamedBook {
    record: PairRecord,
    word: Opened,
    texts: Texts,
    clients: u64,
}

impl Model for UnnamedBook {
    ghost use Rattle.std.specs.Prelude.{◌≡◌, ◌≤◌};
    ghost use Rattle.pair_record.specs.Record.{start_record};
    ghost use Rattle.frame_ports.specs.Ports.{empty_ports};
    ghost use Rattle.frame_ports.specs.Limits.{max_clients};
    ghost use Rattle.pair_book.specs.Opening.{Unnamed, unnamed};
    ghost use Rattle.pair_book.specs.Packets.{no_texts};

    ghost Value = { Unnamed };

    ghost view = { λ b. unnamed b.word b.clients };

    ghost invariant = { λ b. (b.record.protocol ≡ start_record)
        × (b.record.ports ≡ empty_ports b.clients)
        × (1 ≤ b.clients)
        × (b.clients ≤ max_clients)
        × (b.texts ≡ no_texts) };
}

/// A book whose clients haven't all got their seats yet. Contracts see the book at its start.
#[derive(Drop)]
pub struct NewBook<P: Pair> {
    record: PairRecord,
    keeper: KeeperSeat<P>,
    texts: Texts,
}

impl<P: Pair> Model for NewBook<P> {
    ghost use Rattle.std.specs.Prelude.{◌≡◌, ◌≤◌, [], length};
    ghost use Rattle.frame_ports.specs.Limits.{max_clients};
    ghost use Rattle.growing_history.specs.LogState.{line_seat, client_seat};
    ghost use Rattle.pair_book.specs.Books.{BookState};
    ghost use Rattle.pair_book.specs.internal.Committed.{KeepsCommitted};
    ghost use Rattle.pair_book.specs.internal.Texts.{HasTexts};
    ghost use Rattle.pair_book.specs.internal.Tie.{IsTied, book_state};

    ghost Value = { BookState };

    ghost view = { λ b. book_state b.keeper b.record b.texts };

    ghost invariant = { λ b. IsTied P.start b.keeper.steps b.record.protocol b.record.ports
        × (b.keeper.steps ≡ [])
        × (line_seat ≤ b.keeper.enrolled)
        × (b.keeper.enrolled ≤ client_seat (length b.record.ports.boxes))
        × (length b.record.ports.boxes ≤ max_clients)
        × KeepsCommitted P.start b.keeper.steps b.record.protocol b.record.ports
        × HasTexts P.start b.keeper.steps b.record.protocol b.texts.packets };
}

/// A book, the word that counts its keeper's steps, and the seats of the first runner, number 1, of the first backup, 2, and of the line,
/// 3. The clients' are given out by [`NewBook::next_client`].
#[derive(Drop)]
pub struct Members<P: Pair> {
    pub clock: Clock<P>,
    pub book: NewBook<P>,
    pub runner: RunnerSeat<P>,
    pub backup: BackupSeat<P>,
    pub line: LineSeat<P>,
}

impl UnnamedBook {
    /// A book of so many clients. This alone takes memory.
    ///
    /// # Errors
    ///
    /// [`AllocError`] if that memory can't be had.
    pub fn new(alloc: Global, clients: u64) -> Result<UnnamedBook, AllocError>
        requires some { 1 ≤ clients }
        requires few { clients ≤ max_clients }
        ensures { IfOk result (λ b. b.clients ≡ clients) }
    {
        let Ok(record) = PairRecord::new(alloc, clients) else {
            return Err(AllocError);
        };
        let Ok(texts) = Texts::none(alloc) else {
            return Err(AllocError);
        };
        let word = Opened::new(alloc)?;
        Ok(UnnamedBook {
            record,
            word,
            texts,
            clients,
        })
    }

    /// Names the pair, whose history starts at the boot guest's state, and gives out the seats. This can't fail.
    pub fn named<P: Pair>(self) -> Members<P>
        requires word { self.word ≡ P.word }
        requires start { IsBoot P.start self.clients }
        ensures book { result.book ≡ start_book self.clients line_seat }
        ensures runner { result.runner ≡ record { number = first_runner; steps = [] } }
        ensures backup { result.backup ≡ record { number = first_backup; steps = [] } }
        ensures line { result.line ≡ record { number = line_seat; steps = [] } }
    {
        let (clock, mut keeper) = self.word.named::<P>();
        let runner = keeper.enroll(&clock);
        let backup = keeper.enroll(&clock);
        let line = keeper.enroll(&clock);
        Members {
            book: NewBook {
                record: self.record,
                keeper,
                texts: self.texts,
            },
            clock,
            runner,
            backup,
            line: LineSeat::of(line),
        }
    }
}

impl<P: Pair> NewBook<P> {
    /// Gives out the seat of the next client that has none yet, client 1 first; `None` once each client has one.
    pub fn next_client(&mut self, clock: &Clock<P>) -> Option<ClientSeat<P>>
        ensures seat { IfSome result (λ m. m ≡ record { number = self.old.enrolled + 1; steps = self.old.steps }) }
        ensures client { IfSome result (λ m. IsClientSeat P.start m.number) }
        ensures given { OnSome result (self.new ≡ record self.old { enrolled = self.old.enrolled + 1 }) }
        ensures all { IsNone result ↔ (client_seat (length self.old.ports.boxes) ≤ self.old.enrolled) }
        ensures none { IfNone result (self.new ≡ self.old) }
    {
        let client = self.keeper.enrolled() - LINE_SEAT + 1;
        if client > self.record.clients() {
            return None;
        }
        Some(self.keeper.enroll(clock))
    }

    /// The book that is shared from here on. A client that has got no seat by now gets none.
    pub fn open(mut self, clock: &Clock<P>) -> Book<P>
        ensures book { result ≡ record self { enrolled = client_seat (length self.ports.boxes) } }
    {
        for _ in 0..self.record.clients() {
            let _not_asked_for = self.next_client(clock);
        }
        let NewBook {
            record,
            keeper,
            texts,
        } = self;
        Book {
            record,
            seats: Seats::first(keeper, RUNNER_SEAT, BACKUP_SEAT),
            texts,
        }
    }
}
