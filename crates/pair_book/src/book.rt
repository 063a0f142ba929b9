//! The book.
ghost use Rattle.std.specs.Prelude.{◌≡◌, ℕ, ◌≤◌, [], length, map};
ghost use Rattle.frame_ports.specs.Ports.{IsClient, inbox_of};
ghost use Rattle.growing_history.specs.LogState.{LegalSteps, state_at, history_of};
ghost use Rattle.pair_history.specs.Entries.{Arrive};
ghost use Rattle.pair_book.specs.Books.{inbox_at};
ghost use Rattle.pair_book.specs.Calls.{IsClientSeat, Shows, client_of, is_word_full};
ghost use Rattle.pair_book.specs.Made.{AreMade};

use crate::seats::Seats;
use crate::texts::Texts;
use frame_ports::NUMBER_LIMIT;
use growing_history::{ClientSeat, Clock, MemberSeat, Pair};
use pair_record::PairRecord;
use std::marker::Model;

/// The number of the line's seat; client c's is c more.
pub const LINE_SEAT: u64 = 3;

/// What all threads of a pair share. Contracts see it as a `BookState` of the specs: the steps that its keeper has made, the record,
/// the clients' ports and the texts of pending checkpoints. Between any two calls the record is the one that the steps lead to, each
/// pending text was sealed in them, and each sealed text makes the guest after its epoch of the guest before it.
///
/// A call makes one step or none, as its clauses say, and after a refusal nothing has changed, the lent seat included; only a delivery
/// refused [`Refusal::Full`](crate::Refusal::Full) is told by an entry.
pub struct Book<P: Pair> {
    pub(crate) record: PairRecord,
    pub(crate) seats: Seats<P>,
    pub(crate) texts: Texts,
}

// Proved here, and not in each crate above that keeps one in a `Box` or an `Option`.
impl<P: Pair> Drop for Book<P> {
    fn drop(self) {
        let Book {
            record: _,
            seats: _,
            texts: _,
        } = self;
    }
}

impl<P: Pair> Model for Book<P> {
    ghost use Rattle.pair_book.specs.Books.{BookState};
    ghost use Rattle.pair_book.specs.internal.Committed.{KeepsCommitted};
    ghost use Rattle.pair_book.specs.internal.Texts.{HasTexts};
    ghost use Rattle.pair_book.specs.internal.Tie.{IsTied, book_state};

    ghost Value = { BookState };

    ghost view = { λ b. book_state b.seats b.record b.texts };

    ghost invariant = { λ b. IsTied P.start b.seats.steps b.record.protocol b.record.ports
        × KeepsCommitted P.start b.seats.steps b.record.protocol b.record.ports
        × HasTexts P.start b.seats.steps b.record.protocol b.texts.packets };
}

impl<P: Pair> Book<P> {
    /// The length of the history.
    pub fn entries(&self) -> u64
        ensures { result ≡ length self.now.protocol.journal.history }
    {
        self.record.history().len()
    }

    /// What is true of every book is true of this one.
    pub fn keep(&self)
        ensures history { (state_at P.start self.now.steps).marked ≡ 0
            → self.now.protocol.journal.history ≡ history_of P.start self.now.steps }
        ensures legal { LegalSteps P.start self.now.steps }
        ensures made { AreMade P.start self.now.steps }
        ensures clients { length self.now.ports.boxes ≡ length P.start.boxes }
        ensures mode { self.now.protocol.mode ≡ (state_at P.start self.now.steps).mode }
        ensures generation { self.now.protocol.generation ≡ (state_at P.start self.now.steps).generation }
        ensures next { self.now.protocol.window.to_cut ≡ (state_at P.start self.now.steps).next }
        ensures sealed { self.now.protocol.journal.sealed ≡ map (λ e. e.entries) (state_at P.start self.now.steps).sealed }
        ensures running { self.now.protocol.journal.running ≡ map Arrive (state_at P.start self.now.steps).handed }
        ensures inboxes { (c : ℕ) → 1 ≤ c → c ≤ length self.now.ports.boxes
            → inbox_of self.now.ports c ≡ inbox_at (state_at P.start self.now.steps) c }
        ensures boxes { (state_at P.start self.now.steps).marked ≡ 0
            → self.now.ports.boxes ≡ (state_at P.start self.now.steps).history.boxes }
    {
        self.seats.keep();
    }

    /// The pair's generation, from 1.
    pub fn generation(&self) -> u64
        ensures { result ≡ self.now.protocol.generation }
    {
        self.record.generation()
    }

    /// The number that the next checkpoint gets in it.
    pub fn next_number(&self) -> u64
        ensures { result ≡ self.now.protocol.window.to_cut }
    {
        self.record.window().to_cut
    }

    /// How many checkpoints are pending.
    pub fn pending(&self) -> u64
        ensures pending { result ≡ length self.now.protocol.pending }
        // Where none is, each that was sealed is committed.
        ensures sealed { result ≡ 0 → self.now.protocol.journal.sealed ≡ [] }
    {
        self.record.keep();
        self.record.pending()
    }

    /// Shows a member all the steps that were made. Nothing is done.
    pub fn show(&mut self, clock: &Clock<P>, seat: &mut MemberSeat<P>)
        ensures same { self.new ≡ self.old }
        ensures shows { Shows self.old seat.old seat.new }
        ensures legal { LegalSteps P.start self.old.steps }
    {
        self.seats.meet(clock, seat);
    }

    /// Whether the word, which counts the steps, would reach 2^62 by one step more.
    pub(crate) fn is_word_full(&self) -> bool
        ensures { result ≡ is_word_full self.now }
    {
        self.seats.count() >= NUMBER_LIMIT - 1
    }

    /// The number of the client whose seat this is.
    pub(crate) fn client_number(&self, seat: &ClientSeat<P>) -> u64
        requires { IsClientSeat P.start seat.now.number }
        ensures number { result ≡ client_of seat.now.number }
        ensures client { IsClient self.now.ports result }
    {
        self.seats.keep();
        seat.number() - LINE_SEAT
    }
}
