//! The clients of a pair.
ghost use Rattle.std.specs.Prelude.{◌≡◌, ◌≤◌, length, false, IfOk, OnOk, IfErr};
ghost use Rattle.pair_history.specs.Entries.{Delivered, Took};
ghost use Rattle.pair_record.specs.Protocol.{is_bad_length};
ghost use Rattle.growing_history.specs.LogState.{LegalSteps};
ghost use Rattle.std.specs.List.{Contains};
ghost use Rattle.pair_record.specs.Record.{given};
ghost use Rattle.hypervisor.specs.Clients.{Calls, RefusesDelivery, Learns};
ghost use Rattle.hypervisor.specs.Looking.{SeesAll};
ghost use Rattle.hypervisor.specs.Refusals.{MayRefuseDelivery, entry_refusals};

use crate::callers::CallerSeat;
use crate::shared::Shared;
use growing_history::{Badge, Clock, Pair};
use pair_book::{Book, Refusal};
use pair_history::Frame;
use std::marker::Model;
use std::sync::{Arc, Wait};

/// A client of a pair. Contracts see its number, and what it has seen: a beginning of the one list of steps that the pair's book keeps. The
/// history of these steps is a point of the pair's growing history, and the client's own entries in it are all its calls with their
/// answers.
pub struct Client<P: Pair> {
    shared: Arc<Shared<P>>,
    seat: CallerSeat<P>,
}

// Proved here, and not in each crate above that keeps one in a `Box` or an `Option`.
impl<P: Pair> Drop for Client<P> {
    fn drop(self) {
        let Client { shared: _, seat: _ } = self;
    }
}

impl<P: Pair> Model for Client<P> {
    ghost use Rattle.hypervisor.specs.Clients.{ClientState};

    ghost Value = { ClientState };

    ghost view = { λ c. c.seat };
}

impl<P: Pair> Client<P> {
    pub(crate) fn at(shared: Arc<Shared<P>>, seat: CallerSeat<P>) -> Client<P>
        ensures { result ≡ seat }
    {
        Client { shared, seat }
    }

    /// Its number, from 1 up to the number of clients.
    pub fn number(&self) -> u64
        ensures number { result ≡ self.now.number }
        ensures client { (1 ≤ result) × (result ≤ length P.start.boxes) }
    {
        self.seat.number()
    }

    /// What is true of every client is true of this one.
    pub fn keep(&self)
        ensures { LegalSteps P.start self.now.seen }
    {
        self.seat.keep();
    }

    /// Delivers a frame of these bytes: it goes last into the client's inbox. Answers its number, counted from 1 over all clients. What the
    /// client has seen then ends with this call's entry, and its own entries are those before and this one.
    ///
    /// # Errors
    ///
    /// In this order: [`Refusal::BadFrame`] for fewer than 14 or more than 1514 bytes; [`Refusal::Exhausted`] where the history or the word
    /// would reach 2^62; [`Refusal::Full`] where 64 frames of the client wait, which this call's entry tells; [`Refusal::Exhausted`] where
    /// the frame's number would reach 2^62. [`Refusal::NoMemory`] where the room in the history can't be had, in place of the number or of
    /// `Full`. After a refusal other than `Full` what the client has seen is as before.
    pub fn deliver<R: Wait>(&mut self, rt: &R, bytes: &[u8]) -> Result<u64, Refusal>
        ensures done { IfOk result (λ n.
            Calls P.start (Delivered self.old.number (record { items = bytes.now }) n) self.old self.new) }
        ensures frame { OnOk result (is_bad_length (length bytes.now) ≡ false) }
        ensures why { IfErr result (MayRefuseDelivery bytes.now) }
        ensures refused { IfErr result (λ why. RefusesDelivery P.start (record { items = bytes.now }) why self.old self.new) }
    {
        let shared = &*self.shared;
        let mut held = shared.hold(rt);
        self.seat.deliver(&mut *held, shared.clock(), bytes)
    }

    /// Takes the first frame of the client's box, or finds none. What the client has seen then ends with this call's entry, and its own
    /// entries are those before and this one.
    ///
    /// # Errors
    ///
    /// [`Refusal::Exhausted`] where the history or the word would reach 2^62; [`Refusal::NoMemory`] where the room for the frame in the
    /// history can't be had. What the client has seen is as before, and the frame stays in its box.
    pub fn take<R: Wait>(&mut self, rt: &R) -> Result<Option<Frame>, Refusal>
        ensures done { IfOk result (λ f. Calls P.start (Took self.old.number f) self.old self.new) }
        ensures why { IfErr result (Contains entry_refusals) }
        ensures refused { IfErr result (λ _. self.new ≡ self.old) }
    {
        let mut frame = Frame::new();
        if self.take_into(rt, &mut frame)? {
            Ok(Some(frame))
        } else {
            Ok(None)
        }
    }

    /// As [`take`](Client::take), and puts the frame into `into`, whose bytes are given up; answers whether there was one. Where there is
    /// none, and after a refusal, `into` is as before. So a frame is copied once, and the call takes a third of the time of one that
    /// answers with a place for a frame: it suits who calls often and finds the box empty.
    ///
    /// # Errors
    ///
    /// Those of `take`.
    pub fn take_into<R: Wait>(&mut self, rt: &R, into: &mut Frame) -> Result<bool, Refusal>
        ensures done { IfOk result (λ is_some. Calls P.start (Took self.old.number (given is_some into.new)) self.old self.new) }
        ensures stays { IfOk result (λ is_some. is_some ≡ false → into.new ≡ into.old) }
        ensures why { IfErr result (Contains entry_refusals) }
        ensures refused { IfErr result (λ _. (self.new ≡ self.old) × (into.new ≡ into.old)) }
    {
        let shared = &*self.shared;
        let mut held = shared.hold(rt);
        self.seat.take(&mut *held, shared.clock(), into)
    }

    /// Sees all the steps that were made, at the book, which is lent to it.
    pub(crate) fn look(&mut self, book: &mut Book<P>, clock: &Clock<P>)
        ensures same { book.new ≡ book.old }
        ensures sees { SeesAll P.start book.old.steps self.old self.new }
    {
        self.seat.look(book, clock);
    }

    /// What another client may be told: all that this one has seen. No lock is taken.
    pub fn tell(&mut self) -> Badge<P>
        ensures badge { result ≡ self.old.seen }
        ensures same { self.new ≡ self.old }
    {
        let shared = &*self.shared;
        self.seat.tell(shared.clock())
    }

    /// Sees all that the client had seen who told it, beside all that it had seen itself. Its own entries stay, and so does the badge, from
    /// which others may learn too. No lock is taken.
    pub fn learn(&mut self, badge: &mut Badge<P>)
        ensures learns { Learns P.start badge.old self.old self.new }
        ensures badge { badge.new ≡ badge.old }
    {
        let shared = &*self.shared;
        self.seat.learn(shared.clock(), badge);
    }
}
