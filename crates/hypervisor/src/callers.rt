//! A client's seat, and what its calls make of the book and of what it has seen.
ghost use Rattle.std.specs.Prelude.{◌≡◌, ◌≤◌, length, false, None, IfOk, OnOk, IfErr};
ghost use Rattle.frame_ports.specs.Ports.{after_delivery};
ghost use Rattle.pair_history.specs.Entries.{Delivered, Took};
ghost use Rattle.pair_record.specs.declared.event.Reply.TheVariants as replies;
ghost use Rattle.pair_record.specs.Protocol.{is_bad_length, first_refusal, deliver_done, take_done};
ghost use Rattle.growing_history.specs.LogState.{LegalSteps};
ghost use Rattle.std.specs.List.{Contains};
ghost use Rattle.pair_record.specs.Record.{given, ports_after_take};
ghost use Rattle.pair_book.specs.Calls.{IsClientSeat, IsWhy, entry_rows, deliver_rows, IsWhyDelivery};
ghost use Rattle.hypervisor.specs.Clients.{client_state, Calls, RefusesDelivery, Learns};
ghost use Rattle.hypervisor.specs.AtBook.{KeepsBookUnlessFull};
ghost use Rattle.hypervisor.specs.Looking.{SeesAll};
ghost use Rattle.hypervisor.specs.Refusals.{MayRefuseDelivery, entry_refusals};

use crate::seats::keep_seat;
use growing_history::{Badge, ClientSeat, Clock, Pair, a_call_is_a_point_of_one_history};
use pair_book::{Book, LINE_SEAT, Refusal};
use pair_history::Frame;
use std::marker::Model;

/// The seat of a client. Contracts see the client's number, and what it has seen.
#[derive(Drop)]
pub(crate) struct CallerSeat<P: Pair> {
    seat: ClientSeat<P>,
}

impl<P: Pair> Model for CallerSeat<P> {
    ghost use Rattle.pair_book.specs.Calls.{IsClientSeat};
    ghost use Rattle.hypervisor.specs.Clients.{ClientState, client_state};

    ghost Value = { ClientState };

    ghost view = { λ c. client_state c.seat };

    ghost invariant = { λ c. IsClientSeat P.start c.seat.number };
}

impl<P: Pair> CallerSeat<P> {
    pub(crate) fn of(seat: ClientSeat<P>) -> CallerSeat<P>
        requires { IsClientSeat P.start seat.number }
        ensures { result ≡ client_state seat }
    {
        CallerSeat { seat }
    }

    /// The client's number, from 1 up to the number of clients.
    pub(crate) fn number(&self) -> u64
        ensures number { result ≡ self.now.number }
        ensures client { (1 ≤ result) × (result ≤ length P.start.boxes) }
    {
        self.seat.number() - LINE_SEAT
    }

    /// What is true of every client's seat is true of this one.
    pub(crate) fn keep(&self)
        ensures { LegalSteps P.start self.now.seen }
    {
        keep_seat(&self.seat);
    }

    /// The client delivers a frame, as [`Book::deliver`] says.
    pub(crate) fn deliver(
        &mut self,
        book: &mut Book<P>,
        clock: &Clock<P>,
        bytes: &[u8],
    ) -> Result<u64, Refusal>
        ensures done { IfOk result (λ n.
            Calls P.start (Delivered self.old.number (record { items = bytes.now }) n) self.old self.new) }
        ensures frame { OnOk result (is_bad_length (length bytes.now) ≡ false) }
        ensures why { IfErr result (MayRefuseDelivery bytes.now) }
        ensures refused { IfErr result (λ why. RefusesDelivery P.start (record { items = bytes.now }) why self.old self.new) }
        // And what it does at the book.
        ensures protocol { IfOk result (λ n. (replies.Delivered n, book.new.protocol)
            ≡ deliver_done book.old.protocol self.old.number (record { items = bytes.now }) book.old.ports.next) }
        ensures ports { OnOk result (book.new.ports ≡ after_delivery book.old.ports self.old.number bytes.now) }
        ensures texts { book.new.texts ≡ book.old.texts }
        ensures free { OnOk result (first_refusal (deliver_rows book.old self.old.number bytes.now) ≡ None) }
        ensures row { IfErr result (IsWhyDelivery (first_refusal (deliver_rows book.old self.old.number bytes.now))) }
        ensures kept { IfErr result (KeepsBookUnlessFull self.old.number (record { items = bytes.now }) book.old book.new) }
    {
        a_call_is_a_point_of_one_history();
        book.keep();
        let delivered = book.deliver(clock, &mut self.seat, bytes);
        keep_seat(&self.seat);
        delivered
    }

    /// The client takes the first frame of its box, as [`Book::take`] says.
    pub(crate) fn take(
        &mut self,
        book: &mut Book<P>,
        clock: &Clock<P>,
        into: &mut Frame,
    ) -> Result<bool, Refusal>
        ensures done { IfOk result (λ is_some. Calls P.start (Took self.old.number (given is_some into.new)) self.old self.new) }
        ensures stays { IfOk result (λ is_some. is_some ≡ false → into.new ≡ into.old) }
        ensures why { IfErr result (Contains entry_refusals) }
        ensures refused { IfErr result (λ _. (self.new ≡ self.old) × (into.new ≡ into.old)) }
        // And what it does at the book.
        ensures protocol { IfOk result (λ is_some. (replies.Took (given is_some into.new), book.new.protocol)
            ≡ take_done book.old.ports.boxes book.old.protocol self.old.number) }
        ensures ports { OnOk result (book.new.ports ≡ ports_after_take book.old.ports self.old.number) }
        ensures texts { book.new.texts ≡ book.old.texts }
        ensures free { OnOk result (first_refusal (entry_rows book.old) ≡ None) }
        ensures row { IfErr result (IsWhy (first_refusal (entry_rows book.old))) }
        ensures kept { IfErr result (λ _. book.new ≡ book.old) }
    {
        a_call_is_a_point_of_one_history();
        let taken = book.take(clock, &mut self.seat, into);
        keep_seat(&self.seat);
        taken
    }

    /// Sees all the steps that were made.
    pub(crate) fn look(&mut self, book: &mut Book<P>, clock: &Clock<P>)
        ensures same { book.new ≡ book.old }
        ensures sees { SeesAll P.start book.old.steps self.old self.new }
    {
        a_call_is_a_point_of_one_history();
        book.show(clock, &mut self.seat);
    }

    /// What another may be told.
    pub(crate) fn tell(&mut self, clock: &Clock<P>) -> Badge<P>
        ensures badge { result ≡ self.old.seen }
        ensures same { self.new ≡ self.old }
    {
        self.seat.tell(clock)
    }

    /// Sees what the other had seen who told it.
    pub(crate) fn learn(&mut self, clock: &Clock<P>, badge: &mut Badge<P>)
        ensures learns { Learns P.start badge.old self.old self.new }
        ensures badge { badge.new ≡ badge.old }
    {
        a_call_is_a_point_of_one_history();
        self.seat.learn(clock, badge);
    }
}
