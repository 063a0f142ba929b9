//! What the line loses.
ghost use Rattle.std.specs.Prelude.{◌≡◌, None, IfOk, OnOk, IfErr};
ghost use Rattle.frame_ports.specs.Ports.{inbox_of, box_of};
ghost use Rattle.pair_record.specs.Protocol.{first_refusal, lost_in, lost_out};
ghost use Rattle.pair_record.specs.Record.{ports_after_lose_in, ports_after_lose_out};
ghost use Rattle.growing_history.specs.LogState.{LegalSteps, line_seat};
ghost use Rattle.pair_book.specs.Calls.{IsAsBefore, Shows};
ghost use Rattle.pair_book.specs.Losses.{loss_rows, IsWhyLoss, AfterLoss};

use crate::book::Book;
use crate::gained::tell;
use growing_history::{Badge, Clock, MemberSeat, Pair};
use pair_record::Refusal;
use std::marker::Model;

/// What became of a loss that was asked for.
#[derive(Clone, Copy, PartialEq, Eq)]
pub enum Lost {
    /// The frame that was there is dropped.
    Dropped,
    /// No frame was there: nothing happened, but that the seat has seen all steps.
    Empty,
}

/// The line's seat, whose steps drop frames: only who has it makes the line lose any. Contracts see its number and the steps that it has
/// seen.
#[derive(Drop)]
pub struct LineSeat<P: Pair> {
    member: MemberSeat<P>,
}

impl<P: Pair> Model for LineSeat<P> {
    ghost use Rattle.std.specs.Prelude.{◌≡◌};
    ghost use Rattle.growing_history.specs.LogState.{line_seat};
    ghost use Rattle.growing_history.specs.Views.{Member};

    ghost Value = { Member };

    ghost view = { λ s. s.member };

    ghost invariant = { λ s. s.member.number ≡ line_seat };
}

impl<P: Pair> LineSeat<P> {
    /// The seat that the line is given at the start.
    pub(crate) fn of(member: MemberSeat<P>) -> LineSeat<P>
        requires { member.number ≡ line_seat }
        ensures { result ≡ member }
    {
        LineSeat { member }
    }

    /// The number under which its steps are made, 3.
    pub fn number(&self) -> u64
        ensures { result ≡ self.now.number }
    {
        self.member.number()
    }

    /// What is true of every line's seat is true of this one.
    pub fn keep(&self)
        ensures line { self.now.number ≡ line_seat }
        ensures legal { LegalSteps P.start self.now.steps }
    {
        let _number = self.member.number();
    }

    /// What another may be told: all that the line has seen.
    pub fn tell(&mut self, clock: &Clock<P>) -> Badge<P>
        ensures badge { result ≡ self.old.steps }
        ensures same { self.new ≡ self.old }
    {
        self.member.tell(clock)
    }
}

impl<P: Pair> Book<P> {
    /// Shows the line all the steps that were made. Nothing is done.
    pub fn show_line(&mut self, clock: &Clock<P>, line: &mut LineSeat<P>)
        ensures same { self.new ≡ self.old }
        ensures shows { Shows self.old line.old line.new }
        ensures legal { LegalSteps P.start self.old.steps }
    {
        self.show(clock, &mut line.member);
    }

    /// The line drops the frame at this place, from 0, of this client's inbox.
    ///
    /// # Errors
    ///
    /// [`Refusal::NoClient`]; where a frame is there [`Refusal::Exhausted`] if the history or the word would reach 2^62, and
    /// [`Refusal::NoMemory`] if the room for its entry can't be had.
    pub fn lose_in(
        &mut self,
        clock: &Clock<P>,
        seat: &mut LineSeat<P>,
        client: u64,
        place: u64,
    ) -> Result<Lost, Refusal>
        ensures number { seat.new.number ≡ seat.old.number }
        ensures texts { self.new.texts ≡ self.old.texts }
        ensures done { IfOk result (λ loss. AfterLoss (lost_in (inbox_of self.old.ports client) place)
            (ports_after_lose_in self.old.ports client place) loss self.old self.new seat.old seat.new) }
        ensures free { OnOk result (first_refusal
            (loss_rows self.old client (lost_in (inbox_of self.old.ports client) place)) ≡ None) }
        ensures why { IfErr result (IsWhyLoss (lost_in (inbox_of self.old.ports client) place)
            (first_refusal (loss_rows self.old client (lost_in (inbox_of self.old.ports client) place)))) }
        ensures refused { IfErr result (λ _. IsAsBefore self.old self.new seat.old seat.new) }
    {
        let before = self.record.history().len();
        let word_full = self.is_word_full();
        if self.record.lose_in(client, place, word_full)? {
            tell(
                &self.record,
                before,
                &mut self.seats,
                clock,
                &mut seat.member,
            );
            Ok(Lost::Dropped)
        } else {
            self.seats.meet(clock, &mut seat.member);
            Ok(Lost::Empty)
        }
    }

    /// The line drops the frame at this place, from 0, of this client's box.
    ///
    /// # Errors
    ///
    /// As those of [`Book::lose_in`].
    pub fn lose_out(
        &mut self,
        clock: &Clock<P>,
        seat: &mut LineSeat<P>,
        client: u64,
        place: u64,
    ) -> Result<Lost, Refusal>
        ensures number { seat.new.number ≡ seat.old.number }
        ensures texts { self.new.texts ≡ self.old.texts }
        ensures done { IfOk result (λ loss. AfterLoss (lost_out client (box_of self.old.ports client) place)
            (ports_after_lose_out self.old.ports client place) loss self.old self.new seat.old seat.new) }
        ensures free { OnOk result (first_refusal
            (loss_rows self.old client (lost_out client (box_of self.old.ports client) place)) ≡ None) }
        ensures why { IfErr result (IsWhyLoss (lost_out client (box_of self.old.ports client) place)
            (first_refusal (loss_rows self.old client (lost_out client (box_of self.old.ports client) place)))) }
        ensures refused { IfErr result (λ _. IsAsBefore self.old self.new seat.old seat.new) }
    {
        let before = self.record.history().len();
        let word_full = self.is_word_full();
        if self.record.lose_out(client, place, word_full)? {
            tell(
                &self.record,
                before,
                &mut self.seats,
                clock,
                &mut seat.member,
            );
            Ok(Lost::Dropped)
        } else {
            self.seats.meet(clock, &mut seat.member);
            Ok(Lost::Empty)
        }
    }
}
