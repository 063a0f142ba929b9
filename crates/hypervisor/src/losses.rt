//! The line's losses.
ghost use Rattle.std.specs.Prelude.{◌≡◌, None, IfOk, OnOk, IfErr, OnErr, option_map};
ghost use Rattle.std.specs.List.{Contains};
ghost use Rattle.frame_ports.specs.Ports.{inbox_of, box_of};
ghost use Rattle.pair_record.specs.Protocol.{first_refusal, lost_in, lost_out};
ghost use Rattle.pair_record.specs.Record.{ports_after_lose_in, ports_after_lose_out};
ghost use Rattle.pair_book.specs.Calls.{IsAsBefore, IsWhy};
ghost use Rattle.pair_book.specs.Losses.{loss_rows, AfterLoss, IsWhyLoss};
ghost use Rattle.pair_book.specs.Texts.{next_of, given_after, next_why};
ghost use Rattle.hypervisor.specs.Losses.{AfterLossIn, AfterLossOut};
ghost use Rattle.hypervisor.specs.Refusals.{MayRefuseLoss, next_refusals};

use crate::sealed_packet::SealedPacket;
use crate::sender::next;
use crate::shared::Shared;
use growing_history::{Clock, Pair};
use pair_book::{Book, LineSeat, Lost, Refusal};
use std::marker::Model;
use std::sync::{Arc, Wait};

/// Who makes the line lose frames: the only one who has the line's seat. Contracts see what that seat has seen.
pub struct Loss<P: Pair> {
    shared: Arc<Shared<P>>,
    line: LineSeat<P>,
}

// Proved here, and not in each crate above that keeps one in a `Box` or an `Option`.
impl<P: Pair> Drop for Loss<P> {
    fn drop(self) {
        let Loss { shared: _, line: _ } = self;
    }
}

impl<P: Pair> Model for Loss<P> {
    ghost use Rattle.std.specs.Prelude.{List};
    ghost use Rattle.growing_history.specs.Steps.{Step};

    ghost Value = { List Step };

    ghost view = { λ l. l.line.steps };
}

/// The line drops the frame at this place of this client's inbox, as [`Book::lose_in`] says.
fn lose_in<P: Pair>(
    book: &mut Book<P>,
    clock: &Clock<P>,
    line: &mut LineSeat<P>,
    client: u64,
    place: u64,
) -> Result<Lost, Refusal>
    ensures number { line.new.number ≡ line.old.number }
    ensures done { IfOk result (λ lost. AfterLossIn P.start client place lost line.old.steps line.new.steps) }
    ensures why { IfErr result (MayRefuseLoss P.start client) }
    ensures refused { IfErr result (λ _. line.new ≡ line.old) }
    // And what it does at the book.
    ensures texts { book.new.texts ≡ book.old.texts }
    ensures lost { IfOk result (λ loss. AfterLoss (lost_in (inbox_of book.old.ports client) place)
        (ports_after_lose_in book.old.ports client place) loss book.old book.new line.old line.new) }
    ensures free { OnOk result (first_refusal (loss_rows book.old client (lost_in (inbox_of book.old.ports client) place)) ≡ None) }
    ensures row { IfErr result (IsWhyLoss (lost_in (inbox_of book.old.ports client) place)
        (first_refusal (loss_rows book.old client (lost_in (inbox_of book.old.ports client) place)))) }
    ensures kept { IfErr result (λ _. IsAsBefore book.old book.new line.old line.new) }
{
    book.keep();
    let lost = book.lose_in(clock, line, client, place);
    line.keep();
    lost
}

/// The line drops the frame at this place of this client's box, as [`Book::lose_out`] says.
fn lose_out<P: Pair>(
    book: &mut Book<P>,
    clock: &Clock<P>,
    line: &mut LineSeat<P>,
    client: u64,
    place: u64,
) -> Result<Lost, Refusal>
    ensures number { line.new.number ≡ line.old.number }
    ensures done { IfOk result (λ lost. AfterLossOut P.start client place lost line.old.steps line.new.steps) }
    ensures why { IfErr result (MayRefuseLoss P.start client) }
    ensures refused { IfErr result (λ _. line.new ≡ line.old) }
    // And what it does at the book.
    ensures texts { book.new.texts ≡ book.old.texts }
    ensures lost { IfOk result (λ loss. AfterLoss (lost_out client (box_of book.old.ports client) place)
        (ports_after_lose_out book.old.ports client place) loss book.old book.new line.old line.new) }
    ensures free { OnOk result (first_refusal
        (loss_rows book.old client (lost_out client (box_of book.old.ports client) place)) ≡ None) }
    ensures row { IfErr result (IsWhyLoss (lost_out client (box_of book.old.ports client) place)
        (first_refusal (loss_rows book.old client (lost_out client (box_of book.old.ports client) place)))) }
    ensures kept { IfErr result (λ _. IsAsBefore book.old book.new line.old line.new) }
{
    book.keep();
    let lost = book.lose_out(clock, line, client, place);
    line.keep();
    lost
}

/// What is to be sent, as [`Book::next`] says. The line's seat sees all the steps that were made, and so that it was sealed.
fn next_over<P: Pair>(
    book: &mut Book<P>,
    clock: &Clock<P>,
    line: &mut LineSeat<P>,
) -> Result<Option<SealedPacket<P>>, Refusal>
    ensures among { IfErr result (Contains next_refusals) }
    ensures done { IfOk result (λ sealed. option_map (λ s. s.packet) sealed ≡ next_of book.old.texts) }
    ensures given { OnOk result (book.new ≡ record book.old { texts = given_after (next_of book.old.texts) book.old.texts }) }
    ensures free { OnOk result (next_why book.old ≡ None) }
    ensures why { IfErr result (IsWhy (next_why book.old)) }
    ensures refused { OnErr result (book.new ≡ book.old) }
{
    let Some(packet) = next(book)? else {
        return Ok(None);
    };
    book.show_line(clock, line);
    let badge = line.tell(clock);
    Ok(Some(SealedPacket { packet, badge }))
}

impl<P: Pair> Loss<P> {
    pub(crate) fn of(shared: Arc<Shared<P>>, line: LineSeat<P>) -> Loss<P>
        ensures { result ≡ line.steps }
    {
        Loss { shared, line }
    }

    /// What is to be sent next, at the book, which is lent to it.
    pub(crate) fn next(
        &mut self,
        book: &mut Book<P>,
        clock: &Clock<P>,
    ) -> Result<Option<SealedPacket<P>>, Refusal>
        ensures among { IfErr result (Contains next_refusals) }
        ensures done { IfOk result (λ sealed. option_map (λ s. s.packet) sealed ≡ next_of book.old.texts) }
        ensures given { OnOk result (book.new ≡ record book.old { texts = given_after (next_of book.old.texts) book.old.texts }) }
        ensures free { OnOk result (next_why book.old ≡ None) }
        ensures why { IfErr result (IsWhy (next_why book.old)) }
        ensures refused { OnErr result (book.new ≡ book.old) }
    {
        next_over(book, clock, &mut self.line)
    }

    /// Drops the frame at this place, from 0, of this client's inbox. Where one is there, what the line's seat has seen then ends with the
    /// step that tells of its loss, under its number; where none is, the seat has looked, and nothing else happened.
    ///
    /// # Errors
    ///
    /// [`Refusal::NoClient`] for a number that is no client's; where a frame is there [`Refusal::Exhausted`] if the history or the word
    /// would reach 2^62, and [`Refusal::NoMemory`] if the room for its entry can't be had. What the line's seat has seen is as before.
    pub fn lose_in<R: Wait>(&mut self, rt: &R, client: u64, place: u64) -> Result<Lost, Refusal>
        ensures done { IfOk result (λ lost. AfterLossIn P.start client place lost self.old self.new) }
        ensures why { IfErr result (MayRefuseLoss P.start client) }
        ensures refused { IfErr result (λ _. self.new ≡ self.old) }
    {
        let shared = &*self.shared;
        let mut held = shared.hold(rt);
        lose_in(&mut *held, shared.clock(), &mut self.line, client, place)
    }

    /// Drops the frame at this place, from 0, of this client's box, which it has yet to take.
    ///
    /// # Errors
    ///
    /// As those of [`Loss::lose_in`].
    pub fn lose_out<R: Wait>(&mut self, rt: &R, client: u64, place: u64) -> Result<Lost, Refusal>
        ensures done { IfOk result (λ lost. AfterLossOut P.start client place lost self.old self.new) }
        ensures why { IfErr result (MayRefuseLoss P.start client) }
        ensures refused { IfErr result (λ _. self.new ≡ self.old) }
    {
        let shared = &*self.shared;
        let mut held = shared.hold(rt);
        lose_out(&mut *held, shared.clock(), &mut self.line, client, place)
    }
}
