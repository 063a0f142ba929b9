//! What clients call.
ghost use Rattle.std.specs.Prelude.{◌≡◌, ◌∷◌, [], None, false, IfOk, OnOk, IfErr};
ghost use Rattle.frame_ports.specs.Ports.{after_delivery};
ghost use Rattle.pair_history.specs.Entries.{Delivered, Took};
ghost use Rattle.pair_record.specs.declared.event.Reply.TheVariants as replies;
ghost use Rattle.pair_record.specs.Protocol.{first_refusal, deliver_done, take_done};
ghost use Rattle.pair_record.specs.Record.{given, ports_after_take};
ghost use Rattle.growing_history.specs.Steps.{Added};
ghost use Rattle.pair_book.specs.Calls.{IsClientSeat, client_of, Makes, IsAsBefore, IsWhy, entry_rows, deliver_rows};
ghost use Rattle.pair_book.specs.Calls.{IsWhyDelivery, AfterRefusedDelivery};

use crate::book::Book;
use crate::gained::tell;
use growing_history::{ClientSeat, Clock, Pair};
use pair_history::Frame;
use pair_record::Refusal;

impl<P: Pair> Book<P> {
    /// The client takes the first frame of its box, which is put into `into`, or finds none. Answers whether there was one; else `into`
    /// is as before, as it is after a refusal.
    ///
    /// # Errors
    ///
    /// [`Refusal::Exhausted`] where the history or the word would reach 2^62; [`Refusal::NoMemory`] where the room for the entry that
    /// tells the call can't be had.
    pub fn take(
        &mut self,
        clock: &Clock<P>,
        seat: &mut ClientSeat<P>,
        into: &mut Frame,
    ) -> Result<bool, Refusal>
        requires client { IsClientSeat P.start seat.old.number }
        ensures number { seat.new.number ≡ seat.old.number }
        ensures texts { self.new.texts ≡ self.old.texts }
        ensures done { IfOk result (λ is_some. (replies.Took (given is_some into.new), self.new.protocol)
            ≡ take_done self.old.ports.boxes self.old.protocol (client_of seat.old.number)) }
        ensures ports { OnOk result (self.new.ports ≡ ports_after_take self.old.ports (client_of seat.old.number)) }
        ensures step { IfOk result (λ is_some.
            Makes (Added (Took (client_of seat.old.number) (given is_some into.new) ∷ [])) self.old self.new seat.old seat.new) }
        ensures stays { IfOk result (λ is_some. is_some ≡ false → into.new ≡ into.old) }
        ensures free { OnOk result (first_refusal (entry_rows self.old) ≡ None) }
        ensures why { IfErr result (IsWhy (first_refusal (entry_rows self.old))) }
        ensures refused { IfErr result (λ _. IsAsBefore self.old self.new seat.old seat.new × (into.new ≡ into.old)) }
    {
        let client = self.client_number(seat);
        let before = self.record.history().len();
        let word_full = self.is_word_full();
        let is_some = self.record.take(client, into, word_full)?;
        tell(&self.record, before, &mut self.seats, clock, seat);
        Ok(is_some)
    }

    /// The client delivers a frame of these bytes: it goes last into the client's inbox. Answers its number, counted from 1 over all
    /// clients.
    ///
    /// # Errors
    ///
    /// In this order: [`Refusal::BadFrame`] for fewer than 14 or more than 1514 bytes; [`Refusal::Exhausted`] where the history or the word
    /// would reach 2^62; [`Refusal::Full`] where 64 frames of the client wait, which an entry of the history tells, and nothing else
    /// changes; [`Refusal::Exhausted`] where the frame's number would reach 2^62. [`Refusal::NoMemory`] where the room in the history
    /// can't be had, in place of the number or of `Full`.
    pub fn deliver(
        &mut self,
        clock: &Clock<P>,
        seat: &mut ClientSeat<P>,
        bytes: &[u8],
    ) -> Result<u64, Refusal>
        requires client { IsClientSeat P.start seat.old.number }
        ensures number { seat.new.number ≡ seat.old.number }
        ensures texts { self.new.texts ≡ self.old.texts }
        ensures done { IfOk result (λ n. (replies.Delivered n, self.new.protocol)
            ≡ deliver_done self.old.protocol (client_of seat.old.number) (record { items = bytes.now }) self.old.ports.next) }
        ensures ports { OnOk result (self.new.ports ≡ after_delivery self.old.ports (client_of seat.old.number) bytes.now) }
        ensures step { IfOk result (λ n. Makes (Added (Delivered (client_of seat.old.number) (record { items = bytes.now }) n ∷ []))
            self.old self.new seat.old seat.new) }
        ensures free { OnOk result (first_refusal (deliver_rows self.old (client_of seat.old.number) bytes.now) ≡ None) }
        ensures why { IfErr result (λ why.
            IsWhyDelivery (first_refusal (deliver_rows self.old (client_of seat.old.number) bytes.now)) why) }
        ensures refused { IfErr result (λ why. AfterRefusedDelivery (client_of seat.old.number) (record { items = bytes.now }) why
            self.old self.new seat.old seat.new) }
    {
        let client = self.client_number(seat);
        let before = self.record.history().len();
        let word_full = self.is_word_full();
        match self.record.deliver(client, bytes, word_full) {
            Ok(number) => {
                tell(&self.record, before, &mut self.seats, clock, seat);
                Ok(number)
            }
            Err(Refusal::Full) => {
                tell(&self.record, before, &mut self.seats, clock, seat);
                Err(Refusal::Full)
            }
            Err(why) => Err(why),
        }
    }
}
