//! What the sender of checkpoints calls.
ghost use Rattle.std.specs.Prelude.{◌≡◌, ◌↔◌, ◌<◌, [], None, length, map, drop, IfOk, OnOk, IfErr, OnErr, IfSome, IsNone};
ghost use Rattle.pair_record.specs.Window.{committed_count};
ghost use Rattle.growing_history.specs.LogState.{state_at};
ghost use Rattle.pair_book.specs.Calls.{IsWhy};
ghost use Rattle.pair_book.specs.Texts.{WasSealed, ArePending, next_of, given_after, next_why};

use crate::book::Book;
use crate::packet::TextPacket;
use growing_history::Pair;
use pair_record::{Event, Refusal, mode_refusal};

impl<P: Pair> Book<P> {
    /// The text of the pending checkpoint of the least number above the one given last in this generation, else of the least number;
    /// `None` exactly where none is pending. So a sender that calls again and again sends all of them, one after another, until they are
    /// acknowledged. No byte is copied, and no step is made.
    ///
    /// # Errors
    ///
    /// [`Refusal::Stopped`] where the primary has stopped; [`Refusal::NotPaired`] where a node is alone. [`Refusal::NoMemory`] as in
    /// [`TextPacket::share`].
    pub fn next(&mut self) -> Result<Option<TextPacket>, Refusal>
        ensures done { IfOk result (λ packet. packet ≡ next_of self.old.texts) }
        ensures given { OnOk result (self.new ≡ record self.old { texts = given_after (next_of self.old.texts) self.old.texts }) }
        // It is of this generation, and was sealed under its number with its text.
        ensures sealed { IfOk result (λ packet. IfSome packet (λ p.
            (p.generation ≡ self.old.protocol.generation) × WasSealed self.old.steps p)) }
        ensures none { IfOk result (λ packet. IsNone packet ↔ (self.old.protocol.pending ≡ [])) }
        // What is true of every book: there is a packet of each pending checkpoint, and the numbers rise by 1. So the first is the least.
        ensures pending { ArePending self.old.steps self.old.protocol.generation self.old.protocol.window.to_acknowledge
            self.old.texts.packets }
        ensures count { length self.old.texts.packets ≡ length self.old.protocol.pending }
        // Those that aren't committed have the texts of the sealed epochs.
        ensures texts { map (λ p. p.text) (drop (committed_count self.old.protocol.window) self.old.texts.packets)
            ≡ map (λ e. e.text) (state_at P.start self.old.steps).sealed }
        ensures free { OnOk result (next_why self.old ≡ None) }
        ensures why { IfErr result (IsWhy (next_why self.old)) }
        // Memory is wanted only where something is pending.
        ensures memory { OnErr result (next_why self.old ≡ None → 0 < length self.old.protocol.pending) }
        ensures refused { OnErr result (self.new ≡ self.old) }
    {
        self.record.keep();
        if let Some(why) = mode_refusal(self.record.mode(), Event::Send) {
            return Err(why);
        }
        Ok(self.texts.next()?)
    }
}
