//! Who sends checkpoints and gets acknowledgements.
ghost use Rattle.std.specs.Prelude.{◌≡◌, ◌↔◌, ◌<◌, [], None, length, IfOk, OnOk, IfErr, OnErr, IfSome, IsNone};
ghost use Rattle.std.specs.List.{Contains};
ghost use Rattle.pair_history.specs.Landings.{landings};
ghost use Rattle.pair_record.specs.declared.event.Reply.TheVariants as replies;
ghost use Rattle.pair_record.specs.Protocol.{let_go, ack_done};
ghost use Rattle.pair_record.specs.Record.{ports_after_ack};
ghost use Rattle.pair_book.specs.Calls.{IsWhy};
ghost use Rattle.pair_book.specs.Failures.{AddsAlone, ack_why, leaving_at};
ghost use Rattle.pair_book.specs.Texts.{WasSealed, next_of, given_after, next_why, texts_above};
ghost use Rattle.hypervisor.specs.Refusals.{next_refusals, ack_refusals};

use crate::losses::Loss;
use crate::sealed_packet::SealedPacket;
use crate::shared::Shared;
use growing_history::{Clock, Pair};
use pair_book::{Ack, Book, LandedCount, Refusal, TextPacket};
use std::sync::{Arc, Wait};

/// Who sends the checkpoints of a pair to its backup, and hands in what is acknowledged. It has no seat: what its calls do is said at the
/// book, by [`Book::next`] and [`Book::acked`].
pub struct Sender<P: Pair> {
    shared: Arc<Shared<P>>,
}

// Proved here, and not in each crate above that keeps one in a `Box` or an `Option`.
impl<P: Pair> Drop for Sender<P> {
    fn drop(self) {
        let Sender { shared: _ } = self;
    }
}

/// As [`Book::next`] says.
pub(crate) fn next<P: Pair>(book: &mut Book<P>) -> Result<Option<TextPacket>, Refusal>
    ensures among { IfErr result (Contains next_refusals) }
    ensures done { IfOk result (λ packet. packet ≡ next_of book.old.texts) }
    ensures given { OnOk result (book.new ≡ record book.old { texts = given_after (next_of book.old.texts) book.old.texts }) }
    ensures sealed { IfOk result (λ packet. IfSome packet (λ p.
        (p.generation ≡ book.old.protocol.generation) × WasSealed book.old.steps p)) }
    ensures none { IfOk result (λ packet. IsNone packet ↔ (book.old.protocol.pending ≡ [])) }
    ensures free { OnOk result (next_why book.old ≡ None) }
    ensures why { IfErr result (IsWhy (next_why book.old)) }
    ensures memory { OnErr result (next_why book.old ≡ None → 0 < length book.old.protocol.pending) }
    ensures refused { OnErr result (book.new ≡ book.old) }
{
    book.next()
}

/// As [`Book::acked`] says.
fn acked<P: Pair>(book: &mut Book<P>, clock: &Clock<P>, ack: Ack) -> Result<LandedCount, Refusal>
    ensures among { IfErr result (Contains ack_refusals) }
    ensures done { IfOk result (λ landed. (replies.Acked ack.generation ack.number landed.count, book.new.protocol)
        ≡ ack_done book.old.ports.boxes book.old.protocol ack.number) }
    ensures ports { OnOk result (book.new.ports ≡ ports_after_ack book.old.ports book.old.protocol ack.number) }
    ensures texts { OnOk result (book.new.texts ≡ texts_above ack.number book.old.texts) }
    ensures step { OnOk result (AddsAlone (landings book.old.ports.boxes (let_go book.old.ports.boxes book.old.protocol ack.number))
        book.old book.new) }
    ensures free { OnOk result (ack_why book.old ack ≡ None) }
    ensures why { IfErr result (IsWhy (ack_why book.old ack)) }
    ensures memory { OnErr result (ack_why book.old ack ≡ None → 0 < leaving_at book.old ack.number) }
    ensures refused { OnErr result (book.new ≡ book.old) }
{
    book.acked(clock, ack)
}

impl<P: Pair> Sender<P> {
    pub(crate) fn of(shared: Arc<Shared<P>>) -> Sender<P> {
        Sender { shared }
    }

    /// The text of the pending checkpoint of the least number above the one given last in this generation, else of the least; `None`
    /// exactly where none is pending. So who calls again and again sends all of them, one after another, until they are acknowledged.
    ///
    /// # Errors
    ///
    /// [`Refusal::Stopped`] where the primary has stopped; [`Refusal::NotPaired`] where a node is alone. [`Refusal::NoMemory`] where a copy
    /// of the text is wanted and can't be had, as [`TextPacket::share`] says.
    pub fn next<R: Wait>(&mut self, rt: &R) -> Result<Option<TextPacket>, Refusal>
        ensures { IfErr result (Contains next_refusals) }
    {
        let shared = &*self.shared;
        let mut held = shared.lock(rt);
        next(&mut *held)
    }

    /// As [`next`](Sender::next), over the line whose seat this is: that has then seen all the steps that were made, and the packet carries
    /// its badge.
    ///
    /// # Errors
    ///
    /// Those of `next`.
    pub fn next_over<R: Wait>(
        &mut self,
        rt: &R,
        line: &mut Loss<P>,
    ) -> Result<Option<SealedPacket<P>>, Refusal>
        ensures { IfErr result (Contains next_refusals) }
    {
        let shared = &*self.shared;
        let mut held = shared.lock(rt);
        line.next(&mut *held, shared.clock())
    }

    /// The backup has committed all checkpoints of the generation up to the acknowledged one: they are no longer pending, and their frames
    /// land. Answers what landed.
    ///
    /// # Errors
    ///
    /// In this order: [`Refusal::Stopped`] where the primary has stopped; [`Refusal::NotPaired`] where a node is alone; [`Refusal::Stale`]
    /// for another generation; [`Refusal::Gap`] beyond the last commit; [`Refusal::Exhausted`] where the history, or the word, would reach
    /// 2^62. [`Refusal::NoMemory`] where the room for the landings in the history can't be had. Nothing has changed then.
    pub fn acked<R: Wait>(&mut self, rt: &R, ack: Ack) -> Result<LandedCount, Refusal>
        ensures { IfErr result (Contains ack_refusals) }
    {
        let shared = &*self.shared;
        // The texts that are no longer pending are given back after the lock.
        let (answer, _texts) = {
            let mut held = shared.lock(rt);
            let texts = held.keep_texts();
            (acked(&mut *held, shared.clock(), ack), texts)
        };
        answer
    }
}
