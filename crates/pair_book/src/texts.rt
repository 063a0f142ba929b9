//! The texts of the pending checkpoints.
ghost use Rattle.std.specs.Prelude.{◌≡◌, ◌<◌, ◌≤◌, length, slice_get, IfOk, OnOk, OnErr, vec_capacity};
ghost use Rattle.pair_record.specs.Limits.{most_pending};
ghost use Rattle.pair_book.specs.Packets.{no_texts};
ghost use Rattle.pair_book.specs.Texts.{is_after, first_packet_after, or_first, next_of, given_after, above, texts_above, with_text};

use crate::packet::TextPacket;
use memory_wanted::{MemoryWanted, with_capacity};
use std::alloc::Global;
use std::marker::Model;

/// How many checkpoints are pending at most.
pub(crate) const MOST_PENDING: usize = 4;

/// The packets of the pending checkpoints, by rising number, and the number of the one that was given last in this generation. The places
/// of all are reserved at the start: of the calls only [`Texts::next`] may want memory.
#[derive(Drop)]
pub(crate) struct Texts {
    packets: Vec<TextPacket>,
    given: Option<u64>,
}

impl Model for Texts {
    ghost use Rattle.std.specs.Prelude.{◌≤◌, vec_capacity};
    ghost use Rattle.pair_record.specs.Limits.{most_pending};
    ghost use Rattle.pair_book.specs.Packets.{TextsState};

    ghost Value = { TextsState };

    ghost view = { λ t. record { packets = t.packets.items; given = t.given } };

    ghost invariant = { λ t. most_pending ≤ vec_capacity t.packets };
}

impl Texts {
    /// No checkpoint is pending.
    pub(crate) fn none(alloc: Global) -> Result<Texts, MemoryWanted>
        ensures { IfOk result (λ t. t ≡ no_texts) }
    {
        Ok(Texts {
            packets: with_capacity(alloc, MOST_PENDING)?,
            given: None,
        })
    }

    /// The packets, the least number first.
    pub(crate) fn packets(&self) -> &[TextPacket]
        ensures { result.now ≡ self.now.packets }
    {
        &self.packets
    }

    /// One more checkpoint is pending: it was sealed with this packet's text.
    pub(crate) fn push(&mut self, packet: TextPacket)
        requires { length self.old.packets < most_pending }
        ensures { self.new ≡ with_text self.old packet }
    {
        self.packets.push(packet).unwrap();
    }

    /// Those up to this number are no longer pending.
    pub(crate) fn drop_to(&mut self, number: u64)
        ensures { self.new ≡ texts_above number self.old }
    {
        leave_to(&mut self.packets, number);
    }

    /// None is pending any more, and this generation gives no other.
    pub(crate) fn clear(&mut self)
        ensures { self.new ≡ no_texts }
    {
        self.packets.clear();
        self.given = None;
    }

    /// The least pending one above the one given last, else the least.
    ///
    /// # Errors
    ///
    /// [`MemoryWanted`] as in [`TextPacket::share`].
    pub(crate) fn next(&mut self) -> Result<Option<TextPacket>, MemoryWanted>
        ensures done { IfOk result (λ p. p ≡ next_of self.old) }
        ensures given { OnOk result (self.new ≡ given_after (next_of self.old) self.old) }
        ensures err { OnErr result (self.new ≡ self.old) }
        ensures some { OnErr result (0 < length self.old.packets) }
    {
        if self.packets.is_empty() {
            return Ok(None);
        }
        let place = place_of_next(&self.packets, self.given);
        let packet = self.packets[place].share()?;
        self.given = Some(packet.number());
        Ok(Some(packet))
    }
}

/// The first packets leave, up to this number.
fn leave_to(packets: &mut Vec<TextPacket>, number: u64)
    ensures items { packets.new.items ≡ above number packets.old.items }
    ensures capacity { vec_capacity packets.new ≡ vec_capacity packets.old }
{
    for _ in 0..packets.len() {
        if packets[0].number() > number {
            break;
        }
        let _left = packets.remove(0);
    }
}

/// Whether this number comes after the one given last.
fn is_after(given: Option<u64>, number: u64) -> bool
    ensures { result ≡ is_after given number }
{
    match given {
        None => true,
        Some(last) => last < number,
    }
}

/// Where the one stands that is given next.
fn place_of_next(packets: &[TextPacket], given: Option<u64>) -> usize
    requires some { 0 < length packets.now }
    ensures within { result < length packets.now }
    ensures next { slice_get packets.now result ≡ or_first (first_packet_after given packets.now) packets.now }
{
    for place in 0..packets.len() {
        if is_after(given, packets[place].number()) {
            return place;
        }
    }
    0
}
