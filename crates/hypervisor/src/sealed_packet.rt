//! A packet that no channel alters.
ghost use Rattle.std.specs.Prelude.{◌≡◌};

use growing_history::{Badge, Pair};
use pair_book::TextPacket;
use std::marker::Model;

/// A packet of a text that was sealed, with the badge of a seat that has seen so. Its type keeps that, whatever it crosses: its bytes are
/// those of the checkpoint that was sealed under its generation and number. Contracts see the packet, and what the badge tells of.
pub struct SealedPacket<P: Pair> {
    pub(crate) packet: TextPacket,
    pub(crate) badge: Badge<P>,
}

// Proved here, and not in each crate above that keeps one in a `Box` or an `Option`.
impl<P: Pair> Drop for SealedPacket<P> {
    fn drop(self) {
        let SealedPacket {
            packet: _,
            badge: _,
        } = self;
    }
}

impl<P: Pair> Model for SealedPacket<P> {
    ghost use Rattle.pair_book.specs.Texts.{WasSealed};
    ghost use Rattle.hypervisor.specs.FirstBackups.{SealedState, sealed_state};

    ghost Value = { SealedState };

    ghost view = { λ s. sealed_state s.packet s.badge };

    ghost invariant = { λ s. WasSealed s.badge s.packet };
}

impl<P: Pair> SealedPacket<P> {
    /// What was sealed.
    pub fn packet(&self) -> &TextPacket
        ensures { result.now ≡ self.now.packet }
    {
        &self.packet
    }
}
