//! The plainest guest memory.

ghost use Rattle.std.specs.Prelude.{◌≡◌, [], replicate};

use crate::memory::GuestRam;

/// RAM of one page of 4096 bytes, in an array: the least that a queue needs, for tests and as an example of [`GuestRam`].
#[derive(Drop)]
pub struct PlainRam {
    /// The bytes by their places; the first has the guest address [`RAM_START`](crate::RAM_START).
    pub bytes: [u8; 4096],
}

impl PlainRam {
    /// RAM of zeros.
    pub fn new() -> PlainRam
        ensures { result.bytes ≡ replicate 4096 0 }
    {
        PlainRam { bytes: [0; 4096] }
    }
}

impl GuestRam for PlainRam {
    ghost bytes = { λ ram. ram.bytes };

    ghost fixed = { λ _. [] };

    fn size(&self) -> usize {
        self.bytes.len()
    }

    fn read(&self, place: usize, into: &mut [u8]) {
        into.copy_from_slice(&self.bytes[place..place + into.len()]);
    }

    fn write(&mut self, place: usize, from: &[u8]) {
        self.bytes[place..place + from.len()].copy_from_slice(from);
    }
}
