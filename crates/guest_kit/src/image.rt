//! An image in the making: words at its start, and data at their addresses.

ghost use Rattle.std.specs.Prelude.{◌≡◌, ◌+◌, ◌-◌, ◌*◌, ◌^◌, ◌<◌, ◌≤◌, ◌++◌, IfOk, OnOk, length, vec_len};
ghost use Rattle.guest_kit.specs.Image.{word_bytes, with_part};
ghost use Rattle.guest_kit.specs.Rings.{descriptor};

use memory_wanted::{MemoryWanted, extend_from_slice, resize};

/// The first address of RAM, where an image begins.
const RAM: u64 = 0x8000_0000;

/// Puts words behind an image, each with its low byte first.
pub(crate) fn push_words(image: &mut Vec<u8>, words: &[u32]) -> Result<(), MemoryWanted>
    ensures items { OnOk result (image.new.items ≡ image.old.items ++ word_bytes words.now) }
    ensures len { OnOk result (vec_len image.new ≡ vec_len image.old + 4 * length words.now) }
{
    for word in words {
        extend_from_slice(image, &word.to_le_bytes())?;
    }
    Ok(())
}

/// Puts bytes behind an image, at their address, with zeros up to there.
#[tactic(auto, unfolding(crate::specs::Image::with_part))]
pub(crate) fn place(image: &mut Vec<u8>, address: u64, bytes: &[u8]) -> Result<(), MemoryWanted>
    requires behind { RAM + vec_len image.old ≤ address }
    requires near { address < RAM + 2 ^ 32 }
    ensures items { OnOk result (image.new.items ≡ with_part image.old.items (record { address = address; bytes = bytes.now })) }
    ensures len { OnOk result (RAM + vec_len image.new ≡ address + length bytes.now) }
{
    resize(image, (address - RAM) as usize, 0)?;
    extend_from_slice(image, bytes)?;
    Ok(())
}

/// A descriptor of a virtqueue, as its 16 bytes.
#[tactic(auto, unfolding(crate::specs::Rings::descriptor))]
pub(crate) fn descriptor(address: u64, len: u32, flags: u16, next: u16) -> [u8; 16]
    ensures { result ≡ descriptor address len flags next }
{
    let [a0, a1, a2, a3, a4, a5, a6, a7] = address.to_le_bytes();
    let [l0, l1, l2, l3] = len.to_le_bytes();
    let [f0, f1] = flags.to_le_bytes();
    let [n0, n1] = next.to_le_bytes();
    [
        a0, a1, a2, a3, a4, a5, a6, a7, l0, l1, l2, l3, f0, f1, n0, n1,
    ]
}
