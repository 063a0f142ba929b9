//! The text of a checkpoint, on its way to the backup.
ghost use Rattle.std.specs.Prelude.{◌≡◌, IfOk};
ghost use Rattle.checkpoint_stream.specs.ReadBack.{ReadsBack};
ghost use Rattle.checkpoint_stream.specs.Text.{text};
ghost use Rattle.pair_book.specs.Packets.{IsTextOf};
ghost use Rattle.pair_book.specs.internal.SharedBytes.{bytes_of};

use crate::shared_bytes::SharedBytes;
use checkpoint_stream::encode;
use epoch_snapshot::Checkpoint;
use memory_wanted::{MemoryWanted, from_slice};
use std::alloc::Global;
use std::marker::Model;
use std::sync::Arc;

/// The text of one checkpoint, with its generation and number, under which it reads back. Contracts see it as a `PacketState` of the specs.
///
/// The text is shared: who is handed a packet gets a handle to it, and no byte is copied.
#[derive(Drop)]
pub struct TextPacket {
    alloc: Global,
    generation: u64,
    number: u64,
    text: SharedBytes,
}

impl Model for TextPacket {
    ghost use Rattle.pair_book.specs.Packets.{PacketState, IsTextOf};
    ghost use Rattle.pair_book.specs.internal.SharedBytes.{bytes_of};

    ghost Value = { PacketState };

    ghost view = { λ p. record { generation = p.generation; number = p.number; text = bytes_of p.text } };

    ghost invariant = { λ p. IsTextOf p.generation p.number (bytes_of p.text) };
}

impl TextPacket {
    /// The packet of a checkpoint of version 2, as the caller knows.
    ///
    /// # Errors
    ///
    /// [`MemoryWanted`] where the room for its text can't be had.
    pub fn new(alloc: Global, checkpoint: &Checkpoint) -> Result<TextPacket, MemoryWanted>
        requires { checkpoint.now.version ≡ 2 }
        ensures generation { IfOk result (λ p. p.generation ≡ checkpoint.now.generation) }
        ensures number { IfOk result (λ p. p.number ≡ checkpoint.now.number) }
        ensures text { IfOk result (λ p. p.text ≡ text checkpoint.now) }
        ensures read { IfOk result (λ p. ReadsBack checkpoint.now p.text) }
    {
        let text = encode(alloc, checkpoint)?;
        Ok(TextPacket {
            alloc,
            generation: checkpoint.generation(),
            number: checkpoint.number(),
            text: shared(alloc, text),
        })
    }

    /// The checkpoint's generation.
    pub fn generation(&self) -> u64
        ensures value { result ≡ self.now.generation }
        // What is true of every packet.
        ensures text { IsTextOf self.now.generation self.now.number self.now.text }
    {
        self.generation
    }

    /// The checkpoint's number in its generation.
    pub fn number(&self) -> u64
        ensures { result ≡ self.now.number }
    {
        self.number
    }

    /// The checkpoint's text.
    pub fn bytes(&self) -> &[u8]
        ensures { result.now ≡ self.now.text }
    {
        bytes(&self.text)
    }

    /// One more handle to the same text. No byte is copied, but where there are as many handles as can be counted, or the place for the
    /// count was refused when the packet was made.
    ///
    /// # Errors
    ///
    /// [`MemoryWanted`] where the room for such a copy can't be had.
    pub fn share(&self) -> Result<TextPacket, MemoryWanted>
        ensures { IfOk result (λ p. p ≡ self.now) }
    {
        Ok(TextPacket {
            alloc: self.alloc,
            generation: self.generation,
            number: self.number,
            text: one_more(self.alloc, &self.text)?,
        })
    }

    /// A handle to the text, where one can be had without a copy: all but always.
    pub(crate) fn handle(&self) -> Option<Arc<Vec<u8>, Global>> {
        let SharedBytes::Shared(handle) = &self.text else {
            return None;
        };
        match Arc::try_clone(handle) {
            Ok(other) => Some(other),
            Err(_) => None,
        }
    }
}

/// A handle to these bytes.
fn shared(alloc: Global, bytes: Vec<u8>) -> SharedBytes
    ensures { bytes_of result ≡ bytes.items }
{
    match Arc::new(alloc, bytes) {
        Ok(handle) => SharedBytes::Shared(handle),
        Err(refused) => SharedBytes::Own(refused.value),
    }
}

/// One more handle, or else a copy.
fn one_more(alloc: Global, text: &SharedBytes) -> Result<SharedBytes, MemoryWanted>
    ensures { IfOk result (λ t. bytes_of t ≡ bytes_of text.now) }
{
    if let SharedBytes::Shared(handle) = text {
        if let Ok(other) = Arc::try_clone(handle) {
            return Ok(SharedBytes::Shared(other));
        }
    }
    Ok(SharedBytes::Own(from_slice(alloc, bytes(text))?))
}

/// The bytes behind a handle.
fn bytes(text: &SharedBytes) -> &[u8]
    ensures { result.now ≡ bytes_of text.now }
{
    match text {
        SharedBytes::Shared(handle) => handle.as_slice(),
        SharedBytes::Own(bytes) => bytes,
    }
}
