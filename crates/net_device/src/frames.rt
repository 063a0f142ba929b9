//! The frames that a guest sent and that wait for the next cut.
ghost use Rattle.std.specs.Prelude.{◌≡◌, ◌+◌, ◌<◌, ◌≤◌, [], ◌∷◌, ◌++◌, All, IfOk, length, take, drop, replicate, vec_capacity};
ghost use Rattle.virtqueue.specs.Chains.{BuffersInside};
ghost use Rattle.virtqueue.specs.Parts.{readable_bytes, readable_len};
ghost use Rattle.net_device.specs.Frames.{IsFrame};
ghost use Rattle.net_device.specs.Limits.{shortest_frame, longest_frame, outbox_frames};

use crate::errors::OutboxError;
use arrayvec::ArrayVec;
use memory_wanted::with_capacity;
use std::alloc::Global;
use std::marker::Model;
use virtqueue::{Chain, GuestRam, Queue};

/// An Ethernet frame, at most 1514 bytes. One that an outbox gives out has at least 14.
pub type Frame = ArrayVec<u8, 1514>;

/// How many frames an outbox holds at most.
const OUTBOX_FRAMES: usize = 256;

/// The frames that a guest sent since the last cut, in order. Its 256 places are reserved when it is made.
#[derive(Drop)]
pub struct Outbox {
    frames: Vec<Frame>,
}

impl Model for Outbox {
    ghost use Rattle.std.specs.Prelude.{List, ℕ, ◌≤◌, All, length, vec_capacity};
    ghost use Rattle.arrayvec.specs.ArrayVec.{ArrayVec};
    ghost use Rattle.net_device.specs.Frames.{IsFrame};
    ghost use Rattle.net_device.specs.Limits.{outbox_frames};

    ghost Value = { List (ArrayVec ℕ) };

    ghost view = { λ o. o.frames.items };

    ghost invariant = { λ o. (outbox_frames ≤ vec_capacity o.frames) × (length o.frames.items ≤ outbox_frames)
        × All IsFrame o.frames.items };
}

impl Outbox {
    /// An empty outbox. The one error is `NoMemory`.
    pub fn new(alloc: Global) -> Result<Outbox, OutboxError>
        ensures { IfOk result (λ outbox. outbox ≡ []) }
    {
        let frames = with_capacity(alloc, OUTBOX_FRAMES)?;
        Ok(Outbox { frames })
    }

    /// How many frames there are, at most 256.
    #[inline]
    pub fn len(&self) -> usize
        ensures value { result ≡ length self.now }
        ensures most { result ≤ outbox_frames }
    {
        self.frames.len()
    }

    /// The frames, in order: at most 256, each of 14 to 1514 bytes.
    pub fn frames(&self) -> &[Frame]
        ensures value { result.now ≡ self.now }
        ensures frames { All IsFrame result.now }
        ensures most { length result.now ≤ outbox_frames }
    {
        self.frames.as_slice()
    }

    /// Puts a frame of these bytes last. It takes no memory.
    pub fn push(&mut self, bytes: &[u8])
        requires room { length self.old < outbox_frames }
        requires long { shortest_frame ≤ length bytes.now }
        requires short { length bytes.now ≤ longest_frame }
        ensures { self.new ≡ self.old ++ record { items = bytes.now } ∷ [] }
    {
        let mut frame = Frame::new();
        if frame.try_extend_from_slice(bytes).is_err() {
            unreachable!();
        }
        if self.frames.push(frame).is_err() {
            unreachable!();
        }
    }

    /// Puts a frame last whose bytes are `len` of a chain's readable ones, joined in order, from the one at `at` on.
    /// They are copied once, from RAM to the frame's place.
    pub(crate) fn push_readable<R: GuestRam>(&mut self, ram: &R, chain: &Chain, at: u64, len: usize)
        requires room { length self.old < outbox_frames }
        requires long { shortest_frame ≤ len }
        requires short { len ≤ longest_frame }
        requires inside { BuffersInside (length (R.bytes ram.now)) chain.now.parts }
        requires fits { at + len ≤ readable_len chain.now.parts }
        ensures { self.new ≡ self.old ++ record { items = take len (drop at (readable_bytes (R.bytes ram.now) chain.now.parts)) } ∷ [] }
    {
        let place = self.len();
        push_blank(&mut self.frames, len);
        gather_into(ram, chain, at, &mut self.frames[place]);
    }

    /// Takes every frame out. The places stay reserved.
    pub fn clear(&mut self)
        ensures { self.new ≡ [] }
    {
        self.frames.clear();
    }
}

/// Puts a frame of `len` zero bytes last.
fn push_blank(frames: &mut Vec<Frame>, len: usize)
    requires room { length frames.old.items < vec_capacity frames.old }
    requires short { len ≤ longest_frame }
    ensures items { frames.new.items ≡ frames.old.items ++ record { items = replicate len 0 } ∷ [] }
    ensures capacity { vec_capacity frames.old ≤ vec_capacity frames.new }
{
    if frames.push(blank(len)).is_err() {
        unreachable!();
    }
}

/// A frame of `len` zero bytes.
fn blank(len: usize) -> Frame
    requires { len ≤ longest_frame }
    ensures { result ≡ record { items = replicate len 0 } }
{
    let mut frame = Frame::from([0; 1514]);
    frame.truncate(len);
    frame
}

/// Copies bytes of a chain's readable buffers, joined in order, from the one at `at` on, into the whole of a frame.
fn gather_into<R: GuestRam>(ram: &R, chain: &Chain, at: u64, frame: &mut Frame)
    requires inside { BuffersInside (length (R.bytes ram.now)) chain.now.parts }
    requires fits { at + length frame.old.items ≤ readable_len chain.now.parts }
    ensures value { frame.new ≡ record {
      items = take (length frame.old.items)
          (drop at (readable_bytes (R.bytes ram.now) chain.now.parts));
    } }
    ensures size { length frame.new.items ≡ length frame.old.items }
{
    Queue::gather(chain, ram, at, frame.as_mut_slice());
}
