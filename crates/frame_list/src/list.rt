//! A list of frames.
ghost use Rattle.std.specs.Prelude.{◌≡◌, ◌+◌, ◌<◌, ◌≤◌, ◌==◌, ◌∷◌, ◌++◌, [], length, take, slice_index_or, IfOk, OnOk, OnErr};

use crate::spans::{Span, put_last};
use arrayvec::ArrayVec;
use memory_wanted::{MemoryWanted, reserve, with_capacity};
use std::alloc::Global;
use std::default::MadeWith;
use std::marker::Model;

/// An Ethernet frame, at most 1514 bytes.
pub type Frame = ArrayVec<u8, 1514>;

/// The most bytes of a frame.
const LONGEST: usize = 1514;

/// A list of frames, each of at most 1514 bytes. Contracts see the frames, and how many more are sure to find room.
#[derive(Drop)]
pub struct FrameList {
    bytes: Vec<u8>,
    spans: Vec<Span>,
    places: usize,
}

impl Model for FrameList {
    ghost use Rattle.frame_list.specs.Listed.{Listed};
    ghost use Rattle.frame_list.specs.internal.Spans.{listed_in, IsListed};
    ghost use Rattle.std.specs.Prelude.{vec_capacity};

    ghost Value = { Listed };

    ghost view = { λ l. listed_in l.bytes.items l.spans.items l.places };

    ghost invariant = { λ l. IsListed l.bytes.items l.spans.items l.places (vec_capacity l.bytes) (vec_capacity l.spans) };
}

impl FrameList {
    /// No frames.
    pub fn new(alloc: Global) -> FrameList
        ensures { result.items ≡ [] }
    {
        FrameList {
            bytes: Vec::new(alloc),
            spans: Vec::new(alloc),
            places: 0,
        }
    }

    /// Copies of these frames, in memory of their own size.
    ///
    /// # Errors
    ///
    /// [`MemoryWanted`] where that memory can't be had.
    pub fn copies(alloc: Global, frames: &[Frame]) -> Result<FrameList, MemoryWanted>
        ensures { IfOk result (λ list. list.items ≡ frames.now) }
    {
        let mut bytes = with_capacity(alloc, size_of(frames))?;
        let mut spans = with_capacity(alloc, frames.len())?;
        for frame in frames {
            // Nothing is asked for here: there is room for all of them.
            reserve(&mut bytes, frame.len())?;
            reserve(&mut spans, 1)?;
            put_last(&mut bytes, &mut spans, frame.as_slice());
        }
        Ok(FrameList {
            bytes,
            spans,
            places: 0,
        })
    }

    /// Makes room for so many frames more, however long they are.
    ///
    /// # Errors
    ///
    /// [`MemoryWanted`] where that room was missing and can't be had. The list is as before.
    pub fn reserve(&mut self, frames: u32) -> Result<(), MemoryWanted>
        ensures items { self.new.items ≡ self.old.items }
        ensures ok { OnOk result (frames ≤ self.new.places) }
        ensures err { OnErr result (self.new ≡ self.old) }
    {
        reserve(&mut self.bytes, frames as usize * LONGEST)?;
        reserve(&mut self.spans, frames as usize)?;
        self.places = frames as usize;
        Ok(())
    }

    /// Puts the frame of these bytes last, in the room that was made.
    pub fn push_reserved(&mut self, bytes: &[u8])
        requires short { length bytes.now ≤ 1514 }
        requires room { 0 < self.old.places }
        ensures items { self.new.items ≡ self.old.items ++ record { items = bytes.now } ∷ [] }
        ensures places { self.new.places + 1 ≡ self.old.places }
    {
        self.places -= 1;
        put_last(&mut self.bytes, &mut self.spans, bytes);
    }

    /// Only the first `len` frames stay.
    pub fn truncate(&mut self, len: usize)
        ensures items { self.new.items ≡ take len self.old.items }
        ensures places { self.new.places ≡ self.old.places }
    {
        self.spans.truncate(len);
    }

    /// How many frames there are.
    pub fn len(&self) -> usize
        ensures { result ≡ length self.now.items }
    {
        self.spans.len()
    }

    /// Whether there is none.
    pub fn is_empty(&self) -> bool
        ensures { result ≡ (length self.now.items == 0) }
    {
        self.spans.is_empty()
    }

    /// The bytes of the frame at this place, from 0, at most 1514.
    pub fn bytes(&self, at: usize) -> &[u8]
        requires { at < length self.now.items }
        ensures value { record { items = result.now } ≡ slice_index_or self.now.items at (record { items = result.now }) }
        ensures short { length result.now ≤ 1514 }
    {
        let span = self.spans[at];
        &self.bytes[span.start..span.end]
    }

    /// The frame at this place, from 0.
    pub fn frame(&self, at: usize) -> Frame
        requires { at < length self.now.items }
        ensures { result ≡ slice_index_or self.now.items at result }
    {
        let mut frame = Frame::new();
        if frame.try_extend_from_slice(self.bytes(at)).is_err() {
            unreachable!();
        }
        frame
    }
}

impl MadeWith<Global> for FrameList {
    ghost is_made_with = { λ l. l.items ≡ [] };

    fn made_with(alloc: Global) -> FrameList {
        FrameList::new(alloc)
    }
}

/// How many bytes these frames have together.
fn size_of(frames: &[Frame]) -> usize {
    let mut size = 0usize;
    for frame in frames {
        size = size.saturating_add(frame.len());
    }
    size
}
