//! The frames of a checkpoint: their count, and of each its length and its bytes. With the count their places are reserved, so that none of
//! them takes memory, and a reader never goes back from one.

ghost use Rattle.std.specs.Prelude.{◌≡◌, ◌<◌, ◌≤◌, ◌+◌, ◌++◌, ◌∷◌, [], length, take, vec_capacity, OnOk, OnErr};
ghost use Rattle.checkpoint_stream.specs.Readings.{most_frames, moved, frame_count_judged, frame_length_judged, frame_judged};
ghost use Rattle.checkpoint_stream.specs.Taken.{Takes};
ghost use Rattle.checkpoint_stream.specs.declared.place.Place.TheVariants.{FrameCount, FrameLength, FrameBytes};

use crate::parts::Parts;
use crate::place::{Place, frames_due};
use frame_list::Frame;
use memory_wanted::MemoryWanted;
use std::mem;

/// How many frames a delta carries at most: as many as an outbox holds.
const MOST_FRAMES: u32 = 256;

/// The bytes of the shortest frame, and of the longest.
const SHORTEST: u32 = 14;

const LONGEST: u32 = 1514;

impl Parts {
    /// How many frames the checkpoint that is being read may carry.
    fn most_frames(&self) -> u32
        ensures { result ≡ most_frames self.now }
    {
        if self.is_full() { 0 } else { MOST_FRAMES }
    }

    /// Takes how many frames there are, and reserves their places.
    #[tactic(auto, unfolding(crate::specs::Readings::moved_if))]
    pub(crate) fn take_frame_count(&mut self, n: u32) -> Result<(), MemoryWanted>
        requires { self.old.place ≡ FrameCount }
        ensures ok { OnOk result (self.new ≡ frame_count_judged self.old n) }
        ensures err { OnErr result (self.new ≡ self.old) }
    {
        if n > self.most_frames() {
            self.fail();
            return Ok(());
        }
        self.frames.reserve(n)?;
        self.offset = self.offset.wrapping_add(4);
        self.place = frames_due(n);
        self.filled = 0;
        self.part.clear();
        Ok(())
    }

    /// Takes a frame's length.
    #[tactic(auto, unfolding(crate::specs::Readings::moved_if))]
    pub(crate) fn take_frame_length(&mut self, left: u32, n: u32)
        requires { self.old.place ≡ FrameLength left }
        ensures { self.new ≡ frame_length_judged self.old left n }
    {
        if n < SHORTEST || n > LONGEST {
            self.fail();
            return;
        }
        self.offset = self.offset.wrapping_add(4);
        self.place = Place::FrameBytes { left, len: n };
        self.filled = 0;
        self.part.clear();
    }

    /// Takes bytes of the frame that comes next, and the frame where they complete it. Answers how many: at least one.
    pub(crate) fn take_frame(&mut self, left: u32, len: u32, rest: &[u8]) -> usize
        requires place { self.old.place ≡ FrameBytes left len }
        requires some { 0 < length rest.now }
        ensures count { (0 < result) × (result ≤ length rest.now) }
        ensures read { Takes self.old (take result rest.now) self.new }
    {
        let held = self.part.len();
        if held == 0 && len as usize <= rest.len() {
            self.keep_bytes(left, len, &rest[..len as usize]);
            return len as usize;
        }
        let taken = (len as usize - held).min(rest.len());
        put_in(&mut self.part, &rest[..taken]);
        if held + taken == len as usize {
            let frame = mem::replace(&mut self.part, Frame::new());
            self.keep_bytes(left, len, frame.as_slice());
        }
        taken
    }

    /// Keeps the frame of these bytes, which are as many as were due.
    #[tactic(auto, unfolding(crate::specs::Readings::frame_judged))]
    fn keep_bytes(&mut self, left: u32, len: u32, bytes: &[u8])
        requires place { self.old.place ≡ FrameBytes left len }
        requires whole { length bytes.now ≡ len }
        ensures { self.new ≡ frame_judged self.old left len bytes.now }
    {
        self.frames.push_reserved(bytes);
        self.offset = self.offset.wrapping_add(u64::from(len));
        self.place = frames_due(left);
        self.filled = 0;
        self.part.clear();
    }
}

/// Puts bytes at the end of a frame that has room for them.
fn put_in(frame: &mut Frame, bytes: &[u8])
    requires { length frame.old.items + length bytes.now ≤ 1514 }
    ensures { frame.new.items ≡ frame.old.items ++ bytes.now }
{
    if frame.try_extend_from_slice(bytes).is_err() {
        unreachable!();
    }
}
