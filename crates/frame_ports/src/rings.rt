//! Small steps on one ring of frames, each with its effect on the list of its items.
ghost use Rattle.std.specs.Prelude.{◌≡◌, ◌<◌, ◌≤◌, [], ◌∷◌, ◌++◌, length, take, drop, remove, replicate, slice_get, IfOk};
ghost use Rattle.circular_buffer.specs.Buffer.{buffer};

use crate::limits::Frame;
use arrayvec::ArrayVec;
use circular_buffer::HeapCircularBuffer;
use memory_wanted::{MemoryWanted, push, ring, with_capacity};
use std::alloc::Global;

/// The frame of these bytes, of which there are at most 1514.
pub(crate) fn frame_of(bytes: &[u8]) -> Frame
    requires { length bytes.now ≤ 1514 }
    ensures { result.items ≡ bytes.now }
{
    let mut frame = ArrayVec::new();
    match frame.try_extend_from_slice(bytes) {
        Ok(()) => frame,
        Err(_) => unreachable!(),
    }
}

/// Puts an item last in a ring that has room for it.
pub(crate) fn put_last<T: Drop>(ring: &mut HeapCircularBuffer<T>, item: T)
    requires { length ring.old.items < ring.old.capacity }
    ensures { ring.new ≡ buffer (ring.old.items ++ item ∷ []) ring.old.capacity }
{
    match ring.try_push_back(item) {
        Ok(()) => {}
        Err(_) => unreachable!(),
    }
}

/// Puts these bytes into an empty frame, which has room for them.
fn fill(frame: &mut Frame, bytes: &[u8])
    requires few { length bytes.now ≤ 1514 }
    requires empty { frame.old.items ≡ [] }
    ensures { frame.new.items ≡ bytes.now }
{
    match frame.try_extend_from_slice(bytes) {
        Ok(()) => {}
        Err(_) => unreachable!(),
    }
}

/// Puts the frame of these bytes last in a ring that has room for it. They are copied once, to where the frame lies then.
pub(crate) fn put_frame(ring: &mut HeapCircularBuffer<Frame>, bytes: &[u8])
    requires room { length ring.old.items < ring.old.capacity }
    requires few { length bytes.now ≤ 1514 }
    ensures { ring.new ≡ buffer (ring.old.items ++ record { items = bytes.now } ∷ []) ring.old.capacity }
{
    let last = ring.len();
    put_last(ring, ArrayVec::new());
    if let Some(frame) = ring.get_mut(last) {
        fill(frame, bytes);
    }
}

/// Moves the first `count` items to the end, one by one.
fn rotate<T: Drop>(ring: &mut HeapCircularBuffer<T>, count: usize)
    requires within { count ≤ length ring.old.items }
    requires fits { length ring.old.items ≤ ring.old.capacity }
    ensures { ring.new ≡ buffer (drop count ring.old.items ++ take count ring.old.items) ring.old.capacity }
{
    for _ in 0..count {
        if let Some(item) = ring.pop_front() {
            put_last(ring, item);
        }
    }
}

/// Takes the item at `place`, from 0, out of a ring, and leaves the others in their order.
pub(crate) fn remove_at<T: Drop>(ring: &mut HeapCircularBuffer<T>, place: usize) -> Option<T>
    requires { length ring.old.items ≤ ring.old.capacity }
    ensures item { result ≡ slice_get ring.old.items place }
    ensures rest { ring.new ≡ buffer (remove ring.old.items place) ring.old.capacity }
{
    let len = ring.len();
    if place >= len {
        return None;
    }
    rotate(ring, place);
    let item = ring.pop_front();
    rotate(ring, len - place - 1);
    item
}

/// That many empty rings, with room for `capacity` items each.
pub(crate) fn rings<T: Drop>(
    alloc: Global,
    count: usize,
    capacity: usize,
) -> Result<Vec<HeapCircularBuffer<T>>, MemoryWanted>
    ensures { IfOk result (λ v. v.items ≡ replicate count (buffer [] capacity)) }
{
    let mut rings = with_capacity(alloc, count)?;
    for _ in 0..count {
        push(&mut rings, ring(alloc, capacity)?)?;
    }
    Ok(rings)
}
