//! Small steps on a vector that has room, each with its effect on the list of its items.
ghost use Rattle.std.specs.Prelude.{◌≡◌, ◌+◌, ◌<◌, ◌≤◌, [], ◌∷◌, ◌++◌, length, drop, vec_len, vec_capacity};

use crate::limits::Frame;
use arrayvec::ArrayVec;

/// Puts an item last in a vector that has room for it.
pub(crate) fn put_last<T: Drop>(items: &mut Vec<T>, item: T)
    requires { vec_len items.old < vec_capacity items.old }
    ensures items { items.new.items ≡ items.old.items ++ item ∷ [] }
    ensures room { vec_capacity items.old ≤ vec_capacity items.new }
{
    match items.push(item) {
        Ok(()) => {}
        Err(_) => unreachable!(),
    }
}

/// Drops the first `count` items.
pub(crate) fn drop_first<T: Drop>(items: &mut Vec<T>, count: usize)
    requires { count ≤ vec_len items.old }
    ensures items { items.new.items ≡ drop count items.old.items }
    ensures room { vec_capacity items.new ≡ vec_capacity items.old }
{
    let rest = items.len() - count;
    if rest > 0 {
        items.rotate_left(count);
    }
    items.truncate(rest);
}

/// A copy of a frame.
fn copy_of(frame: &Frame) -> Frame
    ensures { result ≡ frame.now }
{
    let mut copy = ArrayVec::new();
    match copy.try_extend_from_slice(frame.as_slice()) {
        Ok(()) => copy,
        Err(_) => unreachable!(),
    }
}

/// Puts copies of these frames last, in order, in a vector that has room for them.
pub(crate) fn put_copies(held: &mut Vec<Frame>, frames: &[Frame])
    requires { vec_len held.old + length frames.now ≤ vec_capacity held.old }
    ensures items { held.new.items ≡ held.old.items ++ frames.now }
    ensures room { vec_capacity held.old ≤ vec_capacity held.new }
{
    for frame in frames {
        put_last(held, copy_of(frame));
    }
}
