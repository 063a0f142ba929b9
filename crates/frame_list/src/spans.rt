//! Where frames lie among the bytes of a list.
ghost use Rattle.std.specs.Prelude.{◌≡◌, ◌+◌, ◌<◌, ◌≤◌, ◌∷◌, ◌++◌, [], length, vec_len, vec_capacity};

use memory_wanted::extend_from_slice;

/// The bytes of one frame: from `start` on, up to the one before `end`.
#[derive(Clone, Copy)]
pub(crate) struct Span {
    pub(crate) start: usize,
    pub(crate) end: usize,
}

/// Puts the bytes of a frame last, and where they lie, in the room that was made for both.
pub(crate) fn put_last(bytes: &mut Vec<u8>, spans: &mut Vec<Span>, frame: &[u8])
    requires bytes { vec_len bytes.old + length frame.now ≤ vec_capacity bytes.old }
    requires spans { vec_len spans.old < vec_capacity spans.old }
    ensures bytes { bytes.new.items ≡ bytes.old.items ++ frame.now }
    ensures spans { spans.new.items ≡ spans.old.items ++ record {
      start = length bytes.old.items;
      end = length bytes.old.items + length frame.now;
    } ∷ [] }
    ensures kept_bytes { vec_capacity bytes.old ≤ vec_capacity bytes.new }
    ensures kept_spans { vec_capacity spans.old ≤ vec_capacity spans.new }
{
    let start = bytes.len();
    if extend_from_slice(bytes, frame).is_err() {
        unreachable!();
    }
    spans.push_reserved(Span {
        start,
        end: bytes.len(),
    });
}
