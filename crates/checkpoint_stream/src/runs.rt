//! Units of one kind that are taken one after another: the head's numbers, and the blocks of a page.

ghost use Rattle.std.specs.Prelude.{◌≡◌, ◌<◌, ◌≤◌, false, [], length, take, IfOk, IsTrue, OnErr};
ghost use Rattle.checkpoint_stream.specs.declared.place.Place.TheVariants.{Head};
ghost use Rattle.checkpoint_stream.specs.Readings.{Reading};
ghost use Rattle.checkpoint_stream.specs.Taken.{Takes, Extends, has_room, numbered};

use crate::parts::Parts;
use crate::place::{Place, after_number};
use crate::rules::{HEAD_NUMBERS, head_row, number_of, passes};
use epoch_snapshot::BLOCK_BYTES;
use guest_rules::Shape;
use memory_wanted::MemoryWanted;

/// The bytes of the widest number.
const WIDEST: usize = 8;

/// Where reading stands among the head's numbers, between two of them: how many are known, the last of them, and the offset of the next.
#[derive(Clone, Copy)]
pub struct Between {
    pub known: usize,
    pub before: u64,
    pub offset: u64,
}

/// Reads numbers of the head as long as they keep their rules and there are bytes for the widest one. Where reading stands is kept in
/// locals from number to number. Answers where that is then, and how many bytes were read. It isn't made part of its caller, whose loop over
/// units would be slower.
#[inline(never)]
fn read_numbers(
    shape: Shape,
    head: &mut [u64; HEAD_NUMBERS],
    start: Between,
    rest: &[u8],
) -> (Between, usize)
    requires { start.known ≤ 80 }
    ensures known { result.0.known ≤ 80 }
    ensures count { result.1 ≤ length rest.now }
    ensures read { (r : Reading)
        → Takes (numbered r shape head.old start) (take result.1 rest.now) (numbered r shape head.new result.0) }
{
    let mut known = start.known;
    let mut before = start.before;
    let mut offset = start.offset;
    let mut at = 0;
    while known < HEAD_NUMBERS && rest.len() - at >= WIDEST {
        let row = head_row(known);
        let width = row.width.bytes();
        let n = number_of(row.width, &rest[at..at + width]);
        if !passes(shape, row.rule, before, n) {
            break;
        }
        head[known] = n;
        known += 1;
        before = n;
        offset = offset.wrapping_add(width as u64);
        at += width;
    }
    let end = Between {
        known,
        before,
        offset,
    };
    (end, at)
}

impl Parts {
    /// Takes the numbers of the head that come next, as long as they keep their rules and there are bytes for the widest one; the one that
    /// comes then is left to `take`. Answers how many bytes.
    pub(crate) fn take_numbers(&mut self, rest: &[u8]) -> usize
        ensures count { result ≤ length rest.now }
        ensures read { Takes self.old (take result rest.now) self.new }
    {
        if !self.is_at_number() {
            return 0;
        }
        let start = Between {
            known: self.known,
            before: self.before,
            offset: self.offset,
        };
        let (end, bytes) = read_numbers(self.shape, &mut self.head, start, rest);
        self.known = end.known;
        self.before = end.before;
        self.offset = end.offset;
        self.place = after_number(end.known);
        bytes
    }

    /// Whether a number of the head comes next, of which no byte was taken.
    fn is_at_number(&self) -> bool
        ensures { IsTrue result → (self.now.place ≡ Head) × (self.now.partial ≡ []) }
    {
        self.filled == 0 && matches!(self.place, Place::Head)
    }

    /// Takes the blocks of a page that come next and are whole. Answers how many bytes. After an error some may have been taken.
    pub(crate) fn take_blocks(&mut self, rest: &[u8]) -> Result<usize, MemoryWanted>
        ensures count { IfOk result (λ n. n ≤ length rest.now) }
        ensures read { IfOk result (λ n. Takes self.old (take n rest.now) self.new) }
        ensures err { OnErr result (Extends self.old self.new) }
        ensures no_room { OnErr result (has_room self.old.place ≡ false) }
    {
        let mut at = 0;
        while rest.len() - at >= BLOCK_BYTES && self.filled == 0 {
            let Place::Block { left, page, more } = self.place else {
                return Ok(at);
            };
            self.take_block(left, page, more, &rest[at..at + BLOCK_BYTES])?;
            at += BLOCK_BYTES;
        }
        Ok(at)
    }
}
