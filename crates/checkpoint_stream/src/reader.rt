//! The reader of a stream of checkpoints.

ghost use Rattle.std.specs.Prelude.{◌≡◌, ◌≢◌, ◌<◌, ◌≤◌, true, false, length, Err, IfOk, IfSome, IfNone};
ghost use Rattle.checkpoint_stream.specs.Readings.{begun, is_closed, is_whole};
ghost use Rattle.checkpoint_stream.specs.Sound.{change_in, whole_name};
ghost use Rattle.checkpoint_stream.specs.Answers.{FeedAnswers};
ghost use Rattle.checkpoint_stream.specs.Bounds.{IsBounded};
ghost use Rattle.checkpoint_stream.specs.Taken.{has_room};
ghost use Rattle.checkpoint_stream.specs.declared.errors.StreamError.TheVariants.{NoMemory};
ghost use Rattle.memory_wanted.specs.Wanted.{wanted};
ghost use Rattle.checkpoint_stream.specs.declared.place.Place.TheVariants.{Whole};

use crate::errors::StreamError;
use crate::parts::Parts;
use epoch_snapshot::Checkpoint;
use guest_rules::Shape;
use std::alloc::Global;
use std::marker::Model;

/// Reads a stream of checkpoints of machines of one shape, in whatever pieces its bytes come.
///
/// Contracts see it as a reading: what was read of the checkpoint that has begun, and which unit comes next.
pub struct Reader {
    parts: Parts,
}

// Proved here, and not in each crate above that keeps one in a `Box` or an `Option`.
impl Drop for Reader {
    fn drop(self) {
        let Reader { parts: _ } = self;
    }
}

impl Model for Reader {
    ghost use Rattle.checkpoint_stream.specs.Readings.{Reading};
    ghost use Rattle.checkpoint_stream.specs.Sound.{IsSound};

    ghost Value = { Reading };

    ghost view = { λ r. r.parts };

    ghost invariant = { λ r. IsSound r.parts };
}

impl Reader {
    /// A reader at the start of a stream. It takes no memory.
    pub fn new(alloc: Global, shape: Shape) -> Reader
        ensures { result ≡ begun shape 0 }
    {
        Reader {
            parts: Parts::new(alloc, shape),
        }
    }

    /// Takes bytes up to the end of the checkpoint that has begun: all of the piece, or those up to its last byte, and none while a whole
    /// checkpoint stands. Answers how many. Memory is taken for page and sector records whose bytes came, and for frames once their count
    /// came: 392 KB for 256 of them, the most that a checkpoint may have.
    ///
    /// # Errors
    ///
    /// [`StreamError::Malformed`] with the offset of the unit that breaks its rule, from the call that takes the unit's last byte, and from
    /// every later one. [`StreamError::NoMemory`] where a growth was really refused: the reader is as before the call. So nothing is
    /// refused memory from the count of frames on, nor while a whole checkpoint stands, nor after a unit that broke its rule.
    #[tactic(auto, using(crate::proofs::Feeding::taken_le, crate::proofs::Feeding::taken_some))]
    pub fn feed(&mut self, piece: &[u8]) -> Result<usize, StreamError>
        ensures answers { FeedAnswers self.old piece.now result self.new }
        ensures within { IfOk result (λ count. count ≤ length piece.now) }
        ensures some { is_closed self.old.place ≡ false → 0 < length piece.now → IfOk result (λ count. 0 < count) }
        ensures room { has_room self.old.place ≡ true → result ≢ Err (NoMemory wanted) }
    {
        let count = self.parts.feed(piece)?;
        match self.parts.failure() {
            Some(at) => Err(StreamError::Malformed(at)),
            None => Ok(count),
        }
    }

    /// The generation and the number of the checkpoint that was read whole; `None` where none stands whole.
    pub fn whole(&self) -> Option<(u64, u64)>
        ensures { result ≡ whole_name self.now }
    {
        if self.parts.is_whole() {
            Some(self.parts.name())
        } else {
            None
        }
    }

    /// The checkpoint that was read whole, and the next one begins; `None` where none stands whole.
    pub fn next(&mut self) -> Option<Checkpoint>
        ensures whole { IfSome result (λ c. (self.old.place ≡ Whole) × (c ≡ change_in self.old)
            × (self.new ≡ begun self.old.shape self.old.offset)) }
        ensures none { IfNone result ((is_whole self.old.place ≡ false) × (self.new ≡ self.old)) }
    {
        if !self.parts.is_whole() {
            return None;
        }
        Some(self.parts.take_checkpoint())
    }

    /// However many bytes came, and whatever they were, it holds no more than its shape says: of the checkpoint that has begun the numbers of
    /// the head, a record for each page and each sector at most, 256 frames at most, and a part of one unit.
    pub fn what_it_holds_is_bounded(&self)
        ensures { IsBounded self.now }
    {
        self.parts.widths();
    }
}
