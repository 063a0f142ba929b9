//! The texts of the pending checkpoints: a row of at most four, with room from the start.
ghost use Rattle.std.specs.Prelude.{◌≡◌, ◌≤◌, [], IfOk, vec_capacity};
ghost use Rattle.pair_record.specs.Limits.{most_pending};

use memory_wanted::{MemoryWanted, with_capacity};
use std::alloc::Global;

/// At most four checkpoints are pending.
pub(crate) const MOST_PENDING: usize = 4;

/// Room for the texts of four checkpoints.
pub(crate) fn room(alloc: Global) -> Result<Vec<Vec<u8>>, MemoryWanted>
    ensures none { IfOk result (λ texts. texts.items ≡ []) }
    ensures room { IfOk result (λ texts. most_pending ≤ vec_capacity texts) }
{
    with_capacity(alloc, MOST_PENDING)
}
