//! The limits of blocks and of old checkpoints.
ghost use Rattle.std.specs.Prelude.{◌≡◌};
ghost use Rattle.epoch_snapshot.specs.Limits.{block_bytes, most_old_pages};
ghost use Rattle.epoch_snapshot.specs.declared.changes.TheConstants.{BLOCK_BYTES};
ghost use Rattle.epoch_snapshot.specs.declared.checkpoint.TheConstants.{MOST_OLD_PAGES};

/// Each constant is the number that the rules name. Definitions and clauses cite those numbers, and never the constants.
pub fn limits_are_the_rules()
    ensures block_bytes { BLOCK_BYTES ≡ block_bytes }
    ensures most_old_pages { MOST_OLD_PAGES ≡ most_old_pages }
{}
