//! The limits of an image.
ghost use Rattle.std.specs.Prelude.{◌≡◌};
ghost use Rattle.backup_image.specs.Limits.{max_kept, number_limit};

/// Of how many commits, the last ones, the frames are kept.
pub const MAX_KEPT: usize = 4;

/// Frame numbers are below this, 2^62.
pub const NUMBER_LIMIT: u64 = 1 << 62;

/// Each constant is the number that the rules name. Definitions and clauses cite those numbers, and never the constants.
pub fn limits_are_the_rules()
    ensures max_kept { MAX_KEPT ≡ max_kept }
    ensures number_limit { NUMBER_LIMIT ≡ number_limit }
{}
