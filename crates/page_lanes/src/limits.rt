//! The limits of the kernels.
ghost use Rattle.std.specs.Prelude.{◌≡◌};
ghost use Rattle.page_lanes.specs.Limits.{page_size, block_size};
ghost use Rattle.page_lanes.specs.declared.pages.TheConstants.{PAGE_SIZE};
ghost use Rattle.page_lanes.specs.declared.blocks.TheConstants.{BLOCK_SIZE};

/// Each constant is the number that the rules name. Definitions and clauses cite those numbers, and never the constants.
pub fn limits_are_the_rules()
    ensures page_size { PAGE_SIZE ≡ page_size }
    ensures block_size { BLOCK_SIZE ≡ block_size }
{}
