//! The limit of pages.
ghost use Rattle.std.specs.Prelude.{◌≡◌};
ghost use Rattle.paged_memory.specs.Limits.{page_bytes};
ghost use Rattle.paged_memory.specs.declared.memory.TheConstants.{PAGE_BYTES};

/// The constant is the number that the rules name. Definitions and clauses cite that number, and never the constant.
pub fn limits_are_the_rules()
    ensures page_bytes { PAGE_BYTES ≡ page_bytes }
{}
