//! The limit of sectors.
ghost use Rattle.std.specs.Prelude.{◌≡◌};
ghost use Rattle.block_device.specs.Limits.{sector_bytes};
ghost use Rattle.block_device.specs.declared.storage.TheConstants.{SECTOR_BYTES};

/// The constant is the number that the rules name. Definitions and clauses cite that number, and never the constant.
pub fn limits_are_the_rules()
    ensures sector_bytes { SECTOR_BYTES ≡ sector_bytes }
{}
