//! The limit of guest addresses.
ghost use Rattle.std.specs.Prelude.{◌≡◌};
ghost use Rattle.virtqueue.specs.Limits.{ram_start};
ghost use Rattle.virtqueue.specs.declared.memory.TheConstants.{RAM_START};

/// The constant is the number that the rules name. Definitions and clauses cite that number, and never the constant.
pub fn limits_are_the_rules()
    ensures ram_start { RAM_START ≡ ram_start }
{}
