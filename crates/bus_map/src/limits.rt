//! The limit of the address map.
ghost use Rattle.std.specs.Prelude.{◌≡◌};
ghost use Rattle.bus_map.specs.Limits.{ram_base};
ghost use Rattle.bus_map.specs.declared.address_map.TheConstants.{RAM_BASE};

/// The constant is the number that the rules name. Definitions and clauses cite that number, and never the constant.
pub fn limits_are_the_rules()
    ensures ram_base { RAM_BASE ≡ ram_base }
{}
