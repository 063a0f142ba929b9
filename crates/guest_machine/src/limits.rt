//! The limits of a machine.
ghost use Rattle.std.specs.Prelude.{◌≡◌};
ghost use Rattle.virtqueue.specs.Limits.{ram_start};
ghost use Rattle.bus_map.specs.Limits.{ram_base};
ghost use Rattle.guest_rules.specs.Limits.{stepping_frames};
ghost use Rattle.guest_machine.specs.declared.places.TheConstants.{RAM_BASE};
ghost use Rattle.guest_machine.specs.declared.machine.TheConstants.{STEPPING_FRAMES};

/// Each constant is the number that the rules name. Definitions and clauses cite those numbers, and never the constants.
pub fn limits_are_the_rules()
    ensures ram_base { RAM_BASE ≡ ram_base }
    ensures stepping_frames { STEPPING_FRAMES ≡ stepping_frames }

    // Memory begins for the queues where the address map has it.
    ensures ram_start { ram_start ≡ ram_base }
{}
