//! The limits of frames and of the outbox.
ghost use Rattle.std.specs.Prelude.{◌≡◌};
ghost use Rattle.net_device.specs.Limits.{shortest_frame, longest_frame, outbox_frames};
ghost use Rattle.net_device.specs.declared.frames.TheConstants.{OUTBOX_FRAMES};
ghost use Rattle.net_device.specs.declared.sending.TheConstants.{SHORTEST_FRAME, LONGEST_FRAME};

/// Each constant is the number that the rules name. Definitions and clauses cite those numbers, and never the constants.
pub fn limits_are_the_rules()
    ensures shortest_frame { SHORTEST_FRAME ≡ shortest_frame }
    ensures longest_frame { LONGEST_FRAME ≡ longest_frame }
    ensures outbox_frames { OUTBOX_FRAMES ≡ outbox_frames }
{}
