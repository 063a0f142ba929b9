//! The limits of the gate.
ghost use Rattle.std.specs.Prelude.{◌≡◌};
ghost use Rattle.output_gate.specs.Limits.{max_epochs, max_frames, max_held};

use arrayvec::ArrayVec;

/// A network frame of 14 to 1514 bytes, as at the ports.
pub type Frame = ArrayVec<u8, 1514>;

/// How many epochs a gate holds: four of checkpoints that wait for their acknowledgement, and one more.
pub const MAX_EPOCHS: usize = 5;

/// How many frames an epoch has at most: as many as an outbox holds.
pub const MAX_FRAMES: usize = 256;

/// How many frames a gate holds at most.
pub const MAX_HELD: usize = MAX_EPOCHS * MAX_FRAMES;

/// Each constant is the number that the rules name. Definitions and clauses cite those numbers, and never the constants.
pub fn limits_are_the_rules()
    ensures max_epochs { MAX_EPOCHS ≡ max_epochs }
    ensures max_frames { MAX_FRAMES ≡ max_frames }
    ensures max_held { MAX_HELD ≡ max_held }
{}
