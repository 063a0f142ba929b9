//! The limits of the pair. Those of frames, clients, inboxes, boxes and numbers are `frame_ports`'s, those of the outbox and of
//! memory and disk `guest_rules`'s, that of held epochs `output_gate`'s.
ghost use Rattle.std.specs.Prelude.{◌≡◌};
ghost use Rattle.pair_record.specs.Limits.{most_pending, step_frames, stepping_frames, lone_step_entries, first_generation};
ghost use Rattle.pair_record.specs.Limits.{full_checkpoint, last_frame};

/// How many checkpoints may be pending.
pub(crate) const MOST_PENDING: u64 = 4;

/// How many frames a step sends at most.
pub(crate) const STEP_FRAMES: usize = 64;

/// A step needs 64 free places of the 256 in the outbox.
pub(crate) const STEP_ROOM: usize = 192;

/// A step of a node that is alone counts as so many entries of the history: itself, and 64 frames for 16 clients each.
pub(crate) const STEP_ENTRIES: u64 = 1025;

/// The generation before any failure.
pub(crate) const FIRST_GENERATION: u64 = 1;

/// The number of a generation's full checkpoint.
pub(crate) const FULL_CHECKPOINT: u64 = 0;

/// Where the next frame's number is above this, too few are left for the frames of an epoch and of what may follow it.
pub(crate) const LAST_FRAME: u64 = (1 << 62) - 1023;

/// Each constant is the number that the rules name. Definitions and clauses cite those numbers, and never the constants.
pub fn limits_are_the_rules()
    ensures most_pending { MOST_PENDING ≡ most_pending }
    ensures step_frames { STEP_FRAMES ≡ step_frames }
    ensures stepping_frames { STEP_ROOM ≡ stepping_frames }
    ensures lone_step_entries { STEP_ENTRIES ≡ lone_step_entries }
    ensures first_generation { FIRST_GENERATION ≡ first_generation }
    ensures full_checkpoint { FULL_CHECKPOINT ≡ full_checkpoint }
    ensures last_frame { LAST_FRAME ≡ last_frame }
{}
