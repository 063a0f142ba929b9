//! Laws of staging and committing, each the contract of a function that does nothing.
ghost use Rattle.std.specs.Prelude.{◌≡◌, ◌≢◌, ◌<◌, ◌++◌, ℕ, List, false, length, Some, Ok};
ghost use Rattle.guest_rules.specs.declared.shapes.Shape.{Shape};
ghost use Rattle.guest_rules.specs.Guest.{Guest, State};
ghost use Rattle.epoch_snapshot.specs.Bases.{IsBase};
ghost use Rattle.epoch_snapshot.specs.Checkpoints.{Change};
ghost use Rattle.epoch_snapshot.specs.Images.{image_of};
ghost use Rattle.checkpoint_stream.specs.Readings.{Reading, begun, is_whole};
ghost use Rattle.checkpoint_stream.specs.Text.{text};
ghost use Rattle.backup_image.specs.declared.standing.Staged.TheVariants.{New};
ghost use Rattle.backup_image.specs.Streams.{Call, BeginsWith, after_all, after_calls, follower, IsWritten, AreWritten, texts};
ghost use Rattle.backup_image.specs.Images.{ImageState, stage_answer, after_stage, committed, settled_machine};
ghost use Rattle.backup_image.specs.Kept.{kept_with, sent_with};

use checkpoint_stream::{each_byte_is_needed, text_is_read_back};

/// Whatever is staged, no page, sector or register of the image changes, nor where it stands, nor what it keeps. Where the checkpoint
/// isn't a new one, nothing changes at all.
pub fn staging_changes_no_guest()
    ensures guest { (i : ImageState) (c : Change) → (after_stage i c).guest ≡ i.guest }
    ensures standing { (i : ImageState) (c : Change) → (after_stage i c).stands_at ≡ i.stands_at }
    ensures kept { (i : ImageState) (c : Change) → (after_stage i c).kept ≡ i.kept }
    ensures sent { (i : ImageState) (c : Change) → (after_stage i c).sent ≡ i.sent }
    ensures unless_new { (i : ImageState) (c : Change) → stage_answer i c ≢ Ok New → after_stage i c ≡ i }
{}

/// A machine's delta that is new to an image with the machine's pages and sectors of its last settle, staged and committed, makes the
/// image's guest the machine's; so does a full checkpoint of the machine that is new to an empty image. The image then stands at the
/// checkpoint, and once the machine is settled the machine's next delta stands over the image's guest. The last of the lists that the image
/// keeps is the checkpoint's, and its frames are those that the guest sent last.
pub fn cuts_are_committed()
    ensures delta { (i : ImageState) (m : State) (c : Change) → IsBase m i.guest →
        ((base : Guest) → IsBase m base → image_of c base ≡ m.guest)
        → stage_answer i c ≡ Ok New → (committed (after_stage i c)).guest ≡ m.guest }
    ensures full { (i : ImageState) (m : State) (c : Change) → ((base : Guest) → image_of c base ≡ m.guest)
        → stage_answer i c ≡ Ok New → (committed (after_stage i c)).guest ≡ m.guest }
    ensures standing { (i : ImageState) (c : Change) → stage_answer i c ≡ Ok New
        → (committed (after_stage i c)).stands_at ≡ Some (record { generation = c.generation; number = c.number }) }
    ensures kept { (i : ImageState) (c : Change) → stage_answer i c ≡ Ok New
        → (committed (after_stage i c)).kept ≡ kept_with c i.kept }
    ensures sent { (i : ImageState) (c : Change) → stage_answer i c ≡ Ok New
        → (committed (after_stage i c)).sent ≡ sent_with c i.sent }
    ensures next { (shape : Shape) (g : Guest) → IsBase (settled_machine shape g) g }
{}

/// A stream that is stopped anywhere: of any bytes, fed in any pieces, and taken, staged and committed at any time, the image is the one
/// after the whole checkpoints that the bytes which came begin with. One that stands whole and wasn't taken yet isn't counted: the law
/// speaks of every moment at which none stands so.
pub fn stopped_streams_leave_whole_checkpoints()
    ensures stopped { (shape : Shape) (offset : ℕ) (i : ImageState) (calls : List Call)
        → is_whole (after_calls (follower (begun shape offset) i) calls).reading.place ≡ false
        → (cs : List Change) × BeginsWith (begun shape offset) cs (after_calls (follower (begun shape offset) i) calls).came
        × ((after_calls (follower (begun shape offset) i) calls).image ≡ after_all i cs) }
    // The bytes alone say which these are.
    ensures one { (start : Reading) (bytes : List ℕ) (cs ds : List Change)
        → BeginsWith start cs bytes → BeginsWith start ds bytes → cs ≡ ds }
    // Of texts that were written one after another, the last one cut off before its end, they are all but that one.
    ensures written { (shape : Shape) (offset : ℕ) (cs : List Change) (d : Change) (front rest : List ℕ)
        → AreWritten shape cs → IsWritten shape d → text d ≡ front ++ rest → 0 < length rest
        → BeginsWith (begun shape offset) cs (texts cs ++ front) }
{
    text_is_read_back();
    each_byte_is_needed();
}
