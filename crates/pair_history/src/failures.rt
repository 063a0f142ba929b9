//! What a failure does to the history: it stays that of one guest that never fails, behind a line that may drop frames.
ghost use Rattle.std.specs.Prelude.{◌≡◌, ℕ, ◌+◌, ◌*◌, ◌≤◌, ◌++◌, List, [], ◌∷◌, length, map};
ghost use Rattle.std.specs.List.Sorted.{IsNonDecreasing, IsPermutation, IsStrictlyIncreasing};
ghost use Rattle.guest_rules.specs.Step.{next, sent};
ghost use Rattle.frame_ports.specs.Addresses.{targets_of};
ghost use Rattle.frame_ports.specs.Lands.{lands};
ghost use Rattle.pair_history.specs.Entries.{Frame, Entry, Ran, Arrive, DropIn, Land, DropOut};
ghost use Rattle.pair_history.specs.HistoryState.{HistoryState, at, Legal, start_state};
ghost use Rattle.pair_history.specs.Landings.{landings};
ghost use Rattle.pair_history.specs.Leaving.{LeaveInOrder};
ghost use Rattle.pair_history.specs.Order.{AreGuests};
ghost use Rattle.pair_history.specs.Released.{account};
ghost use Rattle.pair_history.specs.Reached.{IsReached};
ghost use Rattle.pair_history.specs.Failures.{arrived_numbers, dropped_numbers, all_land};
ghost use Rattle.pair_history.specs.Failures.{go_live_entries, fail_backup_entries, alone_step_entries};

use guest_rules::sent_frames;

/// From where a pair starts, a legal history leads only to states in which the frames that wait have rising numbers below the next
/// one, each frame on its way is for a client that there is, and no box holds more than it has room for.
#[tactic(auto, using(crate::proofs::ReachedLaws::reached_laws))]
pub fn reached_states()
    ensures start { (pages sectors : ℕ) (image : List ℕ) (clients : ℕ) → IsReached (start_state pages sectors image clients) }
    ensures goes_on { (s : HistoryState) (es : List Entry) → IsReached s → Legal s es → IsReached (at s es) }
{}

/// Where the primary fails and the backup goes live, the entries that were kept are discarded. What is added to the history in their
/// place drops what they had taken in, and then lets all land that is owed to clients.
///
/// The guest is that of the history, as if nothing had been kept. What waits for it is what waited after the kept entries, so that
/// no inbox changes: the frames that they had taken in are dropped, each once, by rising number, and no others. Nothing is on its way
/// to a client any more: what was on its way leaves in the order in which the guest sent it, each frame into its client's box, or
/// dropped where that is full; none is given up. What was sent to a client and what it took stay. There are as many entries as
/// frames that were taken in, or on their way.
#[tactic(auto, using(crate::proofs::FailureLaws::go_live_laws))]
pub fn going_live_lands_what_is_owed()
    ensures legal { (s : HistoryState) (kept : List Entry) → IsReached s → AreGuests kept → Legal s kept
        → Legal s (go_live_entries s kept) }
    ensures state { (s : HistoryState) (kept : List Entry) → IsReached s → AreGuests kept → Legal s kept
        → at s (go_live_entries s kept) ≡ record s { waiting = (at s kept).waiting; out = []; boxes = lands s.boxes s.out } }
    ensures taken_in { (s : HistoryState) (kept : List Entry)
        → IsPermutation (arrived_numbers kept) (dropped_numbers (go_live_entries s kept)) }
    ensures rising { (s : HistoryState) (kept : List Entry) → IsReached s → AreGuests kept → Legal s kept
        → IsStrictlyIncreasing (dropped_numbers (go_live_entries s kept)) }
    ensures owed { (s : HistoryState) (kept : List Entry) → IsReached s → LeaveInOrder s (go_live_entries s kept) s.out }
    ensures account { (s : HistoryState) (es kept : List Entry) (c : ℕ)
        → ((account s (es ++ go_live_entries (at s es) kept) c).sent ≡ (account s es c).sent)
        × ((account s (es ++ go_live_entries (at s es) kept) c).taken ≡ (account s es c).taken) }
    ensures count { (s : HistoryState) (kept : List Entry)
        → length (go_live_entries s kept) ≡ length (arrived_numbers kept) + length s.out }
    // However the numbers are sorted, these are the entries.
    ensures any_sort { (s : HistoryState) (kept : List Entry) (ns : List ℕ) → IsPermutation (arrived_numbers kept) ns → IsNonDecreasing ns
        → go_live_entries s kept ≡ map DropIn ns ++ all_land s }
    // Two clients, the first of whom has a full box, and a frame on its way to the first between two to the second.
    ensures example { (s : HistoryState) (b : List Frame) (f g h : Frame) → length b ≡ 256 → s.boxes ≡ b ∷ [] ∷ []
        → s.out ≡ (2, f) ∷ (1, g) ∷ (2, h) ∷ []
        → go_live_entries s (Ran ∷ Arrive 5 ∷ Ran ∷ Arrive 3 ∷ []) ≡ DropIn 3 ∷ DropIn 5 ∷ Land 2 ∷ DropOut 1 256 ∷ Land 2 ∷ [] }
{}

/// Where the backup fails, all that was kept stays in the history, and then all that is on its way lands, in the order sent: it goes
/// last in its client's box, or is dropped where that is full. The guest is that after the kept entries.
#[tactic(auto, using(crate::proofs::FailureLaws::fail_backup_laws))]
pub fn failing_backup_lets_all_land()
    ensures legal { (s : HistoryState) (kept : List Entry) → IsReached s → Legal s kept → Legal s (fail_backup_entries s kept) }
    ensures state { (s : HistoryState) (kept : List Entry) → IsReached s → Legal s kept
        → at s (fail_backup_entries s kept) ≡ record (at s kept) { out = []; boxes = lands (at s kept).boxes (at s kept).out } }
    ensures boxes { (s : HistoryState) (kept : List Entry) → AreGuests kept → (at s kept).boxes ≡ s.boxes }
    ensures count { (s : HistoryState) (kept : List Entry)
        → length (fail_backup_entries s kept) ≡ length kept + length (at s kept).out }
{}

/// At a node that is alone nothing is on its way between its steps: the frames that a step sends, at most 64 for
/// each client, land at once.
#[tactic(auto, using(crate::proofs::FailureLaws::alone_laws))]
pub fn steps_alone_land_at_once()
    ensures entries { (s : HistoryState) → s.out ≡ []
        → alone_step_entries s ≡ Ran ∷ landings s.boxes (targets_of (length s.boxes) (sent s.guest)) }
    ensures legal { (s : HistoryState) → IsReached s → s.out ≡ [] → Legal s (alone_step_entries s) }
    ensures state { (s : HistoryState) → IsReached s → s.out ≡ []
        → at s (alone_step_entries s)
        ≡ record s { guest = next s.guest; boxes = lands s.boxes (targets_of (length s.boxes) (sent s.guest)) } }
    ensures most { (s : HistoryState) → s.out ≡ [] → length (alone_step_entries s) ≤ 1 + 64 * length s.boxes }
{
    sent_frames();
}
