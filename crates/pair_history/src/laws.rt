//! What every legal history gives its clients.
ghost use Rattle.std.specs.Prelude.{◌≡◌, ℕ, ◌+◌, ◌≤◌, ◌++◌, ◌⊎◌, List, ◌∷◌, length};
ghost use Rattle.std.specs.List.{All};
ghost use Rattle.pair_history.specs.Entries.{Entry, DropOut};
ghost use Rattle.pair_history.specs.HistoryState.{HistoryState, after, at, Legal, out_of, start_state};
ghost use Rattle.pair_history.specs.Order.{AreGuests, IsReady};
ghost use Rattle.pair_history.specs.Released.{frames, Sent, goes_on, account, WasSent, IsSound};
ghost use Rattle.pair_history.specs.Released.{sent_to, released, taken, dropped_count, IsFresh};
ghost use Rattle.frame_ports.specs.Lands.{list_of};
ghost use Rattle.pair_history.specs.Landings.{IsInBox, IsAtFull, DropsAreKnown, DropsAreAskedOrFull, DropsAtFull};
ghost use Rattle.pair_history.specs.Leaving.{leaving, frames_left, frames_landed, NotGivenUp};
ghost use Rattle.pair_history.specs.Failures.{all_land, go_live_entries, fail_backup_entries, alone_step_entries};
ghost use Rattle.pair_history.specs.Reached.{IsReached};

/// Each frame that a history released to a client stands in that client's account with the step of the history that sent it.
///
/// What was released to a client, and then what is on its way to it, is what the guest sent to it, in order and each sent frame
/// once at most, with some left out. What the client took, and then what lies in its box, is what was released to it, likewise.
/// In all, as many frames are left out as were dropped.
///
/// A history that goes on goes on with the same account, and what was released stays so. From where a pair starts, the account's
/// frames are those that the history's state and its entries say.
#[tactic(auto, using(crate::proofs::AccountLaws::account_laws))]
pub fn released_frames_were_sent()
    ensures sent { (s : HistoryState) (es : List Entry) (c : ℕ) → All (WasSent s es c) (account s es c).sent }
    ensures all_sent { (s : HistoryState) (es : List Entry) (c : ℕ) → frames (account s es c).sent ≡ sent_to s es c }
    ensures sound { (s : HistoryState) (es : List Entry) (c : ℕ) → IsSound (account s es c) }
    ensures goes_on { (s : HistoryState) (es more : List Entry) (c : ℕ)
        → account s (es ++ more) c ≡ goes_on c (at s es) (length es) (account s es c) more }
    ensures stays { (s : HistoryState) (es more : List Entry) (c : ℕ)
        → (later : List Sent) × ((account s (es ++ more) c).released ≡ (account s es c).released ++ later) }
    ensures on_way { (s : HistoryState) (es : List Entry) (c : ℕ) → IsFresh s → frames (account s es c).on_way ≡ out_of c (at s es).out }
    ensures released { (s : HistoryState) (es : List Entry) (c : ℕ) → IsFresh s → frames (account s es c).released ≡ released s es c }
    ensures boxed { (s : HistoryState) (es : List Entry) (c : ℕ) → IsFresh s → Legal s es → 1 ≤ c
        → frames (account s es c).boxed ≡ list_of (at s es).boxes c }
    ensures taken { (s : HistoryState) (es : List Entry) (c : ℕ) → IsFresh s → Legal s es → 1 ≤ c
        → frames (account s es c).taken ≡ taken es c }
    ensures dropped { (s : HistoryState) (es : List Entry) (c : ℕ) → IsFresh s → Legal s es → 1 ≤ c
        → length (account s es c).dropped ≡ dropped_count es c }
    ensures start_fresh { (pages sectors : ℕ) (image : List ℕ) (clients : ℕ) → IsFresh (start_state pages sectors image clients) }
{}

/// What clients and their lines do can come before what the guest does: a delivery, a landing, a drop or a take that is ready before
/// the guest's entries leaves them legal, and the state after all of them is the same. So what a client is answered while an epoch
/// is kept can stand in the history before that epoch; so can the loss of a delivered frame that the epoch doesn't take in.
#[tactic(auto, using(crate::proofs::OrderLaws::goes_first))]
pub fn client_entries_go_first()
    ensures { (s : HistoryState) (es : List Entry) (e : Entry) → AreGuests es → Legal s es → IsReady s es e
        → Legal (after s e) es × (at (after s e) es ≡ after (at s es) e) }
{}

/// What leaves for a client leaves in the order in which the guest sent it: what was sent to a client along a history is what left, and
/// then what is still on its way. Each frame that left landed, or was dropped at a full box, or was given up.
#[tactic(auto, using(crate::specs::laws::Leaving::all_leave_in_order))]
pub fn frames_leave_in_order()
    ensures { (s : HistoryState) (es : List Entry) (c : ℕ) → IsFresh s → DropsAreKnown s es
        → sent_to s es c ≡ frames_left (leaving s es c) ++ out_of c (at s es).out }
{}

/// A frame that the guest sent is dropped only by a loss that was asked for, which takes it out of its client's box, or at a full box
/// (`DropsAreAskedOrFull`); no failure loses it.
///
/// Where each drop of a history is of that kind, no frame that left for a client was given up: what was sent to it is what landed or
/// was dropped at its full box, and then what is still on its way, in order. What landed is what was released to it. What the guest
/// does, what lands, and what a failure or a step of a node that is alone adds drop no frame for another reason.
#[tactic(auto, using(crate::proofs::DropLaws::drop_laws))]
pub fn no_failure_loses_a_sent_frame()
    ensures kept { (s : HistoryState) (es : List Entry) (c : ℕ) → DropsAreAskedOrFull s es → All NotGivenUp (leaving s es c) }
    ensures in_order { (s : HistoryState) (es : List Entry) (c : ℕ) → IsFresh s → DropsAreAskedOrFull s es
        → sent_to s es c ≡ frames_left (leaving s es c) ++ out_of c (at s es).out }
    ensures landed { (s : HistoryState) (es : List Entry) (c : ℕ) → frames_landed (leaving s es c) ≡ released s es c }
    ensures each { (s : HistoryState) (before later : List Entry) (c place : ℕ)
        → DropsAreAskedOrFull s (before ++ DropOut c place ∷ later) → IsInBox (at s before) c place ⊎ IsAtFull (at s before) c place }
    ensures goes_on { (s : HistoryState) (es more : List Entry) → DropsAreAskedOrFull s es → DropsAreAskedOrFull (at s es) more
        → DropsAreAskedOrFull s (es ++ more) }
    ensures guests { (s : HistoryState) (es : List Entry) → AreGuests es → DropsAreAskedOrFull s es }
    ensures at_full { (s : HistoryState) (es : List Entry) → DropsAtFull s es → DropsAreAskedOrFull s es }
    ensures lands { (s : HistoryState) → IsReached s → DropsAreAskedOrFull s (all_land s) }
    ensures goes_live { (s : HistoryState) (kept : List Entry) → IsReached s → DropsAreAskedOrFull s (go_live_entries s kept) }
    ensures fails_backup { (s : HistoryState) (kept : List Entry) → IsReached s → AreGuests kept → Legal s kept
        → DropsAreAskedOrFull s (fail_backup_entries s kept) }
    ensures alone { (s : HistoryState) → IsReached s → DropsAreAskedOrFull s (alone_step_entries s) }
{}
