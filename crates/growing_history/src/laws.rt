//! What a legal list of steps says of the history.
ghost use Rattle.std.specs.Prelude.{◌≡◌, ◌≢◌, ℕ, ◌+◌, ◌≤◌, false, List, [], ◌∷◌, ◌++◌, length, map, drop, slice_get, All, Some, Ok};
ghost use Rattle.failover.specs.Changes.{row};
ghost use Rattle.failover.specs.declared.change.Change.TheVariants.{FailPrimary, FailBackup, GoLive, Protect};
ghost use Rattle.frame_ports.specs.Addresses.{IsFrame};
ghost use Rattle.guest_rules.specs.Guest.{Guest};
ghost use Rattle.pair_history.specs.Entries as entries;
ghost use Rattle.pair_history.specs.Entries.{Entry, Frame, Arrive};
ghost use Rattle.pair_history.specs.HistoryState.{HistoryState, IsClient, at, sent_along, frame_numbered, inbox_of};
ghost use Rattle.pair_history.specs.HistoryState as history;
ghost use Rattle.pair_history.specs.Reached.{IsReached};
ghost use Rattle.pair_history.specs.Released.{account, WasSent};
ghost use Rattle.growing_history.specs.Steps.{Added, PrimaryFailed, BackupFailed, WentLive, Protected, Step, step, Begins, steps_by};
ghost use Rattle.growing_history.specs.LogState.{LogState, start_of, under_way, added, after_step, Needs, LegalSteps, state_at, history_of};
ghost use Rattle.growing_history.specs.Away.{WhileAway, WhileBackupIsAway, WhileRunnerIsAway};
ghost use Rattle.growing_history.specs.FirstGeneration.{AreUnmarked, CommitsSealed};
ghost use Rattle.growing_history.specs.LogState.{first_backup, line_seat, client_seat, sealed_state, IsAlone, IsEpoch, first_frames};
ghost use Rattle.growing_history.specs.SealedTexts.{IsMade, AreMade, MakeInTurn};
ghost use Rattle.growing_history.specs.Entries.{own_entries, announced, IsCall};
ghost use Rattle.growing_history.specs.Service.{GuestAnswers};
ghost use Rattle.growing_history.specs.Examples.{two_clients};
ghost use Rattle.growing_history.specs.Lives.{life, marked_life};
ghost use Rattle.failover.specs.Modes.{is_filling};

use pair_history::{client_entries_go_first, released_frames_were_sent};

/// What a text makes of a guest: of the text, the frames that it carries, the guest that it is read over, and the guest that it makes of
/// that.
pub trait Texts {
    ghost reads: { List ℕ → List Frame → Guest → Guest → Type 0 };
}

/// A list of steps goes on by what the next step needs and does, and the history with it. A beginning of a legal list is legal, and
/// its history begins that of the whole.
pub fn steps_go_on()
    ensures start { (h : HistoryState) → LegalSteps h [] × (state_at h [] ≡ start_of h) × (history_of h [] ≡ []) }
    ensures goes_on { (h : HistoryState) (xs : List Step) (x : Step) → LegalSteps h xs → Needs (state_at h xs) x → LegalSteps h (xs ++ x ∷ []) }
    ensures needed { (h : HistoryState) (xs : List Step) (x : Step) → LegalSteps h (xs ++ x ∷ []) → Needs (state_at h xs) x }
    ensures begun { (h : HistoryState) (xs ys : List Step) → Begins xs ys → LegalSteps h ys → LegalSteps h xs }
    ensures state { (h : HistoryState) (xs : List Step) (x : Step) → state_at h (xs ++ x ∷ []) ≡ after_step (state_at h xs) x.what }
    ensures history { (h : HistoryState) (xs : List Step) (x : Step)
        → history_of h (xs ++ x ∷ []) ≡ history_of h xs ++ added (state_at h xs) x.what }
    ensures begins { (h : HistoryState) (xs ys : List Step) → Begins xs ys → entries.Begins (history_of h xs) (history_of h ys) }
{}

/// Unless a commit is marked, the history, and then what is under way, is one that a guest that never fails can have; and the state
/// says where the history stands, marked or not.
pub fn unmarked_histories_are_legal()
    ensures legal { (h : HistoryState) (xs : List Step) → LegalSteps h xs → (state_at h xs).marked ≡ 0
        → history.Legal h (history_of h xs ++ under_way (state_at h xs)) }
    ensures stands { (h : HistoryState) (xs : List Step) → (state_at h xs).history ≡ at h (history_of h xs) }
    ensures marks { (h : HistoryState) (xs ys : List Step) → Begins xs ys → (state_at h xs).marked ≤ (state_at h ys).marked }
{}

/// A client's entries in the history are those that the steps of its seat announced, in that order, and no others.
pub fn own_entries_are_announced()
    ensures { (h : HistoryState) (xs : List Step) (c : ℕ) → 1 ≤ c → LegalSteps h xs
        → own_entries c (history_of h xs) ≡ announced (steps_by (client_seat c) xs) }
{}

/// The numbers of the live runner and of the backup rise or stay, and neither is a client's seat's or the line's.
pub fn live_numbers_rise()
    ensures rise { (h : HistoryState) (xs ys : List Step) → Begins xs ys → LegalSteps h ys
        → ((state_at h xs).runner ≤ (state_at h ys).runner) × ((state_at h xs).backup ≤ (state_at h ys).backup) }
    ensures apart { (h : HistoryState) (xs : List Step) (n : ℕ) → LegalSteps h xs → line_seat ≤ n → n ≤ client_seat (length h.boxes)
        → ((state_at h xs).runner ≢ n) × ((state_at h xs).backup ≢ n) }
{}

/// A failure, and what comes after it, changes mode and generation as failover's table says.
pub fn failures_follow_the_table()
    ensures primary { (s : LogState) (by : ℕ) → Needs s (step by PrimaryFailed)
        → row FailPrimary s.mode ≡ Ok ((after_step s PrimaryFailed).mode, 0) }
    ensures backup { (s : LogState) (by : ℕ) → Needs s (step by BackupFailed)
        → row FailBackup s.mode ≡ Ok ((after_step s BackupFailed).mode, 0) }
    ensures live { (s : LogState) (by r : ℕ) → Needs s (step by (WentLive r))
        → (row GoLive s.mode ≡ Ok ((after_step s (WentLive r)).mode, 1)) × ((after_step s (WentLive r)).generation ≡ s.generation + 1) }
    ensures protected { (s : LogState) (by b : ℕ) → Needs s (step by (Protected b))
        → (row Protect s.mode ≡ Ok ((after_step s (Protected b)).mode, 1)) × ((after_step s (Protected b)).generation ≡ s.generation + 1) }
{}

/// What is handed out can arrive: in a state that a history reaches, the first four waiting frames of each client can arrive one after
/// another, client by client. They are those that the inboxes hold: each is found under its number, and leaves its inbox, which holds
/// the rest then.
pub fn handed_out_frames_can_arrive()
    ensures legal { (s : HistoryState) → IsReached s → history.Legal s (map Arrive (first_frames (length s.boxes) 1 s.waiting)) }
    ensures found { (s : HistoryState) (c place n : ℕ) (f : Frame) → IsReached s → slice_get (inbox_of c s.waiting) place ≡ Some (n, f)
        → frame_numbered n s.waiting ≡ Some f }
    ensures leave { (s : HistoryState) (c : ℕ) → IsReached s → IsClient s c
        → inbox_of c (at s (map Arrive (first_frames (length s.boxes) 1 s.waiting))).waiting ≡ drop 4 (inbox_of c s.waiting) }
{}

/// What a client's call makes of what the client has seen: the history that it had seen, what came between, and the call's entries;
/// and its own entries grow by these. What it sees without a call leaves its own entries.
pub fn a_call_is_a_point_of_one_history()
    ensures call { (h : HistoryState) (c : ℕ) (old log : List Step) (es : List Entry) → 1 ≤ c → Begins old log
        → LegalSteps h (log ++ step (client_seat c) (Added es) ∷ [])
        → steps_by (client_seat c) (log ++ step (client_seat c) (Added es) ∷ []) ≡ steps_by (client_seat c) old ++ step (client_seat c)
        (Added es) ∷ []
        → IsCall h c old (log ++ step (client_seat c) (Added es) ∷ []) es }
    ensures none { (h : HistoryState) (c : ℕ) (old now : List Step) → 1 ≤ c → Begins old now → LegalSteps h now
        → steps_by (client_seat c) now ≡ steps_by (client_seat c) old
        → own_entries c (history_of h now) ≡ own_entries c (history_of h old) }
{}

/// What a member that is live has missed since it last looked, where it made no step.
///
/// What was handed out to a runner is still that, marked or not. Unless a commit is marked, its sealed state has the guest that it had,
/// each frame that was handed out to it waits where it waited, and an epoch of it makes the guest that it made, which sends along it what
/// it sent. A backup whose pair isn't alone now wasn't alone then; it is filled now where it was filled then, and then the history has
/// the guest that it had.
pub fn live_members_miss_nothing()
    ensures handed { (h : HistoryState) (old now : List Step) (n : ℕ)
        → WhileRunnerIsAway n h old now ((state_at h now).handed ≡ (state_at h old).handed) }
    ensures runner { (h : HistoryState) (old now : List Step) (n : ℕ) → WhileRunnerIsAway n h old now
        ((state_at h now).marked ≡ 0 → (sealed_state (state_at h now)).guest ≡ (sealed_state (state_at h old)).guest) }
    ensures frames { (h : HistoryState) (old now : List Step) (n : ℕ) → WhileRunnerIsAway n h old now ((state_at h now).marked ≡ 0
        → (before later : List ℕ) (m : ℕ) (f : Frame) → (state_at h old).handed ≡ before ++ m ∷ later
        → frame_numbered m (sealed_state (state_at h old)).waiting ≡ Some f
        → frame_numbered m (sealed_state (state_at h now)).waiting ≡ Some f) }
    ensures epoch { (h : HistoryState) (old now : List Step) (n : ℕ) → WhileRunnerIsAway n h old now ((state_at h now).marked ≡ 0
        → (epoch : List Entry) → IsEpoch (state_at h old) epoch
        → ((at (sealed_state (state_at h now)) epoch).guest ≡ (at (sealed_state (state_at h old)) epoch).guest)
        × (sent_along (sealed_state (state_at h now)) epoch ≡ sent_along (sealed_state (state_at h old)) epoch)) }
    ensures backup { (h : HistoryState) (old now : List Step) (n : ℕ) → WhileBackupIsAway n h old now ((IsAlone (state_at h now).mode → ⊥)
        → (IsAlone (state_at h old).mode → ⊥)
        × (is_filling (state_at h now).mode ≡ is_filling (state_at h old).mode)
        × (is_filling (state_at h old).mode ≡ false → (state_at h now).history.guest ≡ (state_at h old).history.guest)) }
{
    client_entries_go_first();
}

/// Where each text was sealed rightly (`AreMade`: unless a commit was marked before, it makes the guest of the sealed state after it
/// of the one before it, a full one of any guest, and carries what the guest sends along its epoch), those that are still to be committed
/// make their guests in turn, from the guest of the history, and carry what it sends: so a backup that stands at the history, and reads
/// the text that was sealed, stands at the history after its commit, and has the frames of the epoch.
pub fn sealed_texts_make_their_guests<T: Texts>()
    ensures start { (h : HistoryState) → AreMade T.reads h [] }
    ensures goes_on { (h : HistoryState) (xs : List Step) (x : Step) → AreMade T.reads h xs → IsMade T.reads (state_at h xs) x.what
        → AreMade T.reads h (xs ++ x ∷ []) }
    ensures in_turn { (h : HistoryState) (xs : List Step) → LegalSteps h xs → AreMade T.reads h xs → (state_at h xs).marked ≡ 0
        → MakeInTurn T.reads (state_at h xs).history [] (state_at h xs).sealed }
{
    client_entries_go_first();
}

/// In the first generation only the first backup commits. So no commit of it is marked where that backup commits nothing but what was
/// sealed: steps of others make no mark, and neither does its own commit of a text that it had seen sealed under that generation and
/// number.
pub fn sealed_commits_make_no_mark()
    ensures others { (h : HistoryState) (old now : List Step)
        → WhileAway first_backup h old now (AreUnmarked h old → AreUnmarked h now) }
    ensures own { (h : HistoryState) (old now : List Step) → CommitsSealed old now → LegalSteps h now → AreUnmarked h old → AreUnmarked h now }
    ensures start { (h : HistoryState) → AreUnmarked h [] }
{}

/// What all of it is for, said without seats. Of any legal list of steps, unless a commit is marked:
///
/// The history is one that a guest that never fails can have. The entries of each client in it are those that the steps of its seat
/// announced, and each is the answer that this guest, behind a line that may drop frames, gives at that point (`GuestAnswers`). What landed
/// for a client was sent to it by a step of the guest in the history. And the history of a longer list begins with it.
pub fn clients_have_one_guest_that_never_fails()
    ensures legal { (h : HistoryState) (xs : List Step) → LegalSteps h xs → (state_at h xs).marked ≡ 0 → history.Legal h (history_of h xs) }
    ensures calls { (h : HistoryState) (xs : List Step) (c : ℕ) → 1 ≤ c → LegalSteps h xs
        → own_entries c (history_of h xs) ≡ announced (steps_by (client_seat c) xs) }
    ensures answers { (h : HistoryState) (xs : List Step) → LegalSteps h xs → (state_at h xs).marked ≡ 0
        → (before later : List Entry) (e : Entry) → history_of h xs ≡ before ++ e ∷ later → GuestAnswers (at h before) e }
    ensures landed { (h : HistoryState) (xs : List Step) (c : ℕ)
        → All (WasSent h (history_of h xs) c) (account h (history_of h xs) c).released }
    ensures grows { (h : HistoryState) (xs ys : List Step) → Begins xs ys → entries.Begins (history_of h xs) (history_of h ys) }
{
    released_frames_were_sent();
}

/// The conditions of steps can be met: there is a legal list with every kind of step in it, whatever the frame that its client delivers.
///
/// And the promises are worth what a commit's text is: after one commit that names another text than the sealed one, a client may be
/// given a frame that nobody sent. So a call that commits must be pinned to the text that was read.
pub fn a_whole_life_is_legal()
    ensures life { (f : Frame) → IsFrame f → LegalSteps two_clients (life f) }
    ensures unmarked { (f : Frame) → (state_at two_clients (life f)).marked ≡ 0 }
    ensures marked { (f : Frame) → LegalSteps two_clients (marked_life f) }
{}
