//! What follows from what events do, over whole runs: the backup's image after a commit is the guest of the machine at the cut.
ghost use Rattle.std.specs.Prelude.{◌≡◌, ◌++◌, All, length, ℕ, List, Option, Some, slice_get};
ghost use Rattle.guest_rules.specs.Guest.{Guest};
ghost use Rattle.pair_record.specs.declared.event.Event.{Event};
ghost use Rattle.pair_record.specs.declared.event.Event.TheVariants.{Cut, BackupGet, GoLive, Protect, Take};
ghost use Rattle.pair_record.specs.declared.event.Refusal.TheVariants.{Full};
ghost use Rattle.pair_record.specs.declared.event.Reply.{Reply};
ghost use Rattle.pair_record.specs.declared.event.Reply.TheVariants as replies;
ghost use Rattle.pair_core.specs.Acknowledged.{greatest_acked, AreOrdinary};
ghost use Rattle.pair_record.specs.Journal.{all_entries};
ghost use Rattle.pair_record.specs.Record.{start_record};
ghost use Rattle.pair_core.specs.Pair.{Pair, IsConsistent};
ghost use Rattle.pair_history.specs.Leaving.{leaving, frames_left, NotGivenUp};
ghost use Rattle.pair_history.specs.Released.{sent_to, IsFresh};
ghost use Rattle.frame_ports.specs.Addresses.{targets_of};
ghost use Rattle.output_gate.specs.Epochs.{frames_of};
ghost use Rattle.pair_history.specs.Failures.{dropped_numbers};
ghost use Rattle.pair_history.specs.Entries.{Frame, Delivered, Refused, Took, Begins};
ghost use Rattle.pair_history.specs.HistoryState.{HistoryState, out_of};
ghost use Rattle.pair_core.specs.Drops.{Drops, WhyLost};
ghost use Rattle.pair_core.specs.Lines.{Protocol};
ghost use Rattle.pair_core.specs.Calls.{Moment};
ghost use Rattle.pair_core.specs.Service.{HasServed, HasEntered, IsDelivery, Point, IsTold, IsResumed};
ghost use Rattle.pair_core.specs.Replication.{KeepsBackup, Awaits, Does, Leads};

/// The image after a commit is the guest that the live machine was at the cut of that checkpoint: memory, disk and devices.
///
/// The pair `cut` is the one before a cut that was answered `Cut(generation, number)`, any events came after it, and `done` is the pair
/// after an event that was answered `Committed(generation, number)`.
pub fn committed_guests_are_those_cut()
    ensures cut { (cut next late done : Pair) (generation number k : ℕ) (events : List Event) (answers : List Reply)
        → Does cut Cut (replies.Cut generation number) next
        → Leads next events answers late
        → Does late (BackupGet k) (replies.Committed generation number) done
        → done.nodes.image.guest ≡ cut.nodes.live.guest }
    // The full checkpoint of a new backup, the same: the live guest where the node that was alone got it.
    ensures full { (alone next late done : Pair) (generation k : ℕ) (events : List Event) (answers : List Reply)
        → Does alone Protect (replies.Protecting generation) next
        → Leads next events answers late
        → Does late (BackupGet k) (replies.Committed generation 0) done
        → done.nodes.image.guest ≡ alone.nodes.live.guest }
{}

/// The same step by step, for calls of any order: the guest of a cut is awaited from the cut on, until its checkpoint is committed, and
/// then the image is that guest. Events don't change what is awaited, nor does a call that keeps the image, the sealed texts, the mode and
/// the generation.
pub fn cut_guests_are_awaited()
    ensures cut { (generation number : ℕ) (old new : Pair)
        → Does old Cut (replies.Cut generation number) new → Awaits generation number old.nodes.live.guest new }
    ensures protect { (generation : ℕ) (old new : Pair)
        → Does old Protect (replies.Protecting generation) new → Awaits generation 0 old.nodes.live.guest new }
    ensures event { (generation number : ℕ) (g : Guest) (event : Event) (reply : Reply) (old new : Pair)
        → Does old event reply new → Awaits generation number g old → Awaits generation number g new }
    ensures call { (generation number : ℕ) (g : Guest) (old new : Pair)
        → KeepsBackup old.nodes new.nodes → new.protocol.state.mode ≡ old.protocol.state.mode
        → new.protocol.state.generation ≡ old.protocol.state.generation
        → Awaits generation number g old → Awaits generation number g new }
    ensures run { (generation number : ℕ) (g : Guest) (events : List Event) (answers : List Reply) (old new : Pair)
        → Leads old events answers new → Awaits generation number g old → Awaits generation number g new }
    ensures commit { (generation number k : ℕ) (g : Guest) (old new : Pair)
        → Does old (BackupGet k) (replies.Committed generation number) new → Awaits generation number g old
        → new.nodes.image.guest ≡ g }
{}

/// What a client was given is never taken back, and what it delivered is lost only by a loss that was asked for, or because the epoch
/// that took it in was never committed.
///
/// Each event lets the history grow ([`World::apply`](crate::World::apply), clause `grows`), so that what was released stays
/// ([`released_frames_were_sent`](crate::released_frames_were_sent)). Of the frames that clients delivered, the entries that an event
/// adds drop none; or the one that a `LoseIn` named; or, where the backup goes live, those that the discarded epochs had taken in.
pub fn what_is_delivered_is_lost_for_a_reason()
    ensures { (start : HistoryState) (old new : Protocol) (event : Event) (reply : Reply) → (drops : Drops start old event reply new)
        → WhyLost old.state event (dropped_numbers drops.entries) }
{}

/// The service that the whole is for: over every list of events, each reply to a client's call is that of one never-failing guest behind a
/// lossy line, at a point of one growing history; what was released stays in it; and a resumed guest is that history's guest, its disk
/// included.
///
/// [`World::run`](crate::World::run) gives `HasServed` of every list of events (clause `served`). Clause `point` says that the run up to a
/// call, the call itself and the run from it on are three such runs in a row; the others, what the history says right there: the entry that
/// tells of the call is the one that it added, in a state that allows it, and stays.
pub fn clients_have_one_guest_that_never_fails()
    ensures grows { (start : HistoryState) (old new : Moment) (events : List Event) (answers : List Reply)
        → HasServed start old events answers new → Begins old.history new.history }
    ensures point { (start : HistoryState) (old new : Moment) (events : List Event) (answers : List Reply)
        → HasServed start old events answers new
        → (k : ℕ) (event : Event) (reply : Reply) → slice_get events k ≡ Some event → slice_get answers k ≡ Some reply
        → Point start old events answers new k event reply }
    ensures take { (start : HistoryState) (old new : Moment) (events : List Event) (answers : List Reply)
        → (k c : ℕ) (frame : Option Frame) → (p : Point start old events answers new k (Take c) (replies.Took frame))
        → IsTold start p.before p.done new (Took c frame) }
    ensures deliver { (start : HistoryState) (old new : Moment) (events : List Event) (answers : List Reply)
        → (k c n : ℕ) (bytes : List ℕ) (event : Event) → IsDelivery c bytes event
        → (p : Point start old events answers new k event (replies.Delivered n))
        → IsTold start p.before p.done new (Delivered c (record { items = bytes }) n) }
    // A frame that was refused since 64 frames of the client waited.
    ensures full { (start : HistoryState) (old new : Moment) (events : List Event) (answers : List Reply)
        → (k c : ℕ) (bytes : List ℕ) (event : Event) → IsDelivery c bytes event
        → (p : Point start old events answers new k event (replies.Refused Full))
        → IsTold start p.before p.done new (Refused c (record { items = bytes })) }
    // The guest that goes live, its memory, disk and devices, is the history's.
    ensures resume { (start : HistoryState) (old new : Moment) (events : List Event) (answers : List Reply)
        → (k generation steps : ℕ) → (p : Point start old events answers new k GoLive (replies.Live generation steps))
        → IsResumed start p.done new steps }
{}

/// What acknowledgements have let out, exactly: after any run from boot in which no node failed, with `m` the greatest number that was
/// acknowledged so far, what left for a client is what the guest had sent to it up to `Cut(1, m)`, in order; each frame of it landed, or
/// was dropped at a full box.
///
/// The pair `cut` is the one before the cut that was answered `Cut(1, m)`, any events came before and after it, and `late` is the pair
/// then. Of any pair, also after failures: what left for a client, and then what the gate and the outbox hold for it, is in order all that
/// the guest sent to it along the history and what is kept (`accounted`). What a backup that went live didn't owe any more left as given
/// up.
pub fn acknowledged_frames_have_left()
    ensures since_boot { (c m : ℕ) (boot cut now late : Pair) (before then : List Event) (told answers : List Reply)
        → IsConsistent boot → boot.protocol.state ≡ start_record → IsFresh boot.start
        → Leads boot before told cut → AreOrdinary before
        → Does cut Cut (replies.Cut 1 m) now
        → Leads now then answers late → AreOrdinary then
        → greatest_acked (told ++ answers) ≡ m
        → (frames_left (leaving late.start late.protocol.state.journal.history c)
        ≡ sent_to cut.start (all_entries cut.protocol.state.journal) c)
        × All NotGivenUp (leaving late.start late.protocol.state.journal.history c) }
    ensures accounted { (c : ℕ) (w : Pair) → IsConsistent w → IsFresh w.start
        → sent_to w.start (all_entries w.protocol.state.journal) c
        ≡ frames_left (leaving w.start w.protocol.state.journal.history c)
        ++ out_of c (targets_of (length w.ports.boxes) (frames_of w.protocol.state.pending ++ w.nodes.live.outbox)) }
{}

/// What the guest did enters the history epoch by epoch, when the backup commits the epoch's checkpoint; all of it where the backup fails;
/// and then at once, as long as a node is alone. Nothing else of the guest enters. So along a run from the start the guest's steps and
/// arrivals in the history are those of committed epochs and of nodes alone, in the order in which they were made.
///
/// [`World::run`](crate::World::run) gives `HasServed` of every list of events (clause `served`), and `Leads` (clause `leads`).
pub fn committed_epochs_enter_the_history()
    // Of every run, event by event: what each one lets in (`LetsIn`) is the row of `Enters` for it.
    ensures run { (start : HistoryState) (old new : Moment) (events : List Event) (answers : List Reply)
        → HasServed start old events answers new → HasEntered old events answers new }
    // The epoch that ran at a cut enters the history whole, when the checkpoint of that cut is committed: any events came between.
    ensures epoch { (cut next late done : Pair) (generation number k : ℕ) (events : List Event) (answers : List Reply)
        → Does cut Cut (replies.Cut generation number) next
        → Leads next events answers late
        → Does late (BackupGet k) (replies.Committed generation number) done
        → done.protocol.state.journal.history ≡ late.protocol.state.journal.history ++ cut.protocol.state.journal.running }
    // With the full checkpoint of a new backup none does: a node alone keeps nothing.
    ensures full { (alone next late done : Pair) (generation k : ℕ) (events : List Event) (answers : List Reply)
        → IsConsistent alone
        → Does alone Protect (replies.Protecting generation) next
        → Leads next events answers late
        → Does late (BackupGet k) (replies.Committed generation 0) done
        → done.protocol.state.journal.history ≡ late.protocol.state.journal.history }
{}
