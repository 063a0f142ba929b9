//! What a runner and a backup know of what they have outside the lock.
ghost use Rattle.std.specs.Prelude.{◌≡◌, ℕ, List, [], ◌∷◌, ◌++◌, Option, None, Some};
ghost use Rattle.guest_rules.specs.Guest.{Guest};
ghost use Rattle.pair_history.specs.Entries.{Frame};
ghost use Rattle.pair_history.specs.HistoryState.{HistoryState};
ghost use Rattle.growing_history.specs.LogState.{LegalSteps, first_runner, first_backup};
ghost use Rattle.growing_history.specs.SealedTexts.{Makes};
ghost use Rattle.growing_history.specs.Steps.{Protected, Step, step, Begins, steps_by};
ghost use Rattle.growing_history.specs.Views.{Member};
ghost use Rattle.pair_book.specs.declared.failures.Ack.{Ack};
ghost use Rattle.pair_book.specs.declared.prepared.Prepared.TheVariants.{Checkpoint};
ghost use Rattle.pair_book.specs.Made.{Reads, carried, IsPrepared};
ghost use Rattle.pair_book.specs.Packets.{PacketState};
ghost use Rattle.pair_book.specs.Settled.{RunnerOutside, EpochFollows, Runs, settled_runner};
ghost use Rattle.pair_book.specs.Standing.{Stands, first_ack};

use growing_history::live_members_miss_nothing;

/// The first runner begins with the guest where the history starts, and so does the first backup, whose image counts as committed; a new
/// backup stands whatever its image, since it has still to be filled.
pub fn members_begin()
    ensures runner { (start : HistoryState)
        → Runs start (record { number = first_runner; steps = [] }) (settled_runner start.guest []) }
    ensures backup { (start : HistoryState)
        → Stands start (record { number = first_backup; steps = [] }) start.guest (Some first_ack) 0 1 [] }
    ensures new_backup { (start : HistoryState) (steps : List Step) (b : ℕ) (image : Guest)
        → Stands start (record { number = b; steps = steps ++ step 0 (Protected b) ∷ [] }) image None 0 1 [] }
{}

/// A runner that runs on does so where its seat looks, and a backup that stands does so, if they have made no step since.
pub fn members_go_on()
    ensures runner { (start : HistoryState) (seat : Member) (now : List Step) (x : RunnerOutside) → Begins seat.steps now → LegalSteps start now
        → steps_by seat.number now ≡ steps_by seat.number seat.steps → Runs start seat x
        → Runs start (record { number = seat.number; steps = now }) x }
    ensures backup { (start : HistoryState) (seat : Member) (now : List Step) (image : Guest) (last : Option Ack) (sent first : ℕ)
        (kept : List (List Frame)) → Begins seat.steps now → LegalSteps start now
        → steps_by seat.number now ≡ steps_by seat.number seat.steps → Stands start seat image last sent first kept
        → Stands start (record { number = seat.number; steps = now }) image last sent first kept }
{
    live_members_miss_nothing();
}

/// What a runner that runs on brings was settled, and a text of its machine is what it has to prepare: one that makes its guest of the one
/// at which the machine was last settled, of any guest where it is the full one, and carries its outbox.
pub fn runners_bring_what_they_have()
    ensures settled { (start : HistoryState) (seat : Member) (x : RunnerOutside) → Runs start seat x
        → EpochFollows start seat x.arrivals x.steps x.outbox }
    ensures prepared { (start : HistoryState) (seat : Member) (x : RunnerOutside) (c : PacketState) → Runs start seat x
        → Makes (Reads start) c.number c.text (carried c.number x.outbox) x.settled x.guest
        → IsPrepared start seat x.arrivals x.steps x.outbox (Checkpoint c) }
{}
