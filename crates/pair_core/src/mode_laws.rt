//! How modes and generations change.
ghost use Rattle.std.specs.Prelude.{◌≡◌};
ghost use Rattle.failover.specs.declared.change.Change.{Change};
ghost use Rattle.failover.specs.declared.mode.Mode.{Mode};
ghost use Rattle.pair_history.specs.HistoryState.{HistoryState};
ghost use Rattle.pair_record.specs.declared.event.Event.{Event};
ghost use Rattle.pair_record.specs.declared.event.Reply.{Reply};
ghost use Rattle.pair_core.specs.Answering.{AnswersEvent};
ghost use Rattle.pair_core.specs.ModeChanges.{event_of, LeavesMode};
ghost use Rattle.pair_record.specs.Modes.{mode_refusal, change_refusal};
ghost use Rattle.pair_core.specs.Lines.{Protocol};

/// Modes change as failover's state table says, row by row, and generations rise so: each of the four changes is refused, and then
/// changes nothing, or leaves the mode and the generation of its row. Every other event leaves the generation, and the mode; but the
/// commit of a new backup's full checkpoint makes Filling Paired.
pub fn modes_change_by_failovers_table()
    ensures refused { (change : Change) (mode : Mode) → mode_refusal mode (event_of change) ≡ change_refusal change mode }
    ensures leaves { (start : HistoryState) (old new : Protocol) (event : Event) (reply : Reply)
        → AnswersEvent start old event reply new → LeavesMode event old.state reply new.state }
{}
