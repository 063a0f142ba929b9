//! Which events a mode refuses, whatever else holds.
ghost use Rattle.std.specs.Prelude.{◌≡◌};
ghost use Rattle.pair_record.specs.Modes as modes;
ghost use Rattle.pair_record.specs.Protocol.{step_room as step_entries};
ghost use Rattle.failover.specs.Modes.{mode_filled};

use crate::event::{Event, Refusal};
use crate::limits::STEP_ENTRIES;
use failover::{Change, FailoverError, Mode};

/// Whether the primary has stopped, and the backup hasn't gone live.
pub fn is_stopped(mode: Mode) -> bool
    ensures { result ≡ modes.is_stopped mode }
{
    match mode {
        Mode::Stopped => true,
        Mode::Paired | Mode::Filling | Mode::Alone => false,
    }
}

/// Whether a node is alone.
pub fn is_alone(mode: Mode) -> bool
    ensures { result ≡ modes.is_alone mode }
{
    match mode {
        Mode::Alone => true,
        Mode::Paired | Mode::Filling | Mode::Stopped => false,
    }
}

/// The mode once a new backup's full checkpoint is committed, or any other.
pub(crate) fn filled(mode: Mode) -> Mode
    ensures { result ≡ mode_filled mode }
{
    match mode {
        Mode::Paired | Mode::Filling => Mode::Paired,
        Mode::Alone => Mode::Alone,
        Mode::Stopped => Mode::Stopped,
    }
}

/// Why what the primary does in a pair is refused.
fn primary_refusal(mode: Mode) -> Option<Refusal>
    ensures { result ≡ modes.primary_refusal mode }
{
    match mode {
        Mode::Paired | Mode::Filling => None,
        Mode::Alone => Some(Refusal::NotPaired),
        Mode::Stopped => Some(Refusal::Stopped),
    }
}

/// Why what the backup does is refused.
fn backup_refusal(mode: Mode) -> Option<Refusal>
    ensures { result ≡ modes.backup_refusal mode }
{
    match mode {
        Mode::Paired | Mode::Filling | Mode::Stopped => None,
        Mode::Alone => Some(Refusal::NotPaired),
    }
}

/// The pair's refusal of the same name.
fn named(error: FailoverError) -> Refusal
    ensures { result ≡ modes.named error }
{
    match error {
        FailoverError::Stopped => Refusal::Stopped,
        FailoverError::NotPaired => Refusal::NotPaired,
        FailoverError::AlreadyPaired => Refusal::AlreadyPaired,
        FailoverError::NoImage => Refusal::NoImage,
    }
}

/// Why a change of mode is refused.
pub(crate) fn change_refusal(change: Change, mode: Mode) -> Option<Refusal>
    ensures { result ≡ modes.change_refusal change mode }
{
    match mode.after(change) {
        Ok(_) => None,
        Err(error) => Some(named(error)),
    }
}

/// Why an event is refused in a mode, if the mode alone says so.
pub fn mode_refusal(mode: Mode, event: Event<'_>) -> Option<Refusal>
    ensures { result ≡ modes.mode_refusal mode event.entry }
{
    match event {
        Event::Cut | Event::Send | Event::AckGet(_) => primary_refusal(mode),
        Event::BackupGet(_) => backup_refusal(mode),
        Event::FailPrimary => change_refusal(Change::FailPrimary, mode),
        Event::FailBackup => change_refusal(Change::FailBackup, mode),
        Event::GoLive => change_refusal(Change::GoLive, mode),
        Event::Protect => change_refusal(Change::Protect, mode),
        Event::Step
        | Event::Admit(_)
        | Event::Deliver(_, _)
        | Event::Take(_)
        | Event::LoseIn(_, _)
        | Event::LoseOut(_, _) => None,
    }
}

/// How many entries a step counts as, whatever it sends.
pub(crate) fn step_room(mode: Mode) -> u64
    ensures { result ≡ step_entries mode }
{
    if is_alone(mode) { STEP_ENTRIES } else { 1 }
}
