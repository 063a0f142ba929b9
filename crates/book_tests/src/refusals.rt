//! Each refusal of a call stands in its place: a row meets two of them at once, and the earlier one is answered. The tests of
//! [`crate::beacon`] meet Exhausted.
use crate::rows::{Answer, By, Call, Read, Row, answers};
use pair_book::Refusal;
use std::test::*;

/// Where four are pending, what isn't a checkpoint is Behind before it is AlreadyPaired, and one of another generation before it is Stale;
/// where the primary has stopped all is Stopped first.
#[test]
fn a_submit_is_refused_in_order(rt: HostRuntime) -> Result<(), Fail> {
    static ROWS: [Row; 13] = [
        (Call::Submit(2, 1), Err(Refusal::Stale)),
        (Call::Submit(1, 2), Err(Refusal::Stale)),
        (Call::Submit(1, 1), Ok(Answer::None)),
        (Call::Submit(1, 2), Ok(Answer::None)),
        (Call::Submit(1, 3), Ok(Answer::None)),
        (Call::Submit(1, 4), Ok(Answer::None)),
        (Call::Submit(1, 5), Err(Refusal::Behind)),
        (Call::SubmitNone, Err(Refusal::Behind)),
        (Call::Submit(2, 1), Err(Refusal::Behind)),
        (Call::FailPrimary, Ok(Answer::None)),
        (Call::SubmitNone, Err(Refusal::Stopped)),
        (Call::Submit(2, 1), Err(Refusal::Stopped)),
        (Call::Entries, Ok(Answer::Number(0))),
    ];
    answers(&rt, rt.alloc(), &ROWS)
}

/// Where a node is alone, a checkpoint of another generation is NotPaired before it is Stale. A filling pair takes the full one alone.
#[test]
fn a_submit_is_refused_in_order_alone(rt: HostRuntime) -> Result<(), Fail> {
    static ROWS: [Row; 8] = [
        (Call::FailBackup, Ok(Answer::Number(0))),
        (Call::Submit(2, 1), Err(Refusal::NotPaired)),
        (Call::SubmitNone, Ok(Answer::None)),
        (Call::Protect, Ok(Answer::Number(6))),
        (Call::SubmitNone, Err(Refusal::AlreadyPaired)),
        (Call::Submit(1, 0), Err(Refusal::Stale)),
        (Call::Submit(2, 1), Err(Refusal::Stale)),
        (Call::Submit(2, 0), Ok(Answer::None)),
    ];
    answers(&rt, rt.alloc(), &ROWS)
}

/// An ended runner is Stopped before a checkpoint of a node that is alone is NotPaired.
#[test]
fn an_ended_runner_is_refused_in_order(rt: HostRuntime) -> Result<(), Fail> {
    static ROWS: [Row; 5] = [
        (Call::FailPrimary, Ok(Answer::None)),
        (Call::GoLive, Ok(Answer::Number(6))),
        (Call::Submit(1, 1), Err(Refusal::Stopped)),
        (Call::Submit(2, 5), Err(Refusal::Stopped)),
        (Call::SubmitNone, Err(Refusal::Stopped)),
    ];
    answers(&rt, rt.alloc(), &ROWS)
}

/// A delta of version 1 is OldVersion before it is beyond what is sealed; one of another generation is Stale before it is beyond the next
/// one, which is Gap where none is sealed under it.
#[test]
fn a_commit_is_refused_in_order(rt: HostRuntime) -> Result<(), Fail> {
    static ROWS: [Row; 10] = [
        (Call::Foresee, Err(Refusal::Stale)),
        (
            Call::Commit(By::First, Read::OldDelta),
            Err(Refusal::OldVersion),
        ),
        (
            Call::Commit(By::First, Read::Checkpoint(1, 1)),
            Err(Refusal::Gap),
        ),
        (Call::Submit(1, 1), Ok(Answer::None)),
        (
            Call::Commit(By::First, Read::Checkpoint(2, 5)),
            Err(Refusal::Stale),
        ),
        (
            Call::Commit(By::First, Read::Checkpoint(1, 2)),
            Err(Refusal::Gap),
        ),
        (Call::IsEarlier(1, 1), Ok(Answer::Truth(false))),
        (
            Call::Commit(By::First, Read::Checkpoint(1, 1)),
            Ok(Answer::Ack(1, 1)),
        ),
        (Call::IsEarlier(1, 1), Ok(Answer::Truth(true))),
        (
            Call::Commit(By::First, Read::Checkpoint(1, 0)),
            Ok(Answer::Ack(1, 1)),
        ),
    ];
    answers(&rt, rt.alloc(), &ROWS)
}

/// Where a node is alone, and of a backup that isn't the live one, all is Stopped before it is Stale or Gap, but that a delta of version 1
/// is OldVersion first; which it is also before it is Stale.
#[test]
fn an_ended_backup_is_refused_in_order(rt: HostRuntime) -> Result<(), Fail> {
    static ROWS: [Row; 13] = [
        (Call::FailBackup, Ok(Answer::Number(0))),
        (Call::Foresee, Err(Refusal::Stopped)),
        (
            Call::Commit(By::First, Read::Nothing),
            Err(Refusal::Stopped),
        ),
        (
            Call::Commit(By::First, Read::Checkpoint(2, 5)),
            Err(Refusal::Stopped),
        ),
        (
            Call::Commit(By::First, Read::Checkpoint(1, 5)),
            Err(Refusal::Stopped),
        ),
        (
            Call::Commit(By::First, Read::OldDelta),
            Err(Refusal::OldVersion),
        ),
        (Call::Protect, Ok(Answer::Number(6))),
        (Call::Submit(2, 0), Ok(Answer::None)),
        (
            Call::Commit(By::First, Read::Nothing),
            Err(Refusal::Stopped),
        ),
        (
            Call::Commit(By::First, Read::Checkpoint(2, 0)),
            Err(Refusal::Stopped),
        ),
        (
            Call::Commit(By::First, Read::Checkpoint(1, 5)),
            Err(Refusal::Stopped),
        ),
        (
            Call::Commit(By::First, Read::OldDelta),
            Err(Refusal::OldVersion),
        ),
        (
            Call::Commit(By::New, Read::OldDelta),
            Err(Refusal::OldVersion),
        ),
    ];
    answers(&rt, rt.alloc(), &ROWS)
}

/// One of another generation is Stale before it is beyond the last commit; where a node is alone it is NotPaired first, where the primary
/// has stopped Stopped.
#[test]
fn an_acknowledgement_is_refused_in_order(rt: HostRuntime) -> Result<(), Fail> {
    static ROWS: [Row; 14] = [
        (Call::Submit(1, 1), Ok(Answer::None)),
        (Call::Acked(2, 9), Err(Refusal::Stale)),
        (Call::Acked(1, 1), Err(Refusal::Gap)),
        (Call::FailBackup, Ok(Answer::Number(0))),
        (Call::Acked(2, 9), Err(Refusal::NotPaired)),
        (Call::Acked(1, 9), Err(Refusal::NotPaired)),
        (Call::Protect, Ok(Answer::Number(6))),
        (Call::Submit(2, 0), Ok(Answer::None)),
        (Call::Acked(1, 1), Err(Refusal::Stale)),
        (Call::Acked(2, 0), Err(Refusal::Gap)),
        (
            Call::Commit(By::New, Read::Checkpoint(2, 0)),
            Ok(Answer::Ack(2, 0)),
        ),
        (Call::FailPrimary, Ok(Answer::None)),
        (Call::Acked(1, 9), Err(Refusal::Stopped)),
        (Call::Acked(2, 9), Err(Refusal::Stopped)),
    ];
    answers(&rt, rt.alloc(), &ROWS)
}

/// An old backup is refused by the mode first: AlreadyPaired in a pair, NotPaired where a node is alone. Where another primary has stopped
/// it is Stopped.
#[test]
fn going_live_is_refused_in_order(rt: HostRuntime) -> Result<(), Fail> {
    static ROWS: [Row; 12] = [
        (Call::GoLive, Err(Refusal::AlreadyPaired)),
        (Call::FailBackup, Ok(Answer::Number(0))),
        (Call::Protect, Ok(Answer::Number(6))),
        (Call::GoLive, Err(Refusal::AlreadyPaired)),
        (Call::FailBackup, Ok(Answer::Number(0))),
        (Call::GoLive, Err(Refusal::NotPaired)),
        (Call::Protect, Ok(Answer::Number(7))),
        (Call::Submit(3, 0), Ok(Answer::None)),
        (
            Call::Commit(By::New, Read::Checkpoint(3, 0)),
            Ok(Answer::Ack(3, 0)),
        ),
        (Call::GoLive, Err(Refusal::AlreadyPaired)),
        (Call::FailPrimary, Ok(Answer::None)),
        (Call::GoLive, Err(Refusal::Stopped)),
    ];
    answers(&rt, rt.alloc(), &ROWS)
}
