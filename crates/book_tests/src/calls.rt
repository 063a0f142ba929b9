//! What no clause says of the calls: that they succeed where there is memory. The guest makes no step here, so what it sends is known
//! without running it.
use crate::rows::{Answer, By, Call, Read, Row, answers};
use pair_book::{Kind, Lost, Refusal};
use std::test::*;

#[test]
fn a_frame_is_delivered_and_lost(rt: HostRuntime) -> Result<(), Fail> {
    static ROWS: [Row; 10] = [
        (Call::Seats, Ok(Answer::Seats([1, 2, 3, 4, 5]))),
        (Call::Deliver(14), Ok(Answer::Number(1))),
        (Call::Deliver(13), Err(Refusal::BadFrame)),
        (Call::LoseIn(1, 0), Ok(Answer::Loss(Lost::Dropped))),
        (Call::LoseIn(1, 0), Ok(Answer::Loss(Lost::Empty))),
        (Call::LoseIn(3, 0), Err(Refusal::NoClient)),
        (Call::LoseOut(1, 0), Ok(Answer::Loss(Lost::Empty))),
        (Call::LoseOut(3, 0), Err(Refusal::NoClient)),
        (Call::Take(2), Ok(Answer::None)),
        (Call::Entries, Ok(Answer::Number(3))),
    ];
    answers(&rt, rt.alloc(), &ROWS)
}

#[test]
fn an_inbox_takes_64_frames(rt: HostRuntime) -> Result<(), Fail> {
    let mut rows = Vec::new(rt.alloc());
    for number in 1..=64 {
        rows.push((Call::Deliver(14), Ok(Answer::Number(number))))?;
    }
    rows.push((Call::Deliver(14), Err(Refusal::Full)))?;
    rows.push((Call::Deliver(13), Err(Refusal::BadFrame)))?;
    rows.push((Call::Entries, Ok(Answer::Number(65))))?;
    answers(&rt, rt.alloc(), rows.as_slice())
}

#[test]
fn a_backup_fails_and_a_new_one_comes(rt: HostRuntime) -> Result<(), Fail> {
    static ROWS: [Row; 18] = [
        (Call::Ask, Ok(Answer::Want(Kind::Delta, 1, 1))),
        (Call::Next, Ok(Answer::None)),
        (Call::Acked(1, 1), Err(Refusal::Gap)),
        (Call::Acked(2, 1), Err(Refusal::Stale)),
        (Call::Protect, Err(Refusal::AlreadyPaired)),
        (Call::FailBackup, Ok(Answer::Number(0))),
        (Call::Ask, Ok(Answer::Want(Kind::Nothing, 1, 0))),
        (Call::Next, Err(Refusal::NotPaired)),
        (Call::FailBackup, Err(Refusal::NotPaired)),
        (Call::FailPrimary, Err(Refusal::NoImage)),
        (Call::Acked(1, 0), Err(Refusal::NotPaired)),
        (Call::Protect, Ok(Answer::Number(6))),
        (Call::Ask, Ok(Answer::Want(Kind::Full, 2, 0))),
        (Call::Next, Ok(Answer::None)),
        (Call::FailPrimary, Err(Refusal::NoImage)),
        (Call::Acked(1, 0), Err(Refusal::Stale)),
        (Call::Acked(2, 0), Err(Refusal::Gap)),
        (Call::Entries, Ok(Answer::Number(0))),
    ];
    answers(&rt, rt.alloc(), &ROWS)
}

#[test]
fn a_stopped_primary_refuses(rt: HostRuntime) -> Result<(), Fail> {
    static ROWS: [Row; 8] = [
        (Call::FailPrimary, Ok(Answer::None)),
        (Call::Ask, Err(Refusal::Stopped)),
        (Call::Next, Err(Refusal::Stopped)),
        (Call::FailPrimary, Err(Refusal::Stopped)),
        (Call::FailBackup, Err(Refusal::Stopped)),
        (Call::Protect, Err(Refusal::Stopped)),
        (Call::Acked(1, 0), Err(Refusal::Stopped)),
        (Call::Deliver(14), Ok(Answer::Number(1))),
    ];
    answers(&rt, rt.alloc(), &ROWS)
}

#[test]
fn a_delta_is_sealed_sent_and_committed(rt: HostRuntime) -> Result<(), Fail> {
    static ROWS: [Row; 12] = [
        (Call::Deliver(14), Ok(Answer::Number(1))),
        (Call::SubmitNone, Err(Refusal::AlreadyPaired)),
        (Call::Submit(1, 1), Ok(Answer::Number(1))),
        (Call::Next, Ok(Answer::Number(1))),
        (Call::Acked(1, 1), Err(Refusal::Gap)),
        (Call::Commit(By::First, Read::Nothing), Err(Refusal::Stale)),
        (
            Call::Commit(By::First, Read::Checkpoint(1, 1)),
            Ok(Answer::Ack(1, 1)),
        ),
        (
            Call::Commit(By::First, Read::Checkpoint(1, 1)),
            Ok(Answer::Ack(1, 1)),
        ),
        (Call::Next, Ok(Answer::Number(1))),
        (Call::Acked(1, 1), Ok(Answer::Number(0))),
        (Call::Next, Ok(Answer::None)),
        (Call::Entries, Ok(Answer::Number(1))),
    ];
    answers(&rt, rt.alloc(), &ROWS)
}

#[test]
fn a_full_checkpoint_fills_a_new_backup(rt: HostRuntime) -> Result<(), Fail> {
    static ROWS: [Row; 13] = [
        (Call::Deliver(14), Ok(Answer::Number(1))),
        (Call::FailBackup, Ok(Answer::Number(0))),
        (Call::Protect, Ok(Answer::Number(6))),
        (Call::Submit(2, 0), Ok(Answer::Number(1))),
        (Call::Next, Ok(Answer::Number(0))),
        (Call::Acked(2, 0), Err(Refusal::Gap)),
        (Call::Commit(By::New, Read::Nothing), Err(Refusal::Stale)),
        (
            Call::Commit(By::New, Read::Checkpoint(2, 0)),
            Ok(Answer::Ack(2, 0)),
        ),
        (
            Call::Commit(By::New, Read::Checkpoint(2, 0)),
            Ok(Answer::Ack(2, 0)),
        ),
        (Call::Next, Ok(Answer::Number(0))),
        (Call::Acked(2, 0), Ok(Answer::Number(0))),
        (Call::Next, Ok(Answer::None)),
        (Call::Entries, Ok(Answer::Number(1))),
    ];
    answers(&rt, rt.alloc(), &ROWS)
}

#[test]
fn a_lone_node_runs_on(rt: HostRuntime) -> Result<(), Fail> {
    static ROWS: [Row; 5] = [
        (Call::Deliver(14), Ok(Answer::Number(1))),
        (Call::FailBackup, Ok(Answer::Number(0))),
        (Call::Submit(1, 1), Err(Refusal::NotPaired)),
        (Call::SubmitNone, Ok(Answer::Number(1))),
        (
            Call::Commit(By::First, Read::Checkpoint(1, 1)),
            Err(Refusal::Stopped),
        ),
    ];
    answers(&rt, rt.alloc(), &ROWS)
}

#[test]
fn a_backup_goes_live(rt: HostRuntime) -> Result<(), Fail> {
    static ROWS: [Row; 7] = [
        (Call::Deliver(14), Ok(Answer::Number(1))),
        (Call::FailPrimary, Ok(Answer::None)),
        (Call::GoLive, Ok(Answer::Number(6))),
        (Call::Ask, Err(Refusal::Stopped)),
        (Call::AskNew, Ok(Answer::Want(Kind::Nothing, 2, 0))),
        (Call::Next, Err(Refusal::NotPaired)),
        (Call::Entries, Ok(Answer::Number(1))),
    ];
    answers(&rt, rt.alloc(), &ROWS)
}
