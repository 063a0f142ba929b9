//! What no clause says: that the calls for a guest that runs elsewhere succeed where there is memory, and that a backup goes live which
//! brings more than was committed. The events are called by pair_core's tests. Each call stands in a function of its own with the tests
//! that it needs before it, since what a test has done before is then carried no further.
ghost use Rattle.std.specs.Prelude.{All};
ghost use Rattle.frame_ports.specs.Addresses.{IsFrame};

use crate::asserts::{boxed, holds, made, same, same_bytes};
use arrayvec::ArrayVec;
use frame_list::FrameList;
use pair_record::{Frame, Mode, PairRecord, Reply, is_alone};
use std::alloc::Global;
use std::process::Abort;

/// A frame of 14 bytes from client 1.
const FRAME: [u8; 14] = [2, 0, 0, 0, 1, 0, 2, 0, 0, 0, 0, 1, 0x88, 0xb5];

/// The record of a pair with one client. It stands in a box, so that a test holds no large value.
fn begun(rt: &impl Abort, alloc: Global) -> Box<PairRecord> {
    boxed(rt, alloc, made(rt, PairRecord::new(alloc, 1)))
}

/// Client 1 delivers its frame: its number.
fn deliver(rt: &impl Abort, record: &mut PairRecord) -> u64 {
    made(rt, record.deliver(1, &FRAME, false))
}

/// The first frame of client 1's inbox, with its number.
fn handed_out(rt: &impl Abort, record: &mut PairRecord) -> (u64, Frame) {
    record.keep();
    if record.clients() != 1 || record.is_exhausted_by(1) {
        panic!(rt; "no frame can be handed out");
    }
    made(rt, record.reserve_arrivals(1));
    match record.hand_out(1) {
        Some(first) => first,
        None => panic!(rt; "there is no frame"),
    }
}

/// The frame is client 1's.
fn assert_frame(rt: &impl Abort, frame: &Frame) {
    same_bytes(rt, "the frame", frame.as_slice(), &FRAME);
}

#[test]
fn a_delivered_frame_is_handed_out(rt: HostRuntime) {
    let mut record = begun(&rt, rt.alloc());
    let delivered = deliver(&rt, &mut record);
    same(&rt, "delivered", delivered, 1);
    let (number, frame) = handed_out(&rt, &mut record);
    same(&rt, "the number", number, 1);
    assert_frame(&rt, &frame);
}

/// Seals an epoch of three steps that sent nothing.
fn seal(rt: &impl Abort, record: &mut PairRecord) -> Reply {
    if is_alone(record.mode()) || record.cut_refusal().is_some() || record.is_exhausted_by(3) {
        panic!(rt; "an epoch can't be sealed");
    }
    made(rt, record.seal_epoch(0, 3, &[]))
}

/// A record in which an epoch of three steps was sealed.
fn sealed(rt: &impl Abort, alloc: Global) -> Box<PairRecord> {
    let mut record = begun(rt, alloc);
    match seal(rt, &mut record) {
        Reply::Cut {
            generation: 1,
            number: 1,
        } => record,
        _ => panic!(rt; "another checkpoint"),
    }
}

/// The backup fails within an epoch.
fn fail_backup(rt: &impl Abort, record: &mut PairRecord) -> Reply {
    if is_alone(record.mode()) {
        panic!(rt; "the backup can't fail");
    }
    made(rt, record.fail_backup_within(false))
}

/// An epoch of two steps enters the history.
fn enter(rt: &impl Abort, record: &mut PairRecord) {
    record.keep();
    if !is_alone(record.mode()) || record.enter_epoch_refusal(2, &[]).is_some() {
        panic!(rt; "an epoch can't enter");
    }
    made(rt, record.enter_epoch(0, 2, &[]));
}

/// The history has so many entries.
fn assert_entries(rt: &impl Abort, record: &PairRecord, count: u64) {
    same(rt, "entries", record.history().len(), count);
}

#[test]
fn a_backup_fails_within_an_epoch_which_enters_the_history(rt: HostRuntime) {
    let mut record = sealed(&rt, rt.alloc());
    let reply = fail_backup(&rt, &mut record);
    let is_right = matches!(
        reply,
        Reply::Alone {
            generation: 1,
            landed: 0
        }
    );
    holds(&rt, "the reply", is_right);
    assert_entries(&rt, &record, 3);
    enter(&rt, &mut record);
    assert_entries(&rt, &record, 5);
}

/// A node that is alone gets a new backup.
fn protect(rt: &impl Abort, record: &mut PairRecord) -> Reply {
    if !is_alone(record.mode()) || record.protect_refusal().is_some() {
        panic!(rt; "there can't be a new backup");
    }
    record.begin_protect()
}

/// Its full checkpoint is sealed, after an epoch in which nothing happened.
fn seal_full(rt: &impl Abort, record: &mut PairRecord) -> Reply {
    if !matches!(record.mode(), Mode::Filling) || record.window().to_cut != 0 {
        panic!(rt; "the full checkpoint isn't next");
    }
    if record.enter_epoch_refusal(0, &[]).is_some() {
        panic!(rt; "no epoch can enter the history");
    }
    made(rt, record.enter_epoch_and_seal_full(0, 0, &[]))
}

#[test]
fn a_full_checkpoint_is_sealed_once_protection_has_begun(rt: HostRuntime) {
    let mut record = sealed(&rt, rt.alloc());
    fail_backup(&rt, &mut record);
    let reply = protect(&rt, &mut record);
    holds(&rt, "protecting", matches!(reply, Reply::Protecting(2)));
    let reply = seal_full(&rt, &mut record);
    let is_right = matches!(
        reply,
        Reply::Cut {
            generation: 2,
            number: 0
        }
    );
    holds(&rt, "the reply", is_right);
    same(&rt, "pending", record.pending(), 1);
}

/// A frame of 14 bytes from the guest to client 1.
fn answer() -> Frame
    ensures { IsFrame result }
{
    let mut frame = ArrayVec::new();
    match frame.try_extend_from_slice(&[2, 0, 0, 0, 1, 1, 2, 0, 0, 0, 1, 0, 0x88, 0xb5]) {
        Ok(()) => frame,
        Err(_) => unreachable!(),
    }
}

/// Two of them.
fn two_answers(rt: &impl Abort, alloc: Global) -> FrameList
    ensures { All IsFrame result.items }
{
    made(rt, FrameList::copies(alloc, &[answer(), answer()]))
}

/// Seals an epoch of three steps that sent one answer.
fn seal_answer(rt: &impl Abort, record: &mut PairRecord) {
    if is_alone(record.mode()) || record.cut_refusal().is_some() || record.is_exhausted_by(3) {
        panic!(rt; "an epoch can't be sealed");
    }
    made(rt, record.seal_epoch(0, 3, &[answer()]));
}

/// The next checkpoint is committed.
fn commit(rt: &impl Abort, record: &mut PairRecord) {
    let window = record.window();
    if window.to_commit >= window.to_cut {
        panic!(rt; "there is nothing to commit");
    }
    made(rt, record.commit());
}

/// The primary stops.
fn fail_primary(rt: &impl Abort, record: &mut PairRecord) {
    made(rt, record.fail_primary(false));
}

/// The backup goes live after seven steps, and brings two answers of one commit.
fn go_live(rt: &impl Abort, alloc: Global, record: &mut PairRecord) -> Reply {
    let kept = [two_answers(rt, alloc)];
    if is_alone(record.mode()) || record.go_live_refusal(1, &kept).is_some() {
        panic!(rt; "the backup can't go live");
    }
    made(rt, record.go_live(7, 1, &kept))
}

#[test]
fn what_a_backup_brings_lands_up_to_the_last_commit(rt: HostRuntime) {
    let mut record = begun(&rt, rt.alloc());
    seal_answer(&rt, &mut record);
    commit(&rt, &mut record);
    fail_primary(&rt, &mut record);
    let reply = go_live(&rt, rt.alloc(), &mut record);
    let is_right = matches!(
        reply,
        Reply::Live {
            generation: 2,
            steps: 7
        }
    );
    holds(&rt, "the reply", is_right);
    assert_entries(&rt, &record, 4);
}
