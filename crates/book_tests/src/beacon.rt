//! A pair whose guest runs: the beacon sends client 1 one frame, in its 22nd step, and then jumps to itself for ever. Its first epoch is
//! sealed and committed, and then the book is called.
ghost use Rattle.std.specs.Prelude.{◌≡◌, ℕ, ◌≤◌, List, [], ◌∷◌, length, vec_len, map, All, IfOk, OnOk};
ghost use Rattle.checkpoint_stream.specs.{ReadBack.ReadsBack, Text.text};
ghost use Rattle.frame_ports.specs.Addresses.{IsFrame};
ghost use Rattle.guest_rules.specs.Guest.{Guest, HasDeviceRecords, boot_guest};
ghost use Rattle.guest_rules.specs.Runs.{after_steps, sent_in, marked_in};
ghost use Rattle.pair_history.specs.Entries.{Frame};
ghost use Rattle.pair_history.specs.HistoryState.{start_state};
ghost use Rattle.growing_history.specs.LogState.{first_runner, first_backup};
ghost use Rattle.pair_book.specs.Commits.{WasRead, StandsAfterNext};
ghost use Rattle.pair_book.specs.Made.{IsShape, IsPrepared};
ghost use Rattle.pair_book.specs.Settled.{EpochFollows, Runs, RunsOn, settled_runner};
ghost use Rattle.pair_book.specs.Standing.{KeepsFrames};
ghost use Rattle.book_tests.specs.Machines.{IsLike};

use crate::asserts::{holds, same};
use crate::hosts::{Host, Seated, host_of, seat_all};
use crate::prepared::SettledMachine;
use crate::rows::{Answer, Call, Row, play, unnamed};
use epoch_cuts::cut_delta;
use epoch_snapshot::Checkpoint;
use frame_list::FrameList;
use frame_ports::NUMBER_LIMIT;
use growing_history::{BackupSeat, Clock, Pair, RunnerSeat};
use guest_kit::beacon;
use guest_machine::{Machine, Shape, changed_sectors_are_listed, kept_disk, kept_memory};
use pair_book::{
    Ack, Book, Kind, Lost, Next, OpenEpoch, Prepared, Refusal, TextPacket, UnnamedBook, Want,
    members_begin, runners_bring_what_they_have,
};
use pair_history::Frame;
use std::alloc::Global;
use std::marker::Brand;
use std::process::Abort;
use std::test::*;

const SHAPE: Shape = Shape {
    pages: 2,
    sectors: 1,
};

/// The most steps of an epoch for which the history has numbers, with the four frames that may be handed out to each of two clients.
const MOST_STEPS: u64 = NUMBER_LIMIT - 9;

#[test]
fn a_frame_lands_at_its_acknowledgement(rt: HostRuntime) -> Result<(), Fail> {
    static ROWS: [Row; 13] = [
        (Call::Entries, Ok(Answer::Number(22))),
        (Call::Ask, Ok(Answer::Want(Kind::Delta, 1, 2))),
        (Call::Next, Ok(Answer::Number(1))),
        (Call::Take(1), Ok(Answer::None)),
        (Call::Acked(1, 1), Ok(Answer::Number(1))),
        (Call::Acked(1, 1), Ok(Answer::Number(0))),
        (Call::Next, Ok(Answer::None)),
        (Call::Take(1), Ok(Answer::Beacon)),
        (Call::Take(1), Ok(Answer::None)),
        (Call::FailPrimary, Ok(Answer::None)),
        (Call::GoLive, Ok(Answer::Number(6))),
        (Call::Take(1), Ok(Answer::None)),
        // The steps, the landing and four answers.
        (Call::Entries, Ok(Answer::Number(27))),
    ];
    answers(&rt, rt.alloc(), 22, &ROWS)
}

#[test]
fn a_landed_frame_is_lost(rt: HostRuntime) -> Result<(), Fail> {
    static ROWS: [Row; 6] = [
        (Call::LoseOut(1, 0), Ok(Answer::Loss(Lost::Empty))),
        (Call::Acked(1, 1), Ok(Answer::Number(1))),
        (Call::LoseOut(1, 0), Ok(Answer::Loss(Lost::Dropped))),
        (Call::LoseOut(1, 0), Ok(Answer::Loss(Lost::Empty))),
        (Call::Take(1), Ok(Answer::None)),
        (Call::Entries, Ok(Answer::Number(25))),
    ];
    answers(&rt, rt.alloc(), 22, &ROWS)
}

#[test]
fn a_kept_frame_lands_where_the_backup_goes_live(rt: HostRuntime) -> Result<(), Fail> {
    static ROWS: [Row; 8] = [
        (Call::Deliver(14), Ok(Answer::Number(1))),
        (Call::FailPrimary, Ok(Answer::None)),
        (Call::GoLive, Ok(Answer::Number(6))),
        (Call::Ask, Err(Refusal::Stopped)),
        (Call::Acked(1, 1), Err(Refusal::NotPaired)),
        (Call::Take(1), Ok(Answer::Beacon)),
        (Call::Take(1), Ok(Answer::None)),
        // The steps, the delivery, the landing and two answers.
        (Call::Entries, Ok(Answer::Number(26))),
    ];
    answers(&rt, rt.alloc(), 22, &ROWS)
}

#[test]
fn a_held_frame_lands_where_the_backup_fails(rt: HostRuntime) -> Result<(), Fail> {
    static ROWS: [Row; 6] = [
        (Call::Deliver(14), Ok(Answer::Number(1))),
        (Call::FailBackup, Ok(Answer::Number(1))),
        (Call::Take(1), Ok(Answer::Beacon)),
        (Call::SubmitNone, Ok(Answer::Number(1))),
        (Call::LoseIn(1, 0), Ok(Answer::Loss(Lost::Empty))),
        (Call::Entries, Ok(Answer::Number(25))),
    ];
    answers(&rt, rt.alloc(), 22, &ROWS)
}

/// Eight deliveries take the last numbers of the history. A call that is refused for another reason too is refused for that one first, and
/// one that adds no entry is answered.
#[test]
fn a_history_has_no_more_numbers(rt: HostRuntime) -> Result<(), Fail> {
    static ROWS: [Row; 29] = [
        (Call::Entries, Ok(Answer::Number(MOST_STEPS))),
        (Call::Deliver(14), Ok(Answer::Number(1))),
        (Call::Deliver(14), Ok(Answer::Number(2))),
        (Call::Deliver(14), Ok(Answer::Number(3))),
        (Call::Deliver(14), Ok(Answer::Number(4))),
        (Call::Deliver(14), Ok(Answer::Number(5))),
        (Call::Deliver(14), Ok(Answer::Number(6))),
        (Call::Deliver(14), Ok(Answer::Number(7))),
        (Call::Deliver(14), Ok(Answer::Number(8))),
        (Call::Entries, Ok(Answer::Number(NUMBER_LIMIT - 1))),
        (Call::Deliver(13), Err(Refusal::BadFrame)),
        (Call::Deliver(14), Err(Refusal::Exhausted)),
        (Call::Take(1), Err(Refusal::Exhausted)),
        (Call::LoseIn(3, 0), Err(Refusal::NoClient)),
        (Call::LoseIn(1, 8), Ok(Answer::Loss(Lost::Empty))),
        (Call::LoseIn(1, 3), Err(Refusal::Exhausted)),
        (Call::LoseOut(3, 0), Err(Refusal::NoClient)),
        (Call::LoseOut(1, 0), Ok(Answer::Loss(Lost::Empty))),
        (Call::Acked(2, 1), Err(Refusal::Stale)),
        (Call::Acked(1, 2), Err(Refusal::Gap)),
        (Call::Acked(1, 1), Err(Refusal::Exhausted)),
        (Call::Acked(1, 0), Ok(Answer::Number(0))),
        (Call::FailBackup, Err(Refusal::Exhausted)),
        (Call::SubmitNone, Err(Refusal::AlreadyPaired)),
        (Call::Next, Ok(Answer::Number(1))),
        (Call::GoLive, Err(Refusal::AlreadyPaired)),
        (Call::FailPrimary, Ok(Answer::None)),
        (Call::GoLive, Err(Refusal::Exhausted)),
        (Call::Entries, Ok(Answer::Number(NUMBER_LIMIT - 1))),
    ];
    answers(&rt, rt.alloc(), MOST_STEPS, &ROWS)
}

/// 64 deliveries fill the inbox and take the last numbers of the history: one more is Exhausted before it is Full.
#[test]
fn a_full_inbox_has_no_more_numbers(rt: HostRuntime) -> Result<(), Fail> {
    let mut rows = Vec::new(rt.alloc());
    for number in 1..=64 {
        rows.push((Call::Deliver(14), Ok(Answer::Number(number))))?;
    }
    rows.push((Call::Deliver(14), Err(Refusal::Exhausted)))?;
    rows.push((Call::Deliver(13), Err(Refusal::BadFrame)))?;
    rows.push((Call::Entries, Ok(Answer::Number(NUMBER_LIMIT - 1))))?;
    answers(&rt, rt.alloc(), MOST_STEPS - 56, rows.as_slice())
}

/// In a pair the history has no numbers for what may be handed out after an epoch. A `submit` that is refused for another reason too is
/// refused for that one first.
#[test]
fn a_pair_has_no_numbers_for_an_epoch(rt: HostRuntime) -> Result<(), Fail> {
    static ROWS: [Row; 22] = [
        (Call::Submit(1, 2), Ok(Answer::None)),
        (Call::Submit(1, 3), Ok(Answer::None)),
        (Call::Submit(1, 4), Ok(Answer::None)),
        (Call::Deliver(14), Ok(Answer::Number(1))),
        // Four are pending.
        (Call::Submit(1, 5), Err(Refusal::Behind)),
        (Call::Submit(1, 6), Err(Refusal::Behind)),
        (Call::Submit(2, 5), Err(Refusal::Behind)),
        (Call::SubmitNone, Err(Refusal::Behind)),
        (Call::Acked(1, 1), Ok(Answer::Number(1))),
        (Call::SubmitNone, Err(Refusal::AlreadyPaired)),
        (Call::Submit(1, 6), Err(Refusal::Stale)),
        (Call::Submit(2, 5), Err(Refusal::Stale)),
        (Call::Submit(1, 0), Err(Refusal::Stale)),
        (Call::Submit(1, 5), Err(Refusal::Exhausted)),
        (Call::FailPrimary, Ok(Answer::None)),
        (Call::Submit(1, 5), Err(Refusal::Stopped)),
        (Call::Submit(2, 5), Err(Refusal::Stopped)),
        (Call::SubmitNone, Err(Refusal::Stopped)),
        (Call::GoLive, Ok(Answer::Number(6))),
        (Call::Submit(1, 5), Err(Refusal::Stopped)),
        (Call::SubmitNone, Err(Refusal::Stopped)),
        // The steps, the delivery and the landing.
        (Call::Entries, Ok(Answer::Number(MOST_STEPS + 2))),
    ];
    answers(&rt, rt.alloc(), MOST_STEPS, &ROWS)
}

/// A node that is alone has no numbers for an epoch with what may be handed out after it, and calls of its client take the last ones. A
/// new backup's full checkpoint has none then. A checkpoint of the node that is alone is NotPaired first, and in the new pair none is
/// AlreadyPaired first, and another is Stale first.
#[test]
fn a_lone_history_has_no_more_numbers(rt: HostRuntime) -> Result<(), Fail> {
    static ROWS: [Row; 18] = [
        (Call::FailBackup, Ok(Answer::Number(1))),
        (Call::Submit(1, 2), Err(Refusal::NotPaired)),
        (Call::Submit(2, 0), Err(Refusal::NotPaired)),
        (Call::SubmitNone, Err(Refusal::Exhausted)),
        (Call::Take(1), Ok(Answer::Beacon)),
        (Call::Take(1), Ok(Answer::None)),
        (Call::Deliver(14), Ok(Answer::Number(1))),
        (Call::Deliver(14), Ok(Answer::Number(2))),
        (Call::Deliver(14), Ok(Answer::Number(3))),
        (Call::Deliver(14), Ok(Answer::Number(4))),
        (Call::Deliver(14), Ok(Answer::Number(5))),
        (Call::Take(1), Err(Refusal::Exhausted)),
        (Call::Protect, Ok(Answer::Number(6))),
        (Call::SubmitNone, Err(Refusal::AlreadyPaired)),
        (Call::Submit(1, 0), Err(Refusal::Stale)),
        (Call::Submit(2, 1), Err(Refusal::Stale)),
        (Call::Submit(2, 0), Err(Refusal::Exhausted)),
        (Call::Entries, Ok(Answer::Number(NUMBER_LIMIT - 1))),
    ];
    answers(&rt, rt.alloc(), MOST_STEPS, &ROWS)
}

/// A frame that landed can't be lost where the history has no number for that.
#[test]
fn a_loss_of_a_box_has_no_number(rt: HostRuntime) -> Result<(), Fail> {
    static ROWS: [Row; 12] = [
        (Call::Acked(1, 1), Ok(Answer::Number(1))),
        (Call::Deliver(14), Ok(Answer::Number(1))),
        (Call::Deliver(14), Ok(Answer::Number(2))),
        (Call::Deliver(14), Ok(Answer::Number(3))),
        (Call::Deliver(14), Ok(Answer::Number(4))),
        (Call::Deliver(14), Ok(Answer::Number(5))),
        (Call::Deliver(14), Ok(Answer::Number(6))),
        (Call::Deliver(14), Ok(Answer::Number(7))),
        (Call::LoseOut(1, 1), Ok(Answer::Loss(Lost::Empty))),
        (Call::LoseOut(1, 0), Err(Refusal::Exhausted)),
        (Call::FailBackup, Ok(Answer::Number(0))),
        (Call::Entries, Ok(Answer::Number(NUMBER_LIMIT - 1))),
    ];
    answers(&rt, rt.alloc(), MOST_STEPS, &ROWS)
}

/// The beacon's image. Where memory is refused it is made once more.
fn beacon_image(alloc: Global) -> Result<Vec<u8>, Fail>
    ensures { IfOk result (λ image. vec_len image ≡ 0x111a) }
{
    if let Ok(image) = beacon(alloc) {
        return Ok(image);
    }
    Ok(beacon(alloc)?)
}

/// This checkpoint's text. Where memory is refused it is made once more.
fn packet_of(alloc: Global, checkpoint: &Checkpoint) -> Result<TextPacket, Fail>
    requires { checkpoint.now.version ≡ 2 }
    ensures number { IfOk result (λ p. p.number ≡ checkpoint.now.number) }
    ensures text { IfOk result (λ p. p.text ≡ text checkpoint.now) }
    ensures read { IfOk result (λ p. ReadsBack checkpoint.now p.text) }
{
    if let Ok(packet) = TextPacket::new(alloc, checkpoint) {
        return Ok(packet);
    }
    Ok(TextPacket::new(alloc, checkpoint)?)
}

/// The machine of that image after so many steps from boot on.
fn ran(alloc: Global, image: &[u8], steps: u64) -> Result<Box<Machine>, Fail>
    requires { length image.now ≤ 8192 }
    ensures guest { IfOk result (λ m. m.value.guest ≡ after_steps steps (boot_guest 2 1 image.now)) }
    ensures outbox { IfOk result (λ m. m.value.outbox ≡ sent_in steps (boot_guest 2 1 image.now)) }
    ensures dirty { IfOk result (λ m. m.value.dirty ≡ marked_in steps (boot_guest 2 1 image.now) []) }
    ensures settled { IfOk result (λ m. m.value.settled ≡ (boot_guest 2 1 image.now).ram) }
{
    let mut machine = Box::new(alloc, Machine::boot(alloc, SHAPE, image)?)?;
    if machine.run(steps) != steps {
        return Err("so many steps".into());
    }
    Ok(machine)
}

/// The book shows its runner what it showed before: the length of the history, and what is wanted.
fn assert_unchanged<P: Pair, R: Abort>(
    rt: &R,
    book: &Book<P>,
    runner: &RunnerSeat<P>,
    (entries, want): (u64, Option<Want>),
) {
    same(rt, "entries", book.entries(), entries);
    holds(rt, "what is wanted", book.ask(runner).ok() == want);
}

/// The epoch of so many steps ends at the book, with what was prepared. Where memory is refused nothing has changed, and it is tried once
/// more.
fn submit<P: Pair, R: Abort>(
    rt: &R,
    alloc: Global,
    clock: &Clock<P>,
    book: &mut Book<P>,
    runner: &mut RunnerSeat<P>,
    steps: u64,
    frames: &[Frame],
    what: &Prepared,
) -> Result<Next, Fail>
    requires settled { EpochFollows P.start runner.old 0 steps frames.now }
    requires prepared { IsPrepared P.start runner.old 0 steps frames.now what.now }
    requires few { length frames.now ≤ 256 }
    requires frames { All IsFrame frames.now }
    ensures { IfOk result (λ next. RunsOn P.start runner.old runner.new 0 steps frames.now next.frames.items) }
{
    let epoch = OpenEpoch { arrivals: 0, steps };
    let before = (book.entries(), book.ask(runner).ok());
    match book.submit(alloc, clock, runner, epoch, frames, what) {
        Ok(next) => return Ok(next),
        Err(Refusal::NoMemory(_)) => {}
        Err(_) => return Err("the epoch ends".into()),
    }
    assert_unchanged(rt, book, runner, before);
    match book.submit(alloc, clock, runner, epoch, frames, what) {
        Ok(next) => Ok(next),
        Err(_) => Err("the epoch ends at the second time".into()),
    }
}

/// The first runner's first epoch of so many steps is sealed: this is its machine after them. Answers the checkpoint.
fn seal<P: Pair, R: Abort>(
    rt: &R,
    alloc: Global,
    clock: &Clock<P>,
    book: &mut Book<P>,
    runner: &mut RunnerSeat<P>,
    machine: &Machine,
    steps: u64,
) -> Result<Checkpoint, Fail>
    requires records { HasDeviceRecords P.start.guest }
    requires guest { machine.now.guest ≡ after_steps steps P.start.guest }
    requires outbox { machine.now.outbox ≡ sent_in steps P.start.guest }
    requires dirty { machine.now.dirty ≡ marked_in steps P.start.guest [] }
    requires settled { machine.now.settled ≡ P.start.guest.ram }
    requires seat { runner.old ≡ record { number = first_runner; steps = [] } }
    ensures runs { OnOk result ((held : List (ℕ × Frame)) × Runs P.start runner.new (settled_runner machine.now.guest held)) }
    ensures like { OnOk result (IsLike P.start machine.now.guest) }
    ensures read { IfOk result (λ c. WasRead c) }
    ensures shape { IfOk result (λ c. IsShape P.start c.shape) }
    ensures number { IfOk result (λ c. c.number ≡ 1) }
{
    kept_memory();
    kept_disk();
    changed_sectors_are_listed();
    members_begin();
    runners_bring_what_they_have();
    let checkpoint = cut_delta(alloc, machine, 1, 1)?;
    let packet = packet_of(alloc, &checkpoint)?;
    let what = Prepared::Checkpoint(packet);
    let frames = machine.outbox();
    let next = submit(rt, alloc, clock, book, runner, steps, frames, &what)?;
    drop(next);
    Ok(checkpoint)
}

/// What the first epoch leaves: its machine and its checkpoint.
#[derive(Drop)]
struct Sealed {
    machine: SettledMachine,
    checkpoint: Box<Checkpoint>,
}

/// The first runner's guest makes so many steps, and the epoch is sealed.
fn seal_first<P: Pair, R: Abort>(
    rt: &R,
    alloc: Global,
    clock: &Clock<P>,
    book: &mut Book<P>,
    runner: &mut RunnerSeat<P>,
    image: &[u8],
    steps: u64,
) -> Result<Sealed, Fail>
    requires start { (clients : ℕ) × (P.start ≡ start_state 2 1 image.now clients) }
    requires size { length image.now ≤ 8192 }
    requires seat { runner.old ≡ record { number = first_runner; steps = [] } }
    ensures runs { IfOk result (λ s. (held : List (ℕ × Frame)) × Runs P.start runner.new (settled_runner s.machine held)) }
    ensures like { IfOk result (λ s. IsLike P.start s.machine) }
    ensures read { IfOk result (λ s. WasRead s.checkpoint.value) }
    ensures shape { IfOk result (λ s. IsShape P.start s.checkpoint.value.shape) }
    ensures number { IfOk result (λ s. s.checkpoint.value.number ≡ 1) }
{
    kept_memory();
    let machine = ran(alloc, image, steps)?;
    let checkpoint = seal(rt, alloc, clock, book, runner, &*machine, steps)?;
    let checkpoint = Box::new(alloc, checkpoint)?;
    let machine = SettledMachine::of(machine);
    Ok(Sealed {
        machine,
        checkpoint,
    })
}

/// The backup commits what it read, which is the next one. Where memory is refused nothing has changed, and it is tried once more.
fn commit<P: Pair, R: Abort>(
    rt: &R,
    clock: &Clock<P>,
    book: &mut Book<P>,
    backup: &mut BackupSeat<P>,
    checkpoint: &Checkpoint,
) -> Result<Ack, Fail>
    ensures { IfOk result (λ ack. StandsAfterNext P.start checkpoint.now ack backup.old backup.new) }
{
    if book.is_earlier(checkpoint) {
        return Err("it is the next one".into());
    }
    let before = book.entries();
    match book.commit(clock, backup, Some(checkpoint)) {
        Ok(ack) => return Ok(ack),
        Err(Refusal::NoMemory(_)) => {}
        Err(_) => return Err("the checkpoint is committed".into()),
    }
    same(rt, "entries", book.entries(), before);
    match book.commit(clock, backup, Some(checkpoint)) {
        Ok(ack) => Ok(ack),
        Err(_) => Err("the checkpoint is committed at the second time".into()),
    }
}

/// The first backup commits its first checkpoint. It keeps the frames of that then.
fn commit_first<P: Pair, R: Abort>(
    rt: &R,
    clock: &Clock<P>,
    book: &mut Book<P>,
    backup: &mut BackupSeat<P>,
    checkpoint: &Checkpoint,
) -> Result<Ack, Fail>
    requires read { WasRead checkpoint.now }
    requires shape { IsShape P.start checkpoint.now.shape }
    requires number { checkpoint.now.number ≡ 1 }
    requires seat { backup.old ≡ record { number = first_backup; steps = [] } }
    ensures { OnOk result (KeepsFrames P.start backup.new (length checkpoint.now.frames) 1 (checkpoint.now.frames ∷ [])) }
{
    members_begin();
    let ack = commit(rt, clock, book, backup, checkpoint)?;
    Ok(ack)
}

/// The frames of this checkpoint, and no other part of it.
fn frames_alone(alloc: Global, checkpoint: Box<Checkpoint>) -> Result<Vec<FrameList>, Fail>
    ensures frames { IfOk result (λ kept. All (λ v. All IsFrame v.items) kept.items) }
    ensures value { IfOk result (λ kept. map (λ v. v.items) kept.items ≡ checkpoint.value.frames ∷ []) }
{
    let mut kept = Vec::with_capacity(alloc, 1)?;
    kept.push(Box::into_inner(checkpoint).into_frames())?;
    Ok(kept)
}

/// What the first epoch leaves once it is committed: its machine, and what the first backup keeps.
#[derive(Drop)]
struct Committed {
    machine: SettledMachine,
    kept: Vec<FrameList>,
}

/// The first runner's guest makes so many steps, and that epoch is sealed and committed.
fn commit_epoch<P: Pair, R: Abort>(
    rt: &R,
    alloc: Global,
    seated: &mut Seated<P>,
    image: &[u8],
    steps: u64,
) -> Result<Committed, Fail>
    requires start { (clients : ℕ) × (P.start ≡ start_state 2 1 image.now clients) }
    requires size { length image.now ≤ 8192 }
    requires runner { seated.old.runner ≡ record { number = first_runner; steps = [] } }
    requires backup { seated.old.backup ≡ record { number = first_backup; steps = [] } }
    ensures runs { IfOk result (λ x. (held : List (ℕ × Frame)) × Runs P.start seated.new.runner (settled_runner x.machine held)) }
    ensures like { IfOk result (λ x. IsLike P.start x.machine) }
    ensures frames { IfOk result (λ x. All (λ v. All IsFrame v.items) x.kept.items) }
    ensures keeps { IfOk result (λ x. (sent : ℕ) × KeepsFrames P.start seated.new.backup sent 1 (map (λ v. v.items) x.kept.items)) }
{
    let sealed = seal_first(
        rt,
        alloc,
        &seated.clock,
        &mut seated.book,
        &mut seated.runner,
        image,
        steps,
    )?;
    let ack = commit_first(
        rt,
        &seated.clock,
        &mut seated.book,
        &mut seated.backup,
        &*sealed.checkpoint,
    )?;
    same(rt, "the generation", ack.generation, 1);
    same(rt, "the number", ack.number, 1);
    let kept = frames_alone(alloc, sealed.checkpoint)?;
    Ok(Committed {
        machine: sealed.machine,
        kept,
    })
}

/// The pair is named, its guest makes so many steps, and that epoch is sealed and committed.
fn opened<P: Pair, R: Abort>(
    rt: &R,
    alloc: Global,
    book: UnnamedBook,
    image: &[u8],
    steps: u64,
) -> Result<Box<Host<P>>, Fail>
    requires start { (book.word ≡ P.word) × (P.start ≡ start_state 2 1 image.now book.clients) }
    requires size { length image.now ≤ 8192 }
{
    let mut seated = seat_all(alloc, book)?;
    let committed = commit_epoch(rt, alloc, &mut *seated, image, steps)?;
    let host = host_of(alloc, seated, committed.machine, committed.kept)?;
    Ok(host)
}

fn play_beacon<P: Pair, R: Abort>(
    rt: &R,
    alloc: Global,
    book: UnnamedBook,
    image: &[u8],
    steps: u64,
    rows: &[Row],
) -> Result<(), Fail>
    requires start { (book.word ≡ P.word) × (P.start ≡ start_state 2 1 image.now book.clients) }
    requires size { length image.now ≤ 8192 }
{
    let mut host = opened::<P, R>(rt, alloc, book, image, steps)?;
    play(rt, &mut *host, rows);
    Ok(())
}

/// Once the epoch of so many steps is committed these calls are made one after another, and are answered so.
fn answers<R: Abort>(rt: &R, alloc: Global, steps: u64, rows: &[Row]) -> Result<(), Fail> {
    let image = beacon_image(alloc)?;
    play_beacon::<Brand, R>(rt, alloc, unnamed(alloc)?, image.as_slice(), steps, rows)
}
