//! A test that is a table: calls of a pair's book, each with its answer.
ghost use Rattle.std.specs.Prelude.{◌≡◌, []};
ghost use Rattle.pair_history.specs.HistoryState.{start_state};

use crate::asserts::{holds, holds_at};
use crate::hosts::{Host, opened};
use growing_history::Pair;
use pair_book::{Kind, Lost, Refusal, UnnamedBook, Want};
use std::alloc::Global;
use std::marker::Brand;
use std::process::Abort;
use std::test::*;

/// Which backup commits.
#[derive(Clone, Copy)]
pub(crate) enum By {
    First,
    /// The one that came last.
    New,
}

/// What a backup has read.
#[derive(Clone, Copy)]
pub(crate) enum Read {
    Nothing,
    /// The checkpoint of this generation and number.
    Checkpoint(u64, u64),
    /// The first delta of generation 1, in version 1 of the format.
    OldDelta,
}

/// What happens next.
#[derive(Clone, Copy)]
pub(crate) enum Call {
    /// The first client delivers a frame, cut to so many bytes.
    Deliver(usize),
    /// This client takes: the first one, or else the second.
    Take(u64),
    /// The line is to lose the frame at this place of this client's inbox.
    LoseIn(u64, u64),
    /// And of its box.
    LoseOut(u64, u64),
    /// The first runner asks.
    Ask,
    /// The runner of the backup that went live asks.
    AskNew,
    /// The first runner submits an epoch in which nothing happened, with the checkpoint of this generation and number.
    Submit(u64, u64),
    /// With no checkpoint.
    SubmitNone,
    /// What is to be sent next.
    Next,
    Commit(By, Read),
    /// This generation and number are acknowledged.
    Acked(u64, u64),
    FailPrimary,
    FailBackup,
    /// The first backup is to go live.
    GoLive,
    /// A new backup comes.
    Protect,
    /// Why the first backup could commit nothing, where it has read nothing.
    Foresee,
    /// Whether the checkpoint of this generation and number is of an earlier number than the next that is to be committed.
    IsEarlier(u64, u64),
    /// The length of the history.
    Entries,
    /// The numbers of the seats: the first runner's, the first backup's, the line's, and the two clients'.
    Seats,
}

/// What is answered.
#[derive(Clone, Copy, PartialEq, Eq)]
pub(crate) enum Answer {
    /// Nothing is said, or there is none.
    None,
    /// A count, or the number of a frame, a checkpoint or a seat.
    Number(u64),
    /// The frame that the beacon sends.
    Beacon,
    /// Another frame. No row wants it.
    Frame,
    Loss(Lost),
    /// The kind that is wanted, with its generation and number.
    Want(Kind, u64, u64),
    /// The generation and the number that are acknowledged.
    Ack(u64, u64),
    Truth(bool),
    Seats([u64; 5]),
    /// The call wasn't made: memory for its checkpoint was refused, or nobody has the seat. No row wants it.
    NotMade,
}

/// What the beacon sends: from the guest to client 1.
pub(crate) const BEACON: [u8; 14] = [2, 0, 0, 0, 1, 1, 2, 0, 0, 0, 0, 1, 0x88, 0xb5];

/// A call with its answer.
pub(crate) type Row = (Call, Result<Answer, Refusal>);

/// Whether memory was refused.
fn is_refused(answer: &Result<Answer, Refusal>) -> bool {
    matches!(answer, Err(Refusal::NoMemory(_)) | Ok(Answer::NotMade))
}

/// What can be seen of a book by calls that change nothing.
#[derive(Clone, Copy, PartialEq, Eq)]
pub(crate) struct Shown {
    /// The length of the history.
    pub(crate) entries: u64,
    /// How many steps the keeper has made.
    pub(crate) steps: u64,
    /// What the first runner is asked for; none where it is refused.
    pub(crate) want: Option<Want>,
    /// Whether the first backup is the live one, and no node is alone.
    pub(crate) may_commit: bool,
}

/// The book shows what it showed before.
fn assert_unchanged<R: Abort>(rt: &R, found: Shown, before: Shown) {
    holds(
        rt,
        "what was refused memory changes nothing",
        found == before,
    );
}

/// A call was answered as the row at this place says.
fn assert_answer<R: Abort>(
    rt: &R,
    found: &Result<Answer, Refusal>,
    wanted: &Result<Answer, Refusal>,
    place: usize,
) {
    holds_at(rt, "row", place, found == wanted);
}

/// What is answered to this call. One that is refused memory has changed nothing, and is made once more.
fn answered<P: Pair, R: Abort>(rt: &R, host: &mut Host<P>, call: Call) -> Result<Answer, Refusal> {
    let before = host.shown();
    let first = host.answer(call);
    if !is_refused(&first) {
        return first;
    }
    assert_unchanged(rt, host.shown(), before);
    host.answer(call)
}

/// One row is played.
fn play_row<P: Pair, R: Abort>(rt: &R, host: &mut Host<P>, row: &Row, place: usize) {
    let found = answered(rt, host, row.0);
    assert_answer(rt, &found, &row.1, place);
}

/// The calls are made one after another.
pub(crate) fn play<P: Pair, R: Abort>(rt: &R, host: &mut Host<P>, rows: &[Row]) {
    for (place, row) in rows.iter().enumerate() {
        play_row(rt, host, row, place);
    }
}

/// The same, of a pair whose guest makes no step.
fn play_still<P: Pair, R: Abort>(
    rt: &R,
    alloc: Global,
    book: UnnamedBook,
    rows: &[Row],
) -> Result<(), Fail>
    requires { (book.word ≡ P.word) × (P.start ≡ start_state 1 1 [] book.clients) }
{
    let mut host = opened::<P>(alloc, book)?;
    play(rt, &mut *host, rows);
    Ok(())
}

/// A book of two clients, without a name.
pub(crate) fn unnamed(alloc: Global) -> Result<UnnamedBook, Fail> {
    if let Ok(book) = UnnamedBook::new(alloc, 2) {
        return Ok(book);
    }
    Ok(UnnamedBook::new(alloc, 2)?)
}

/// These calls are made one after another, and are answered so.
pub(crate) fn answers<R: Abort>(rt: &R, alloc: Global, rows: &[Row]) -> Result<(), Fail> {
    play_still::<Brand, R>(rt, alloc, unnamed(alloc)?, rows)
}
