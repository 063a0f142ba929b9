//! A session: lines are played as they come, and each is answered before more is read.

ghost use Rattle.std.specs.Prelude.{◌≡◌, ◌++◌, ◌<◌, ◌≤◌, ℕ, true, List, [], length, drop, take};
ghost use Rattle.script_player.specs.Session.{IsAnswered, IsReply, IsServed};
ghost use Rattle.script_player.specs.SessionLines.{due_behind, lines_with};
ghost use Rattle.script_player.specs.internal.Serving.{IsAnswerTo, IsFed, IsKept, IsReplyTo, IsTaken, Holds, status_of};

use crate::limits::{MOST_HEAD_BYTES, MOST_LINE_BYTES};
use crate::sim::first_newline;
use crate::streams::{Failed, Sink, Source};
use crate::text::add;
use arrayvec::ArrayVec;
use memory_wanted::{MemoryWanted, extend_from_slice};
use std::alloc::Global;
use std::mem;

/// Bytes that are read at once, at most.
const PIECE_BYTES: usize = 65_536;

/// Bytes that a line's memory may have to be kept for the next line.
const MOST_ROOM_KEPT: usize = 4_194_304;

/// The first bytes of a line, which are always kept: one more than a line has that bytes follow.
const FIRST_BYTES: usize = MOST_HEAD_BYTES + 1;

/// What a bad line prints.
pub const BAD: &[u8] = b"bad\n";

/// What plays lines.
pub trait LinePlayer {
    ghost use Rattle.std.specs.Prelude.{ℕ, List};

    /// How a line is answered that is kept: what is printed where memory was wanted, the player, the line, what is printed, and the player
    /// after it.
    ghost plays: { List ℕ → Self → List ℕ → List ℕ → Self → Type 0 };

    /// How many bytes follow a line behind its newline, where it has at most [`MOST_HEAD_BYTES`]; none follow a longer one. They are a part
    /// of the line that is played.
    ghost follow: { List ℕ → ℕ };

    /// How many bytes follow a line.
    fn following(line: &[u8]) -> u64
        ensures { result ≡ follow line.now };

    /// Plays a line, and prints the answer on `out`.
    ///
    /// # Errors
    ///
    /// Where a write fails.
    fn play<O: Sink>(&mut self, line: &[u8], out: &mut O) -> Result<(), Failed>
        ensures { IsAnswered (plays O.no_memory self.old line.now) (O.written out.old) (O.written out.new) result self.new };
}

/// Plays the lines of `input` as they come, and prints the answers on `out`: each is written out before more is read. Answers the exit
/// status: 0 at the end of the input, or 1 where a read or a write failed.
pub fn serve<S: Source, P: LinePlayer, O: Sink>(
    alloc: Global,
    input: &mut S,
    player: &mut P,
    out: &mut O,
) -> u8
    ensures { IsServed (lines_with P.follow) (IsReply O.no_memory (P.plays O.no_memory)) player.old (S.reading input.old) (S.reading input.new) (O.written out.old) (O.written out.new) result }
{
    match serve_all(alloc, input, player, out) {
        Ok(()) => 0,
        Err(Failed) => 1,
    }
}

/// Plays the lines up to the end of the input.
///
/// # Errors
///
/// Where a read or a write fails.
fn serve_all<S: Source, P: LinePlayer, O: Sink>(
    alloc: Global,
    input: &mut S,
    player: &mut P,
    out: &mut O,
) -> Result<(), Failed>
    ensures { IsServed (lines_with P.follow) (IsReply O.no_memory (P.plays O.no_memory)) player.old (S.reading input.old) (S.reading input.new) (O.written out.old) (O.written out.new)
        (status_of result) }
{
    let mut line = OpenLine::new(alloc);
    let mut piece = [0; PIECE_BYTES];
    loop {
        let count = input.read(&mut piece)?;
        if count == 0 {
            return answer(alloc, player, &mut line, out);
        }
        feed(alloc, player, &mut line, &piece[..count], out)?;
    }
}

/// Goes on with these bytes: answers each line that ends in them.
///
/// # Errors
///
/// Where a write fails.
fn feed<P: LinePlayer, O: Sink>(
    alloc: Global,
    player: &mut P,
    line: &mut OpenLine,
    bytes: &[u8],
    out: &mut O,
) -> Result<(), Failed>
    ensures { IsFed P.follow (IsReply O.no_memory (P.plays O.no_memory)) player.old line.old bytes.now player.new line.new (O.written out.old) (O.written out.new) result }
{
    let mut left = bytes;
    while !left.is_empty() {
        let (count, has_ended) = line.take::<P>(left);
        if has_ended {
            answer(alloc, player, line, out)?;
        }
        left = &left[count..];
    }
    Ok(())
}

/// Answers the line, and begins another.
///
/// # Errors
///
/// Where a write fails.
fn answer<P: LinePlayer, O: Sink>(
    alloc: Global,
    player: &mut P,
    line: &mut OpenLine,
    out: &mut O,
) -> Result<(), Failed>
    ensures begins { Holds line.new [] }
    ensures none_due { line.new.due ≡ line.old.due }
    ensures answers { IsAnswerTo (IsReply O.no_memory (P.plays O.no_memory)) line.old player.old player.new (O.written out.old) (O.written out.new) result }
{
    let fate = mem::replace(&mut line.fate, Fate::Kept);
    let replied = reply(player, line.bytes.as_slice(), fate, out);
    empty(alloc, &mut line.bytes);
    line.first.clear();
    replied?;
    out.show()
}

/// Plays a line, of which these bytes are kept.
///
/// # Errors
///
/// Where a write fails.
fn reply<P: LinePlayer, O: Sink>(
    player: &mut P,
    bytes: &[u8],
    fate: Fate,
    out: &mut O,
) -> Result<(), Failed>
    ensures { IsReplyTo (IsReply O.no_memory (P.plays O.no_memory)) bytes.now fate player.old player.new (O.written out.old) (O.written out.new) result }
{
    match fate {
        Fate::Kept => player.play(bytes, out),
        Fate::TooLong => out.put(BAD),
        Fate::NoMemory(wanted) => out.refuse(wanted),
    }
}

/// Empties a line. Its room stays, unless that is much.
fn empty(alloc: Global, line: &mut Vec<u8>)
    ensures { line.new.items ≡ [] }
{
    if line.capacity() > MOST_ROOM_KEPT {
        *line = Vec::new(alloc);
    } else {
        line.clear();
    }
}

/// What became of the bytes of a line.
#[derive(Drop)]
enum Fate {
    /// They are kept.
    Kept,
    /// They are more than a line may have, and are read past.
    TooLong,
    /// There is no memory to keep them in, and they are read past.
    NoMemory(MemoryWanted),
}

/// A line that hasn't come whole.
#[derive(Drop)]
struct OpenLine {
    /// Its bytes so far, where they are kept.
    bytes: Vec<u8>,
    fate: Fate,
    /// The first of them.
    first: ArrayVec<u8, FIRST_BYTES>,
    /// How many bytes are to come behind its newline: none before that.
    due: u64,
}

impl OpenLine {
    /// One without bytes.
    fn new(alloc: Global) -> OpenLine
        ensures held { Holds result [] }
        ensures none_due { result.due ≡ 0 }
    {
        OpenLine {
            bytes: Vec::new(alloc),
            fate: Fate::Kept,
            first: ArrayVec::new(),
            due: 0,
        }
    }

    /// Goes on with the first of these bytes, up to the line's end where that is among them. Answers how many these are, and whether the
    /// line ends with them.
    fn take<P: LinePlayer>(&mut self, bytes: &[u8]) -> (usize, bool)
        requires some { 0 < length bytes.now }
        ensures count { (0 < result.0) × (result.0 ≤ length bytes.now) }
        ensures taken { (text : List ℕ) → Holds self.old text
            → IsTaken P.follow self.old text bytes.now (drop result.0 bytes.now) result.1 self.new }
        ensures none_due { result.1 ≡ true → self.new.due ≡ 0 }
    {
        if self.due > 0 {
            self.take_following(bytes)
        } else {
            self.take_line::<P>(bytes)
        }
    }

    /// The same of a line whose newline hasn't come.
    fn take_line<P: LinePlayer>(&mut self, bytes: &[u8]) -> (usize, bool)
        requires some { 0 < length bytes.now }
        requires open { self.old.due ≡ 0 }
        ensures count { (0 < result.0) × (result.0 ≤ length bytes.now) }
        ensures taken { (text : List ℕ) → Holds self.old text
            → IsTaken P.follow self.old text bytes.now (drop result.0 bytes.now) result.1 self.new }
        ensures none_due { result.1 ≡ true → self.new.due ≡ 0 }
    {
        let Some(end) = first_newline(bytes) else {
            self.add(bytes);
            return (bytes.len(), false);
        };
        self.add(&bytes[..end]);
        self.due = self.following::<P>();
        if self.due == 0 {
            return (end + 1, true);
        }
        self.add(b"\n");
        (end + 1, false)
    }

    /// The same of a line that bytes follow, whose newline has come.
    fn take_following(&mut self, bytes: &[u8]) -> (usize, bool)
        requires some { 0 < length bytes.now }
        requires due { 0 < self.old.due }
        ensures count { (0 < result.0) × (result.0 ≤ length bytes.now) }
        ensures taken { (follow : List ℕ → ℕ) (text : List ℕ) → Holds self.old text
            → IsTaken follow self.old text bytes.now (drop result.0 bytes.now) result.1 self.new }
        ensures none_due { result.1 ≡ true → self.new.due ≡ 0 }
    {
        let Ok(due) = usize::try_from(self.due) else {
            unreachable!()
        };
        let count = due.min(bytes.len());
        self.add(&bytes[..count]);
        self.due = (due - count) as u64;
        (count, count == due)
    }

    /// How many bytes follow the line.
    fn following<P: LinePlayer>(&self) -> u64
        ensures { (text : List ℕ) → Holds self.now text → result ≡ due_behind P.follow text }
    {
        if self.first.len() > MOST_HEAD_BYTES {
            0
        } else {
            P::following(self.first.as_slice())
        }
    }

    /// Adds bytes to the line.
    fn add(&mut self, bytes: &[u8])
        ensures held { (text : List ℕ) → Holds self.old text → Holds self.new (text ++ bytes.now) }
        ensures due { self.new.due ≡ self.old.due }
    {
        keep_first(&mut self.first, bytes);
        if bytes.is_empty() {
            return;
        }
        if let Fate::Kept = self.fate {
            self.fate = keep(&mut self.bytes, bytes);
        }
    }
}

/// Adds bytes to the first ones of a line, as many as these may be.
fn keep_first(first: &mut ArrayVec<u8, FIRST_BYTES>, bytes: &[u8])
    ensures { (text : List ℕ) → first.old.items ≡ take 33 text → first.new.items ≡ take 33 (text ++ bytes.now) }
{
    let count = bytes.len().min(FIRST_BYTES - first.len());
    add(first, &bytes[..count]);
}

/// Adds bytes to those of a line. Says whether they are all kept.
fn keep(line: &mut Vec<u8>, bytes: &[u8]) -> Fate
    requires some { 0 < length bytes.now }
    ensures { IsKept (line.old.items ++ bytes.now) line.new.items result }
{
    if bytes.len() > MOST_LINE_BYTES.saturating_sub(line.len()) {
        return Fate::TooLong;
    }
    match extend_from_slice(line, bytes) {
        Ok(()) => Fate::Kept,
        Err(wanted) => Fate::NoMemory(wanted),
    }
}
