//! `remus check-stream FILE --pages P --sectors S`: which checkpoints a file of them holds.

ghost use Rattle.std.specs.Prelude.{◌≡◌, ◌<◌, ◌≤◌, ◌==◌, false, if◌then◌else◌, codes, IfOk, IfSome, length, ℕ, List};
ghost use Rattle.checkpoint_stream.specs.Readings.{begun, is_closed};
ghost use Rattle.script_player.specs.Listing.{IsSpelled, IsPrinted, IsListedTo, listed_status};
ghost use Rattle.script_player.specs.StreamLines.{checkpoint_line, malformed_line, short_line};
ghost use Rattle.script_player.specs.StreamMeaning.{IsListed};

use crate::streams::{Failed, Sink};
use crate::text::Field::{Number, Word};
use crate::text::{Text, write_line};
use checkpoint_stream::{Reader, StreamError};
use epoch_snapshot::Checkpoint;
use memory_wanted::MemoryWanted;
use pair_core::Shape;
use std::alloc::Global;

/// Prints on `out` a line for each whole checkpoint of `bytes`, and last where they end inside one or are malformed, or where there is no
/// memory to read on. Answers the exit status: 0, or 1 after such a last line or a write that failed. Memory is taken for one checkpoint
/// at a time.
pub fn check_stream<O: Sink>(alloc: Global, bytes: &[u8], shape: Shape, out: &mut O) -> u8
    ensures { IsListed O.no_memory (begun shape 0) bytes.now (O.written out.old) (O.written out.new) result }
{
    let listed = list(alloc, bytes, shape, out);
    match out.show() {
        Ok(()) => status_of(listed),
        Err(Failed) => 1,
    }
}

/// The exit status of a file that was listed.
fn status_of(listed: Result<bool, Failed>) -> u8
    ensures { result ≡ listed_status listed }
{
    match listed {
        Ok(true) => 0,
        _ => 1,
    }
}

/// Prints the lines. Answers whether the bytes are checkpoints one after another, and nothing else.
///
/// # Errors
///
/// Where a write fails.
fn list<O: Sink>(alloc: Global, bytes: &[u8], shape: Shape, out: &mut O) -> Result<bool, Failed>
    ensures { IsListedTo O.no_memory (begun shape 0) bytes.now result (O.written out.old) (O.written out.new) }
{
    let mut reader = Reader::new(alloc, shape);
    let mut rest = bytes;
    while !rest.is_empty() {
        let Some(left) = print_next(&mut reader, rest, bytes.len(), out)? else {
            return Ok(false);
        };
        rest = left;
    }
    Ok(true)
}

/// Reads one checkpoint and prints its line, or the last line of a file of so many bytes. Answers the bytes that are left; `None` after
/// the last line.
///
/// # Errors
///
/// Where a write fails.
fn print_next<'a, O: Sink>(
    reader: &mut Reader,
    rest: &'a [u8],
    file_bytes: usize,
    out: &mut O,
) -> Result<Option<&'a [u8]>, Failed>
    requires open { is_closed reader.old.place ≡ false }
    requires some { 0 < length rest.now }
    ensures printed { IsPrinted O.no_memory file_bytes reader.old rest.now result reader.new (O.written out.old) (O.written out.new) }
    ensures shorter { IfOk result (λ found. IfSome found (λ left. length left.now < length rest.now)) }
{
    let mut text = Text::new();
    match spell_next(reader, rest, file_bytes, &mut text) {
        Ok(found) => {
            out.put(text.as_slice())?;
            Ok(found)
        }
        Err(wanted) => {
            out.refuse(wanted)?;
            Ok(None)
        }
    }
}

/// Reads one checkpoint and writes its line into a text, or the last line.
///
/// # Errors
///
/// [`MemoryWanted`] where there is no memory to read on.
fn spell_next<'a>(
    reader: &mut Reader,
    rest: &'a [u8],
    file_bytes: usize,
    text: &mut Text,
) -> Result<Option<&'a [u8]>, MemoryWanted>
    requires open { is_closed reader.old.place ≡ false }
    requires some { 0 < length rest.now }
    ensures spelled { (no_memory : List ℕ) → IsSpelled no_memory file_bytes reader.old rest.now result reader.new text.new.items }
    ensures shorter { IfOk result (λ found. IfSome found (λ left. length left.now < length rest.now)) }
{
    let count = match reader.feed(rest) {
        Ok(count) => count,
        Err(StreamError::Malformed(offset)) => {
            write_malformed(text, offset);
            return Ok(None);
        }
        Err(StreamError::NoMemory(wanted)) => return Err(wanted),
    };
    let Some(checkpoint) = reader.next() else {
        write_short(text, file_bytes as u64);
        return Ok(None);
    };
    write_checkpoint(text, &checkpoint);
    Ok(Some(&rest[count..]))
}

/// Prints which checkpoint it is, how many records it has, and how many frames where it is of version 2.
fn write_checkpoint(text: &mut Text, checkpoint: &Checkpoint)
    ensures { text.new.items ≡ checkpoint_line checkpoint.now }
{
    let kind = kind_word(checkpoint.number());
    let fields = [
        Number(checkpoint.generation()),
        Number(checkpoint.number()),
        Word("pages"),
        Number(checkpoint.pages().len() as u64),
        Word("sectors"),
        Number(checkpoint.sectors().len() as u64),
        Word("frames"),
        Number(checkpoint.frames().len() as u64),
    ];
    if checkpoint.version() == 1 {
        write_line(text, kind, &fields[..6]);
    } else {
        write_line(text, kind, &fields);
    }
}

/// Whether the checkpoint of this number is full, in a word.
fn kind_word(number: u64) -> &'static str
    ensures word { result.now ≡ (if number == 0 then codes "full" else codes "delta") }
    ensures short { length result.now ≤ 5 }
{
    if number == 0 { "full" } else { "delta" }
}

/// Prints that the bytes, so many, end inside a checkpoint.
fn write_short(text: &mut Text, file_bytes: u64)
    ensures { text.new.items ≡ short_line file_bytes }
{
    write_line(text, "short", &[Word("at"), Number(file_bytes)]);
}

/// Prints that the bytes are malformed, and from which on.
fn write_malformed(text: &mut Text, offset: u64)
    ensures { text.new.items ≡ malformed_line offset }
{
    write_line(
        text,
        "refused",
        &[Number(11), Word("Malformed"), Number(offset)],
    );
}
