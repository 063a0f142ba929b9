//! What a node prints that a script doesn't: answers with frames or with a part of a checkpoint's text, and lines of its own.

ghost use Rattle.std.specs.Prelude.{◌≡◌, ◌≤◌, ◌+◌, ◌∷◌, ◌++◌, [], length, codes, decimal};
ghost use Rattle.node_player.specs.Printed.{cut_line, frame_line, frame_lines, malformed_line, raw_text, show_line, spelled, steps_line, text_line};
ghost use Rattle.script_player.specs.Printed.{line, refusal_line, told_refusal};
ghost use Rattle.script_player.specs.Streams.{IsPut};

use crate::orders::Form;
use arrayvec::ArrayVec;
use pair_core::{Frame, Refusal};
use script_player::digits::add_digits;
use script_player::replies::{write_frame, write_number, write_refusal, write_words};
use script_player::streams::{Failed, Sink};
use script_player::text::Field::{Number, Word};
use script_player::text::{Text, add, write_line};

/// Bytes of a checkpoint's text whose digits are written out at once, and bytes of it that are written together with a line, at most.
const CHUNK_BYTES: usize = 16384;

/// What is written out at once, at most: the digits of so many bytes, after the line's word or before its end.
const PIECE_BYTES: usize = 32784;

/// Prints why a line is refused. Want of memory is the writer's to print.
///
/// # Errors
///
/// Where a write fails.
pub fn refuse<O: Sink>(why: Refusal, out: &mut O) -> Result<(), Failed>
    ensures { IsPut (O.written out.old) (O.written out.new) result (told_refusal O.no_memory why) }
{
    match why {
        Refusal::NoMemory(wanted) => out.refuse(wanted),
        other => put_refusal(&other, out),
    }
}

/// Prints a refusal that is no want of memory.
fn put_refusal<O: Sink>(why: &Refusal, out: &mut O) -> Result<(), Failed>
    ensures { IsPut (O.written out.old) (O.written out.new) result (refusal_line why.now) }
{
    let mut text = Text::new();
    write_refusal(&mut text, why);
    out.put(text.as_slice())
}

/// Prints a line of words alone.
///
/// # Errors
///
/// Where a write fails.
pub fn tell<O: Sink>(out: &mut O, words: &str) -> Result<(), Failed>
    requires { length words.now ≤ 20 }
    ensures { IsPut (O.written out.old) (O.written out.new) result (line (words.now ∷ [])) }
{
    let mut text = Text::new();
    write_words(&mut text, words);
    out.put(text.as_slice())
}

/// Prints a word and a number.
///
/// # Errors
///
/// Where a write fails.
pub fn tell_number<O: Sink>(out: &mut O, word: &str, number: u64) -> Result<(), Failed>
    requires { length word.now ≤ 20 }
    ensures { IsPut (O.written out.old) (O.written out.new) result (line (word.now ∷ decimal number ∷ [])) }
{
    let mut text = Text::new();
    write_number(&mut text, word, number);
    out.put(text.as_slice())
}

/// Prints a line for each frame.
///
/// # Errors
///
/// Where a write fails.
pub fn put_frames<O: Sink>(out: &mut O, frames: &[Frame]) -> Result<(), Failed>
    ensures { IsPut (O.written out.old) (O.written out.new) result (frame_lines frames.now) }
{
    for frame in frames {
        put_frame(out, frame)?;
    }
    out.put(b"")
}

/// Prints a frame's line.
///
/// # Errors
///
/// Where a write fails.
fn put_frame<O: Sink>(out: &mut O, frame: &Frame) -> Result<(), Failed>
    ensures { IsPut (O.written out.old) (O.written out.new) result (frame_line frame.now) }
{
    let mut text = Text::new();
    write_frame(&mut text, frame);
    out.put(text.as_slice())
}

/// Prints a part of a checkpoint's text.
///
/// # Errors
///
/// Where a write fails.
pub fn put_text<O: Sink>(out: &mut O, form: Form, bytes: &[u8]) -> Result<(), Failed>
    ensures { IsPut (O.written out.old) (O.written out.new) result (spelled form bytes.now) }
{
    match form {
        Form::Hex => put_digits(out, bytes),
        Form::Raw => put_bytes(out, bytes),
    }
}

/// Prints a part of a text as digits.
fn put_digits<O: Sink>(out: &mut O, bytes: &[u8]) -> Result<(), Failed>
    ensures { IsPut (O.written out.old) (O.written out.new) result (text_line bytes.now) }
{
    let mut piece: ArrayVec<u8, PIECE_BYTES> = ArrayVec::new();
    add(&mut piece, b"text ");
    let mut rest = bytes;
    while rest.len() > CHUNK_BYTES {
        let (chunk, others) = rest.split_at(CHUNK_BYTES);
        add_digits(&mut piece, chunk);
        out.put(piece.as_slice())?;
        piece.clear();
        rest = others;
    }
    add_digits(&mut piece, rest);
    add(&mut piece, b"\n");
    out.put(piece.as_slice())
}

/// Prints how many bytes a part of a text has, and the bytes. The first of them are written together with the line in front of them, so that
/// whoever waits isn't woken for that alone, and the last ones with the newline behind them; those between are written from where they stand.
fn put_bytes<O: Sink>(out: &mut O, bytes: &[u8]) -> Result<(), Failed>
    ensures { IsPut (O.written out.old) (O.written out.new) result (raw_text bytes.now) }
{
    let mut head = Text::new();
    write_number(&mut head, "rawtext", bytes.len() as u64);
    if bytes.len() <= CHUNK_BYTES {
        return put_joined(out, head.as_slice(), bytes, b"\n");
    }
    let (first, others) = bytes.split_at(CHUNK_BYTES);
    let (between, last) = others.split_at(others.len().saturating_sub(CHUNK_BYTES));
    put_joined(out, head.as_slice(), first, b"")?;
    out.put(between)?;
    put_joined(out, last, b"\n", b"")
}

/// Prints three texts at once.
fn put_joined<O: Sink>(out: &mut O, first: &[u8], second: &[u8], third: &[u8]) -> Result<(), Failed>
    requires { length first.now + length second.now + length third.now ≤ 32784 }
    ensures { IsPut (O.written out.old) (O.written out.new) result (first.now ++ (second.now ++ third.now)) }
{
    let mut piece: ArrayVec<u8, PIECE_BYTES> = ArrayVec::new();
    add(&mut piece, first);
    add(&mut piece, second);
    add(&mut piece, third);
    out.put(piece.as_slice())
}

/// Prints the guest's step count, how many frames wait in its outbox, and how many are let out.
pub fn write_steps(text: &mut Text, steps: u64, waiting: u64, frames: u64)
    ensures { text.new.items ≡ steps_line steps waiting frames }
{
    write_line(
        text,
        "steps",
        &[
            Number(steps),
            Word("outbox"),
            Number(waiting),
            Word("frames"),
            Number(frames),
        ],
    );
}

/// Prints up to which checkpoint all are acknowledged, and how many frames are let out.
pub fn write_acked(text: &mut Text, generation: u64, number: u64, frames: u64)
    ensures { text.new.items ≡ line (codes "acked" ∷ decimal generation ∷ decimal number ∷ codes "frames" ∷ decimal frames ∷ []) }
{
    write_line(
        text,
        "acked",
        &[
            Number(generation),
            Number(number),
            Word("frames"),
            Number(frames),
        ],
    );
}

/// Prints which checkpoint was cut, and how many bytes its text has.
pub fn write_cut(text: &mut Text, generation: u64, number: u64, bytes: u64)
    ensures { text.new.items ≡ cut_line generation number bytes }
{
    write_line(
        text,
        "cut",
        &[Number(generation), Number(number), Number(bytes)],
    );
}

/// Prints where a checkpoint's text is malformed.
pub fn write_malformed(text: &mut Text, offset: u64)
    ensures { text.new.items ≡ malformed_line offset }
{
    write_line(
        text,
        "refused",
        &[Number(11), Word("Malformed"), Number(offset)],
    );
}

/// Prints the state in one line.
pub fn write_state(
    text: &mut Text,
    word: &str,
    generation: u64,
    pending: u64,
    steps: u64,
    written: u64,
)
    requires { length word.now ≤ 20 }
    ensures { text.new.items ≡ show_line word.now generation pending steps written }
{
    write_line(
        text,
        "mode",
        &[
            Word(word),
            Word("generation"),
            Number(generation),
            Word("pending"),
            Number(pending),
            Word("steps"),
            Number(steps),
            Word("written"),
            Number(written),
        ],
    );
}
