//! What is printed: one line for each reply.

ghost use Rattle.std.specs.Prelude.{◌≡◌, ◌≤◌, ◌∷◌, [], length, codes, decimal};
ghost use Rattle.hex.specs.Hex.{encode_lower, IsBytes};
ghost use Rattle.pair_record.specs.declared.event.Reply.{Reply};
ghost use Rattle.pair_core.specs.Words.{word_of};
ghost use Rattle.script_player.specs.Printed.{IsPlain, line, refusal_line, reply_line, sector_line, show_line};

use crate::digits::add_digits;
use crate::text::Field::{Number, Word};
use crate::text::{Text, add, add_number, write_line};
use pair_core::{Frame, Mode, Refusal, Reply, SECTOR_BYTES, Show};

/// Prints a reply as its line.
pub fn write_reply(text: &mut Text, reply: &Reply)
    ensures printed { text.new.items ≡ reply_line reply.now }
    // Whoever reads the line knows which reply it was.
    ensures readable { (other : Reply) → IsPlain other → reply_line other ≡ reply_line reply.now → other ≡ reply.now }
{
    spell(text, reply)
}

/// The same, of whose fields it is known that they can be read back.
fn spell(text: &mut Text, reply: &Reply)
    ensures printed { text.new.items ≡ reply_line reply.now }
    ensures plain { IsPlain reply.now }
{
    match reply {
        Reply::Steps(steps) => write_number(text, "steps", *steps),
        Reply::Cut { generation, number } => write_checkpoint(text, "cut", *generation, *number),
        Reply::Sent(packets) => write_number(text, "sent", *packets),
        Reply::Committed { generation, number } => {
            write_checkpoint(text, "committed", *generation, *number)
        }
        Reply::Again { generation, number } => write_checkpoint(
            text,
            "again",
            *generation,
            *number,
        ),
        Reply::Lost => write_words(text, "lost"),
        Reply::Acked {
            generation,
            number,
            landed,
        } => write_acked(text, *generation, *number, *landed),
        Reply::Admitted(number) => write_number(text, "admitted", *number),
        Reply::Empty => write_words(text, "empty"),
        Reply::Delivered(number) => write_number(text, "delivered", *number),
        Reply::Took(Some(taken)) => write_frame(text, taken.frame()),
        Reply::Took(None) => write_words(text, "none"),
        Reply::Dropped => write_words(text, "dropped"),
        Reply::Stopped => write_words(text, "stopped primary"),
        Reply::Alone { generation, landed } => {
            write_generation(text, "alone", *generation, "landed", *landed)
        }
        Reply::Live { generation, steps } => {
            write_generation(text, "live", *generation, "steps", *steps)
        }
        Reply::Protecting(generation) => write_number(text, "protecting", *generation),
        Reply::Refused(refusal) => write_refusal(text, refusal),
    }
}

/// Prints `refused NO NAME`.
pub fn write_refusal(text: &mut Text, refusal: &Refusal)
    ensures { text.new.items ≡ refusal_line refusal.now }
{
    let number = u64::from(refusal.number());
    write_line(text, "refused", &[Number(number), Word(refusal.name())]);
}

/// Prints the state in one line.
pub fn write_show(text: &mut Text, show: &Show)
    ensures { text.new.items ≡ show_line show.now }
{
    let Show {
        mode,
        generation,
        pending,
        steps,
        entries,
    } = *show;
    write_line(
        text,
        "mode",
        &[
            Word(mode_word(mode)),
            Word("generation"),
            Number(generation),
            Word("pending"),
            Number(pending),
            Word("steps"),
            Number(steps),
            Word("entries"),
            Number(entries),
        ],
    );
}

/// The word that is printed of a mode.
fn mode_word(mode: Mode) -> &'static str
    ensures word { result.now ≡ word_of mode }
    ensures short { length result.now ≤ 7 }
{
    match mode {
        Mode::Paired | Mode::Filling => "paired",
        Mode::Alone => "alone",
        Mode::Stopped => "stopped",
    }
}

/// Prints `sector`, the number of a sector, and its 512 bytes in lower case hex.
pub fn write_sector(text: &mut Text, sector: u64, bytes: &[u8; SECTOR_BYTES])
    ensures { text.new.items ≡ sector_line sector bytes.now }
{
    text.clear();
    add(text, b"sector ");
    add_number(text, sector);
    add(text, b" ");
    add_digits(text, bytes.as_slice());
    add(text, b"\n");
}

/// Prints a line of words alone.
pub fn write_words(text: &mut Text, words: &str)
    requires { length words.now ≤ 20 }
    ensures { text.new.items ≡ line (words.now ∷ []) }
{
    write_line(text, words, &[]);
}

/// Prints what happened, and one number.
pub fn write_number(text: &mut Text, event: &str, number: u64)
    requires { length event.now ≤ 20 }
    ensures { text.new.items ≡ line (event.now ∷ decimal number ∷ []) }
{
    write_line(text, event, &[Number(number)]);
}

/// Prints up to which checkpoint all are acknowledged, and how many frames landed.
fn write_acked(text: &mut Text, generation: u64, number: u64, landed: u64)
    ensures { text.new.items ≡ line (codes "acked" ∷ decimal generation ∷ decimal number ∷ codes "landed" ∷ decimal landed ∷ []) }
{
    write_line(
        text,
        "acked",
        &[
            Number(generation),
            Number(number),
            Word("landed"),
            Number(landed),
        ],
    );
}

/// Prints what happened to a checkpoint, and which one it is.
pub fn write_checkpoint(text: &mut Text, event: &str, generation: u64, number: u64)
    requires { length event.now ≤ 20 }
    ensures { text.new.items ≡ line (event.now ∷ decimal generation ∷ decimal number ∷ []) }
{
    write_line(text, event, &[Number(generation), Number(number)]);
}

/// Prints what happened, the generation, and a number with its name.
pub fn write_generation(text: &mut Text, event: &str, generation: u64, name: &str, number: u64)
    requires short { length event.now ≤ 20 }
    requires short_name { length name.now ≤ 20 }
    ensures { text.new.items ≡ line (event.now ∷ decimal generation ∷ name.now ∷ decimal number ∷ []) }
{
    write_line(
        text,
        event,
        &[Number(generation), Word(name), Number(number)],
    );
}

/// Prints `frame` and the bytes in lower case hex.
pub fn write_frame(text: &mut Text, frame: &Frame)
    ensures bytes { IsBytes frame.now.items }
    ensures printed { text.new.items ≡ line (codes "frame" ∷ encode_lower frame.now.items ∷ []) }
{
    let bytes = frame.as_slice();
    text.clear();
    add(text, b"frame ");
    add_digits(text, bytes);
    add(text, b"\n");
}
