//! `remus sim FILE`: plays a script of events to a pair.

ghost use Rattle.std.specs.Prelude.{◌≡◌, ◌∷◌, [], Some, None, IfSome, IfErr, OnOk, MatchOption, ◌<◌, length};
ghost use Rattle.memchr.specs.Find.{IsFirstByte, is_byte};
ghost use Rattle.script_player.specs.Meaning.{lines_of, bad_line, IsPlayed};
ghost use Rattle.script_player.specs.Streams.{IsPrinted, IsPut};
ghost use Rattle.script_player.specs.internal.Playing.{IsEnded, IsPlayedTo, printed_by, stop_of};
ghost use Rattle.script_player.specs.declared.sim.Stop.TheVariants.{Unwritten};

use crate::fields::numbered;
use crate::player::{Player, Turn};
use crate::streams::{Failed, Sink};
use crate::text::{Text, add, add_number};
use memchr::memchr;
use std::alloc::Global;

/// The guest may make fewer steps than these, some thousandth of a second's, before what was printed is written out.
const STEPS_UNSHOWN: u64 = 100_000;

/// Plays the script `source`, and prints the answers on `out` and a bad line on `err`. Answers the exit status: 0, or 1 after a bad line,
/// a refused boot line or a write that failed. What was printed is written out after the boot line, before a line that steps the guest
/// for long, and at the end.
pub fn sim<O: Sink, E: Sink>(alloc: Global, source: &[u8], out: &mut O, err: &mut E) -> u8
    ensures { IsPlayed O.no_memory source.now (O.written out.old) (O.written out.new) (E.written err.old) (E.written err.new) result }
{
    let played = play(alloc, source, out);
    match out.show() {
        Ok(()) => tell(played, err),
        Err(Failed) => 1,
    }
}

/// Says on standard error how a script ended, if it ended with a bad line. Answers the exit status.
fn tell<E: Sink>(played: Result<(), Stop>, err: &mut E) -> u8
    ensures { IsEnded played (E.written err.old) (E.written err.new) result }
{
    match played {
        Ok(()) => 0,
        Err(Stop::Bad(number)) => {
            let _ = tell_bad_line(number, err);
            1
        }
        Err(Stop::Refused) => 1,
        Err(Stop::Unwritten) => 1,
    }
}

/// Why a script ends early.
#[derive(Clone, Copy, Drop)]
pub enum Stop {
    /// The line of this number is bad.
    Bad(u64),
    /// The boot line was refused.
    Refused,
    /// A write failed.
    Unwritten,
}

impl From<Failed> for Stop {
    ghost from_gives = { λ _ stop. stop ≡ Unwritten };

    fn from(_: Failed) -> Stop {
        Stop::Unwritten
    }
}

/// Says on standard error that the line of this number is bad.
pub fn tell_bad_line<E: Sink>(number: u64, err: &mut E) -> Result<(), Failed>
    ensures { IsPut (E.written err.old) (E.written err.new) result (bad_line number) }
{
    let mut text = Text::new();
    add(&mut text, b"remus: line ");
    add_number(&mut text, number);
    add(&mut text, b": bad\n");
    err.put(text.as_slice())
}

/// Plays the lines in turn, up to the first that ends the script.
fn play<O: Sink>(alloc: Global, source: &[u8], out: &mut O) -> Result<(), Stop>
    ensures { IsPlayedTo O.no_memory source.now result (O.written out.old) (O.written out.new) }
{
    let mut player = Player::new();
    let mut unshown = 0;
    let mut number = 0;
    let mut left = Some(source);
    while let Some(text) = left {
        let (line, rest) = first_line(text);
        left = rest;
        number += 1;
        show_before(line, &mut unshown, out)?;
        let turn = player.step(alloc, line);
        let goes_on = stop_after(&turn, number);
        print(player.text.as_slice(), turn, out)?;
        goes_on?;
    }
    Ok(())
}

/// Why a script ends with a line of this number, if it does.
///
/// # Errors
///
/// Why it ends.
fn stop_after(turn: &Turn, number: u64) -> Result<(), Stop>
    ensures ok { OnOk result (stop_of turn.now number ≡ None) }
    ensures err { IfErr result (λ stop. stop_of turn.now number ≡ Some stop) }
{
    match turn {
        Turn::Booted | Turn::Played | Turn::NoMemory(_) => Ok(()),
        Turn::Bad => Err(Stop::Bad(number)),
        Turn::Refused(_) => Err(Stop::Refused),
    }
}

/// Prints what a line printed, its text or that there was no memory for it, and writes it out after the boot line.
///
/// # Errors
///
/// Where a write fails.
fn print<O: Sink>(text: &[u8], turn: Turn, out: &mut O) -> Result<(), Failed>
    ensures { IsPrinted (O.written out.old) (O.written out.new) result (printed_by O.no_memory turn text.now) }
{
    match turn {
        Turn::Booted => {
            out.put(text)?;
            out.show()
        }
        Turn::Played | Turn::Bad => out.put(text),
        Turn::Refused(wanted) => out.refuse(wanted),
        Turn::NoMemory(wanted) => out.refuse(wanted),
    }
}

/// Writes out what was printed, before a line that steps the guest for long.
///
/// # Errors
///
/// Where a write fails.
fn show_before<O: Sink>(line: &[u8], unshown: &mut u64, out: &mut O) -> Result<(), Failed>
    ensures { IsPrinted (O.written out.old) (O.written out.new) result [] }
{
    if is_long(line, unshown) {
        out.show()
    } else {
        Ok(())
    }
}

/// Whether the guest would make so many steps, with this line, that what was printed would go unshown for too long. `unshown` counts
/// those since it was last written out.
fn is_long(line: &[u8], unshown: &mut u64) -> bool {
    let Some(steps) = numbered(line, b"step ") else {
        return false;
    };
    *unshown = unshown.saturating_add(steps);
    if *unshown < STEPS_UNSHOWN {
        return false;
    }
    *unshown = 0;
    true
}

/// The first line of a text, and what stands after its newline, if it has one.
pub fn first_line(text: &[u8]) -> (&[u8], Option<&[u8]>)
    ensures lines { MatchOption result.1 (lines_of text.now ≡ result.0.now ∷ [])
        (λ rest. lines_of text.now ≡ result.0.now ∷ lines_of rest.now) }
    ensures shorter { IfSome result.1 (λ rest. length rest.now < length text.now) }
{
    match first_newline(text) {
        Some(end) => (&text[..end], Some(&text[end + 1..])),
        None => (text, None),
    }
}

/// Where the first newline stands.
pub fn first_newline(text: &[u8]) -> Option<usize>
    ensures { IsFirstByte (is_byte 10) text.now result }
{
    memchr(b'\n', text)
}
