//! The lines of a script but for a client's frame: what each form is, and how it is read.

ghost use Rattle.std.specs.Prelude.{◌≡◌, Some, IfSome};
ghost use Rattle.script_player.specs.Command.{command_of, numbered_event, word_event, IsCommand};
ghost use Rattle.script_player.specs.declared.script.Command.{Command};

use crate::fields::{numbered, numbers};
use pair_core::Event;

/// A line after the boot line, but for a client's frame.
#[derive(Clone, Copy)]
pub enum Command {
    /// A line that asks for an event.
    Asks(Event<'static>),
    /// `step N`: so many guest steps, at least 1.
    Steps(u64),
    /// `sector S`: the bytes of sector `S` of the disk of the guest that goes on, from 0. Beyond the disk it is a bad line.
    Sector(u64),
    /// `show`: the state in one line.
    Show,
}

/// The command that a line spells, if it has one of their forms: fields parted by one space, nothing before
/// or after them. A line has one reading at most.
pub fn read_command(text: &[u8]) -> Option<Command>
    // What is read is spelled so.
    ensures found { IfSome result (λ command. IsCommand text.now command) }
    // What is spelled so is read so.
    ensures only { (command : Command) → IsCommand text.now command → result ≡ Some command }
{
    first_form(text)
}

/// The first form that fits. Most lines of a script are steps.
fn first_form(text: &[u8]) -> Option<Command>
    ensures { result ≡ command_of text.now }
{
    if let Some(count) = numbered(text, b"step ") {
        return if count == 0 {
            None
        } else {
            Some(Command::Steps(count))
        };
    }
    if let Some(event) = word_event(text) {
        return Some(Command::Asks(event));
    }
    if let Some(event) = numbered_event(text) {
        return Some(Command::Asks(event));
    }
    if let Some(sector) = numbered(text, b"sector ") {
        return Some(Command::Sector(sector));
    }
    if text == b"show".as_slice() {
        return Some(Command::Show);
    }
    None
}

/// The event that words alone spell.
fn word_event(text: &[u8]) -> Option<Event<'static>>
    ensures { result ≡ word_event text.now }
{
    if text == b"cut".as_slice() {
        return Some(Event::Cut);
    }
    if text == b"send".as_slice() {
        return Some(Event::Send);
    }
    if text == b"fail primary".as_slice() {
        return Some(Event::FailPrimary);
    }
    if text == b"fail backup".as_slice() {
        return Some(Event::FailBackup);
    }
    if text == b"golive".as_slice() {
        return Some(Event::GoLive);
    }
    if text == b"protect".as_slice() {
        return Some(Event::Protect);
    }
    None
}

/// The event that words and numbers spell.
fn numbered_event(text: &[u8]) -> Option<Event<'static>>
    ensures { result ≡ numbered_event text.now }
{
    if let Some(packet) = numbered(text, b"backup ") {
        return Some(Event::BackupGet(packet));
    }
    if let Some(acknowledgement) = numbered(text, b"ack ") {
        return Some(Event::AckGet(acknowledgement));
    }
    if let Some(client) = numbered(text, b"admit ") {
        return Some(Event::Admit(client));
    }
    if let Some(client) = numbered(text, b"take ") {
        return Some(Event::Take(client));
    }
    if let Some((client, place)) = numbers(text, b"losein ") {
        return Some(Event::LoseIn(client, place));
    }
    if let Some((client, place)) = numbers(text, b"loseout ") {
        return Some(Event::LoseOut(client, place));
    }
    None
}
