//! What a line after the boot line does to the pair, and what is printed of it.

ghost use Rattle.std.specs.Prelude.{◌≡◌, ℕ, List, [], option_map};
ghost use Rattle.pair_core.specs.Answering.{step_reply};
ghost use Rattle.script_player.specs.Lines.{line_of, order, Line as SpelledLine};
ghost use Rattle.script_player.specs.Meaning.{AsksFor};
ghost use Rattle.script_player.specs.internal.Playing.{IsDone, Tells};
ghost use Rattle.script_player.specs.Printed.{named_sector};

use crate::lines::Line;
use crate::player::Turn;
use crate::replies::{write_number, write_refusal, write_reply, write_sector, write_show};
use crate::script::Command;
use crate::text::Text;
use pair_core::{Event, Refusal, Reply, SECTOR_BYTES, World};

/// Does what a line says, and prints the answer into `text`, which is emptied first. What became of the line: it was played, there was no
/// memory for it, or it is bad, since it asks for a sector beyond the disk, and does nothing.
pub fn answer(world: &mut World, line: &Line, text: &mut Text) -> Turn
    ensures { (no_memory : List ℕ) → IsDone no_memory world.old (line_of line.now) result text.new.items world.new }
{
    text.clear();
    match line {
        Line::Order(command) => obey(world, *command, text),
        Line::Delivery(delivery) => {
            let event = Event::Deliver(delivery.client, delivery.bytes.as_slice());
            happen(world, event, text)
        }
    }
}

/// Does what a command says, and prints the answer.
fn obey(world: &mut World, command: Command, text: &mut Text) -> Turn
    requires { text.old.items ≡ [] }
    ensures { (no_memory : List ℕ) → IsDone no_memory world.old (order command) result text.new.items world.new }
{
    match command {
        Command::Asks(event) => happen(world, event, text),
        Command::Steps(count) => step(world, count, text),
        Command::Sector(sector) => print_sector(world, sector, text),
        Command::Show => print_show(world, text),
    }
}

/// An event happens to the pair, and its reply is printed: a line that asks for that event is done.
fn happen(world: &mut World, event: Event<'_>, text: &mut Text) -> Turn
    ensures { (no_memory : List ℕ) (line : SpelledLine) → AsksFor line event.entry
        → IsDone no_memory world.old line result text.new.items world.new }
{
    let reply = world.apply(event);
    tell(reply, text)
}

/// A reply is printed; a want of memory is handed back.
fn tell(reply: Reply, text: &mut Text) -> Turn
    ensures { Tells reply result text.new.items }
{
    match reply {
        Reply::Refused(Refusal::NoMemory(wanted)) => Turn::NoMemory(wanted),
        other => {
            write_reply(text, &other);
            Turn::Played
        }
    }
}

/// The guest makes so many steps, and the last reply is printed.
fn step(world: &mut World, count: u64, text: &mut Text) -> Turn
    ensures { (no_memory : List ℕ) → IsDone no_memory world.old (order (Command.Steps count)) result text.new.items world.new }
{
    let answer = world.run_steps(count);
    tell_steps(answer, text)
}

/// The last of several steps' replies is printed, or the first refusal; a want of memory is handed back. Most lines are steps, so no
/// [`Reply`] is made of their count.
fn tell_steps(answer: Result<u64, Refusal>, text: &mut Text) -> Turn
    ensures { Tells (step_reply answer) result text.new.items }
{
    match answer {
        Ok(steps) => write_number(text, "steps", steps),
        Err(Refusal::NoMemory(wanted)) => return Turn::NoMemory(wanted),
        Err(refusal) => write_refusal(text, &refusal),
    }
    Turn::Played
}

/// Prints the state of the pair.
fn print_show(world: &World, text: &mut Text) -> Turn
    ensures { (no_memory : List ℕ) → IsDone no_memory world.now (order Command.Show) result text.new.items world.now }
{
    write_show(text, &world.show());
    Turn::Played
}

/// Prints a sector of the disk, if the disk has it.
fn print_sector(world: &World, sector: u64, text: &mut Text) -> Turn
    requires { text.old.items ≡ [] }
    ensures { (no_memory : List ℕ) → IsDone no_memory world.now (order (Command.Sector sector)) result text.new.items world.now }
{
    let Some(bytes) = sector_of(world, sector) else {
        return Turn::Bad;
    };
    write_sector(text, sector, bytes);
    Turn::Played
}

/// The bytes of the sector that a number names.
fn sector_of(world: &World, sector: u64) -> Option<&[u8; SECTOR_BYTES]>
    ensures value { option_map (λ bytes. bytes.now) result ≡ named_sector world.now sector }
{
    world.sector(u32::try_from(sector).ok()?)
}
