//! A pair that is played line by line.

ghost use Rattle.std.specs.Prelude.{◌≡◌, ◌*◌, ◌≤◌, IfOk, IfSome, IfNone, OnErr, ℕ, List, [], false, length};
ghost use Rattle.script_player.specs.Boot.{BootLine, IsBoot, IsInLimits, boot_line};
ghost use Rattle.script_player.specs.Guests.{guest_image, named_guest};
ghost use Rattle.script_player.specs.Limits.{page_bytes};
ghost use Rattle.script_player.specs.Meaning.{IsReady, is_silent, unbooted, playing};
ghost use Rattle.script_player.specs.internal.Playing.{IsStep, printed_by, stage_of};

use crate::answers::answer;
use crate::boot::{Boot, Guest, image_of, read_boot};
use crate::lines::read_line;
use crate::text::{Text, add};
use guest_kit::{beacon, disk_once, idle};
use memory_wanted::{MemoryWanted, boxed};
use pair_core::{Refusal, Shape, World};
use std::alloc::Global;

/// What became of a line.
#[derive(Drop)]
pub enum Turn {
    /// It was the boot line, and the pair is booted.
    Booted,
    /// It was played, or is one that prints nothing.
    Played,
    /// It is bad: it has no known form, or asks for a sector beyond the disk. Nothing changes.
    Bad,
    /// It is the boot line, and there is no memory for what it asks for. There is no pair yet. That is to be printed, and no text.
    Refused(MemoryWanted),
    /// It was played, and there was no memory for it. That is to be printed, and no text.
    NoMemory(MemoryWanted),
}

/// A pair that is played line by line, from before its boot line on.
#[derive(Drop)]
pub struct Player {
    /// The pair, once it is booted. It stands in a box, so that no function holds a large value.
    pub world: Option<Box<World>>,
    /// What the last line printed, if there was memory for it.
    pub text: Text,
}

impl Player {
    /// One that waits for its boot line.
    pub fn new() -> Player
        ensures { stage_of result.world ≡ unbooted }
    {
        Player {
            world: None,
            text: Text::new(),
        }
    }

    /// Plays one line. What it prints is the text, or that there was no memory for it.
    pub fn step(&mut self, alloc: Global, line: &[u8]) -> Turn
        ensures { (no_memory : List ℕ) → IsStep no_memory (stage_of self.old.world) line.now result
            (printed_by no_memory result self.new.text.items) (stage_of self.new.world) }
    {
        self.text.clear();
        if is_silent(line) {
            return Turn::Played;
        }
        match &mut self.world {
            Some(world) => play(alloc, world, line, &mut self.text),
            None => self.boot(alloc, line),
        }
    }

    /// Boots the pair that the boot line asks for.
    fn boot(&mut self, alloc: Global, line: &[u8]) -> Turn
        requires loud { is_silent line.now ≡ false }
        requires unbooted { stage_of self.old.world ≡ unbooted }
        requires empty { self.old.text.items ≡ [] }
        ensures { (no_memory : List ℕ) → IsStep no_memory unbooted line.now result (printed_by no_memory result self.new.text.items)
            (stage_of self.new.world) }
    {
        match booted(alloc, line) {
            Ok(Some(world)) => {
                self.world = Some(world);
                add(&mut self.text, b"booted\n");
                Turn::Booted
            }
            Ok(None) => Turn::Bad,
            Err(wanted) => Turn::Refused(wanted),
        }
    }
}

/// Plays a line after the boot line, and prints the answer into an empty text.
fn play(alloc: Global, world: &mut Box<World>, line: &[u8], text: &mut Text) -> Turn
    requires loud { is_silent line.now ≡ false }
    requires empty { text.old.items ≡ [] }
    ensures { (no_memory : List ℕ) → IsStep no_memory (playing world.old.value) line.now result
        (printed_by no_memory result text.new.items) (playing world.new.value) }
{
    match read_line(alloc, line) {
        Ok(Some(line)) => answer(world.as_mut(), &line, text),
        Ok(None) => Turn::Bad,
        Err(wanted) => Turn::NoMemory(wanted),
    }
}

/// Whether a line prints nothing: it is empty, or a comment.
pub fn is_silent(line: &[u8]) -> bool
    ensures { result ≡ is_silent line.now }
{
    matches!(line, [] | [b'#', ..])
}

/// The pair at its start that this boot line asks for; none where the text is no boot line.
fn booted(alloc: Global, text: &[u8]) -> Result<Option<Box<World>>, MemoryWanted>
    ensures some { IfOk result (λ found. IfSome found (λ world. (line : BootLine)
        × IsBoot text.now line × IsReady line world.value)) }
    ensures none { IfOk result (λ found. IfNone found ((line : BootLine) → IsBoot text.now line → ⊥)) }
    ensures err { OnErr result ((line : BootLine) × IsBoot text.now line) }
{
    let Some(boot) = read_boot(alloc, text)? else {
        return Ok(None);
    };
    Ok(Some(start(alloc, &boot)?))
}

/// The pair that a boot line asks for, at its start.
fn start(alloc: Global, boot: &Boot) -> Result<Box<World>, MemoryWanted>
    requires { IsInLimits (boot_line boot.now) }
    ensures { IfOk result (λ w. IsReady (boot_line boot.now) w.value) }
{
    let shape = Shape {
        pages: boot.pages,
        sectors: boot.sectors,
    };
    let image = image(alloc, boot)?;
    match World::boot(alloc, shape, boot.clients, image.as_slice()) {
        Ok(world) => boxed(alloc, world),
        Err(Refusal::NoMemory(wanted)) => Err(wanted),
        Err(_) => unreachable!(),
    }
}

/// The bytes of a guest's program.
pub fn image(alloc: Global, boot: &Boot) -> Result<Vec<u8>, MemoryWanted>
    requires { IsInLimits (boot_line boot.now) }
    ensures fits { IfOk result (λ image. length image.items ≤ page_bytes * boot.now.pages) }
    ensures bytes { IfOk result (λ image. image.items ≡ guest_image (named_guest boot.now.guest)) }
{
    match &boot.guest {
        Guest::Idle => idle(alloc),
        Guest::Beacon => beacon(alloc),
        Guest::Disk { sector, byte } => disk_once(alloc, *sector, *byte),
        Guest::Words(words) => image_of(alloc, words),
    }
}
