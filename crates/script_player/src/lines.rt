//! The lines after the boot line.

ghost use Rattle.std.specs.Prelude.{◌≡◌, ℕ, List, IfOk, IfSome, IfNone, OnErr};
ghost use Rattle.script_player.specs.Delivery.{IsDelivery};
ghost use Rattle.script_player.specs.Lines.{line_of, Line as SpelledLine};
ghost use Rattle.script_player.specs.Meaning.{IsLine};

use crate::delivery::{Delivery, read_delivery};
use crate::script::{Command, read_command};
use memory_wanted::MemoryWanted;
use std::alloc::Global;

/// A line after the boot line.
#[derive(Drop)]
pub enum Line {
    /// A command.
    Order(Command),
    /// A client's frame.
    Delivery(Delivery),
}

/// The line that a text spells, if it spells one. A text has one reading at most.
///
/// # Errors
///
/// [`MemoryWanted`] where the text spells a delivery, and there is no memory for its bytes.
pub fn read_line(alloc: Global, text: &[u8]) -> Result<Option<Line>, MemoryWanted>
    // What is read is spelled so.
    ensures found { IfOk result (λ found. IfSome found (λ line. IsLine text.now (line_of line))) }
    // Whatever the text spells is what was read.
    ensures exact { IfOk result (λ found. IfSome found (λ line.
        (other : SpelledLine) → IsLine text.now other → other ≡ line_of line)) }
    // Where nothing is read, nothing is spelled.
    ensures none { IfOk result (λ found. IfNone found ((line : SpelledLine) → IsLine text.now line → ⊥)) }
    // Memory is asked for only for the bytes of a line that is a delivery.
    ensures err { OnErr result ((client : ℕ) × (bytes : List ℕ) × IsDelivery text.now client bytes) }
{
    if let Some(command) = read_command(text) {
        return Ok(Some(Line::Order(command)));
    }
    match read_delivery(alloc, text)? {
        Some(delivery) => Ok(Some(Line::Delivery(delivery))),
        None => Ok(None),
    }
}
