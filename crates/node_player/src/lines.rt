//! The lines of a node.

ghost use Rattle.std.specs.Prelude.{◌≡◌, ℕ, List, Some, IfOk, IfSome, OnErr, codes, option_map};
ghost use Rattle.node_player.specs.Lines.{line_of, following, HasBytes, IsLine, WantsMemory, Line as SpelledLine};
ghost use Rattle.node_player.specs.internal.Followed.{followed};
ghost use Rattle.node_player.specs.internal.Limited.{IsLimited};

use crate::orders::{Order, read_order};
use memory_wanted::MemoryWanted;
use script_player::boot::{Boot, read_boot};
use script_player::delivery::read_bytes;
use script_player::fields::{after, numbered, operand_at};
use std::alloc::Global;

/// How a line begins that is followed by bytes.
const RAW_PIECE: &[u8] = b"rawpiece ";

/// A line.
#[derive(Drop)]
pub enum Line<'a> {
    /// The boot line: the node is a primary that is alone.
    Boot(Boot),
    /// One that carries numbers alone.
    Order(Order),
    /// `arrive HEX`: a frame is handed to the guest's network card.
    Arrive(Vec<u8>),
    /// `piece HEX`: the next bytes of a checkpoint's text.
    Piece(Vec<u8>),
    /// `rawpiece COUNT`, and behind the newline so many bytes: the same.
    RawPiece(&'a [u8]),
}

/// How many bytes follow a line, and are a part of it.
pub fn following(line: &[u8]) -> u64
    ensures { result ≡ following line.now }
{
    numbered(line, RAW_PIECE).unwrap_or(0)
}

/// The line that a text spells, if it spells one. A text has one reading at most.
///
/// # Errors
///
/// [`MemoryWanted`] where the text spells a line with a program or with bytes, and there is no memory for these.
pub fn read_line<'a>(alloc: Global, text: &'a [u8]) -> Result<Option<Line<'a>>, MemoryWanted>
    // What is read is spelled so.
    ensures found { IfOk result (λ found. IfSome found (λ line. IsLine text.now (line_of line))) }
    // Whatever the text spells is what was read.
    ensures only { (line : SpelledLine) → IsLine text.now line → IfOk result (λ found. option_map line_of found ≡ Some line) }
    // Its numbers are in their limits.
    ensures limits { IfOk result (λ found. IfSome found IsLimited) }
    // Memory is asked for only for a line with a program or with bytes.
    ensures err { OnErr result ((line : SpelledLine) × IsLine text.now line × WantsMemory line) }
{
    if let Some(order) = read_order(text) {
        return Ok(Some(Line::Order(order)));
    }
    if let Some(bytes) = bytes_after(alloc, text, b"arrive ")? {
        return Ok(Some(Line::Arrive(bytes)));
    }
    if let Some(bytes) = bytes_after(alloc, text, b"piece ")? {
        return Ok(Some(Line::Piece(bytes)));
    }
    if let Some(bytes) = raw_bytes(text) {
        return Ok(Some(Line::RawPiece(bytes)));
    }
    match read_boot(alloc, text)? {
        Some(boot) => Ok(Some(Line::Boot(boot))),
        None => Ok(None),
    }
}

/// The bytes that digits after `front` write, at least one.
///
/// # Errors
///
/// [`MemoryWanted`] where they write some, and there is no memory for these.
fn bytes_after(alloc: Global, text: &[u8], front: &[u8]) -> Result<Option<Vec<u8>>, MemoryWanted>
    ensures found { IfOk result (λ found. IfSome found (λ bytes. HasBytes front.now bytes.items text.now)) }
    ensures only { (bytes : List ℕ) → HasBytes front.now bytes text.now
        → IfOk result (λ found. option_map (λ v. v.items) found ≡ Some bytes) }
    ensures err { OnErr result ((bytes : List ℕ) × HasBytes front.now bytes text.now) }
{
    let Some(digits) = after(text, front) else {
        return Ok(None);
    };
    read_bytes(alloc, digits)
}

/// The bytes behind `rawpiece COUNT` and its newline, where they are so many, and at least one.
fn raw_bytes(text: &[u8]) -> Option<&[u8]>
    ensures { option_map (λ bytes. bytes.now) result ≡ followed (codes "rawpiece ") text.now }
{
    let (count, bytes) = operand_at(after(text, RAW_PIECE)?, b'\n')?;
    if count > 0 && count == bytes.len() as u64 {
        Some(bytes)
    } else {
        None
    }
}
