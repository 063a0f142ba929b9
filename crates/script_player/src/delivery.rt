//! The line of a client's frame: `deliver CLIENT HEX`.

ghost use Rattle.std.specs.Prelude.{◌≡◌, ℕ, List, Some, IfOk, IfSome, IsFalse, IsTrue, OnErr, option_map};
ghost use Rattle.std.specs.Char.{is_ascii_hexdigit};
ghost use Rattle.std.specs.List.{list_all};
ghost use Rattle.script_player.specs.Delivery.{IsHex, IsDelivery, delivery_head, delivery_view};

use crate::digits::read_into;
use crate::fields::{after, has_upper_case, operand};
use memory_wanted::{MemoryWanted, with_capacity};
use std::alloc::Global;

/// What such a line says.
#[derive(Drop)]
pub struct Delivery {
    /// The client's number.
    pub client: u64,
    /// The bytes, at least one.
    pub bytes: Vec<u8>,
}

/// The delivery that a line spells, if it spells one. A line has one reading at most.
///
/// # Errors
///
/// [`MemoryWanted`] where the line is a delivery, and there is no memory for its bytes.
pub fn read_delivery(alloc: Global, text: &[u8]) -> Result<Option<Delivery>, MemoryWanted>
    // What is read is spelled so.
    ensures found { IfOk result (λ found. IfSome found (λ delivery. IsDelivery text.now delivery.client delivery.bytes.items)) }
    // What is spelled so is read so, unless memory runs out.
    ensures only { (client : ℕ) (bytes : List ℕ) → IsDelivery text.now client bytes
        → IfOk result (λ found. option_map delivery_view found ≡ Some (client, bytes)) }
    // Memory is asked for only for the bytes of a line that is a delivery.
    ensures err { OnErr result ((client : ℕ) × (bytes : List ℕ) × IsDelivery text.now client bytes) }
{
    let Some((client, digits)) = read_head(text) else {
        return Ok(None);
    };
    let Some(bytes) = read_bytes(alloc, digits)? else {
        return Ok(None);
    };
    Ok(Some(Delivery { client, bytes }))
}

/// The client's number, and the text after it.
fn read_head(text: &[u8]) -> Option<(u64, &[u8])>
    ensures { option_map (λ head. (head.0, head.1.now)) result ≡ delivery_head text.now }
{
    operand(after(text, b"deliver ")?)
}

/// The bytes that digits write, at least one.
pub fn read_bytes(alloc: Global, digits: &[u8]) -> Result<Option<Vec<u8>>, MemoryWanted>
    ensures found { IfOk result (λ found. IfSome found (λ bytes. IsHex digits.now bytes.items)) }
    ensures only { (bytes : List ℕ) → IsHex digits.now bytes → IfOk result (λ found. option_map (λ v. v.items) found ≡ Some bytes) }
    // Memory is asked for only where they write some.
    ensures err { OnErr result ((bytes : List ℕ) × IsHex digits.now bytes) }
{
    if digits.is_empty() {
        return Ok(None);
    }
    if digits.len() % 2 == 1 {
        return Ok(None);
    }
    match with_capacity(alloc, digits.len() / 2) {
        Ok(list) => Ok(read_into(list, digits)),
        Err(wanted) => refuse(digits, wanted),
    }
}

/// What is answered where there is no memory for the bytes that digits write, if they write some.
///
/// # Errors
///
/// That there is none, where they do.
fn refuse(digits: &[u8], wanted: MemoryWanted) -> Result<Option<Vec<u8>>, MemoryWanted>
    ensures found { IfOk result (λ found. IfSome found (λ bytes. IsHex digits.now bytes.items)) }
    ensures only { (bytes : List ℕ) → IsHex digits.now bytes → IfOk result (λ found. option_map (λ v. v.items) found ≡ Some bytes) }
    ensures err { OnErr result ((bytes : List ℕ) × IsHex digits.now bytes) }
{
    if are_lower_hex(digits) {
        Err(wanted)
    } else {
        Ok(None)
    }
}

/// Whether digits write bytes, at least one: two for each, in lower case.
pub fn are_lower_hex(digits: &[u8]) -> bool
    ensures some { IsTrue result → (bytes : List ℕ) × IsHex digits.now bytes }
    ensures none { IsFalse result → (bytes : List ℕ) → IsHex digits.now bytes → ⊥ }
{
    if has_upper_case(digits) {
        return false;
    }
    !digits.is_empty() && digits.len() % 2 == 0 && are_hex_digits(digits)
}

/// Whether all are hex digits, in lower case or upper case.
fn are_hex_digits(text: &[u8]) -> bool
    ensures { result ≡ list_all is_ascii_hexdigit text.now }
{
    text.iter().all(|c| c.is_ascii_hexdigit())
}
