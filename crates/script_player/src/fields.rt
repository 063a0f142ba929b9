//! The fields of a script's line: names and numbers, each with the one way that it may be spelled.

ghost use Rattle.std.specs.Prelude.{◌≡◌, ◌==◌, ℕ, List, length, None, Some, IfSome, MatchOption, option_and_then, option_map, position};
ghost use Rattle.std.specs.Char.{is_ascii_uppercase};
ghost use Rattle.std.specs.List.{list_any};
ghost use Rattle.hex.specs.Hex.{encode_lower, IsBytes};
ghost use Rattle.script_player.specs.Fields.{text_after, number_written, numbered_by, numbers_by, operand_at, operand_of, parted, parted_at};

use hex::FromHex;

/// The bytes after `front`, where the text begins with it.
pub fn after<'a>(text: &'a [u8], front: &[u8]) -> Option<&'a [u8]>
    ensures { MatchOption result (text_after front.now text.now ≡ None) (λ rest. text_after front.now text.now ≡ Some rest.now) }
{
    text.strip_prefix(front)
}

/// The number that the text writes: only decimal digits, at least one, below 2^64. Zeros may lead.
pub fn number(text: &[u8]) -> Option<u64>
    ensures { result ≡ number_written text.now }
{
    if text.is_empty() {
        return None;
    }
    let mut value: u64 = 0;
    for digit in text {
        if !digit.is_ascii_digit() {
            return None;
        }
        value = value
            .checked_mul(10)?
            .checked_add(u64::from(*digit - b'0'))?;
    }
    Some(value)
}

/// The number after `front`, where the text is `front` and a number.
pub fn numbered(text: &[u8], front: &[u8]) -> Option<u64>
    ensures { result ≡ numbered_by front.now text.now }
{
    number(after(text, front)?)
}

/// A number at the front, and the text after the space that ends it.
pub fn operand(text: &[u8]) -> Option<(u64, &[u8])>
    ensures { option_map (λ found. (found.0, found.1.now)) result ≡ operand_of text.now }
{
    operand_at(text, b' ')
}

/// A number at the front, and the text after the byte that ends it.
pub fn operand_at(text: &[u8], end: u8) -> Option<(u64, &[u8])>
    ensures { option_map (λ found. (found.0, found.1.now)) result ≡ operand_at end text.now }
{
    let (digits, rest) = part_at(text, end)?;
    Some((number(digits)?, rest))
}

/// The two numbers after `front`, where the text is `front` and two numbers with one space between them.
pub fn numbers(text: &[u8], front: &[u8]) -> Option<(u64, u64)>
    ensures { result ≡ numbers_by front.now text.now }
{
    let (first, rest) = operand_after(text, front)?;
    Some((first, number(rest)?))
}

/// A number after `front`, and the text after the space that ends it.
pub fn operand_after<'a>(text: &'a [u8], front: &[u8]) -> Option<(u64, &'a [u8])>
    ensures { option_map (λ found. (found.0, found.1.now)) result ≡ option_and_then operand_of (text_after front.now text.now) }
{
    operand(after(text, front)?)
}

/// The text up to the first space, and what stands after that.
pub fn part(text: &[u8]) -> Option<(&[u8], &[u8])>
    ensures { option_map (λ parts. (parts.0.now, parts.1.now)) result ≡ parted text.now }
{
    part_at(text, b' ')
}

/// The text up to the first such byte, and what stands after that.
fn part_at(text: &[u8], byte: u8) -> Option<(&[u8], &[u8])>
    ensures { option_map (λ parts. (parts.0.now, parts.1.now)) result ≡ parted_at byte text.now }
{
    let place = place_of(text, byte)?;
    Some((&text[..place], &text[place + 1..]))
}

/// Where the first such byte stands.
fn place_of(text: &[u8], byte: u8) -> Option<usize>
    ensures { result ≡ position (λ c. c == byte) text.now }
{
    text.iter().position(|c| *c == byte)
}

/// The `N` bytes that the text writes, each as two hex digits in lower case.
pub fn hex_bytes<const N: usize>(text: &[u8]) -> Option<[u8; N]>
    // What is read is spelled so.
    ensures found { IfSome result (λ bytes. text.now ≡ encode_lower bytes) }
    ensures bytes { IfSome result (λ bytes. (length bytes ≡ N) × IsBytes bytes) }
    // What is spelled so is read so.
    ensures only { (bytes : List ℕ) → length bytes ≡ N → IsBytes bytes → text.now ≡ encode_lower bytes → result ≡ Some bytes }
{
    if has_upper_case(text) {
        return None;
    }
    <[u8; N]>::from_hex(text).ok()
}

/// Whether a letter in upper case is in the text. `hex` reads such letters as digits too, and a script has none.
pub fn has_upper_case(text: &[u8]) -> bool
    ensures { result ≡ list_any is_ascii_uppercase text.now }
{
    text.iter().any(|c| c.is_ascii_uppercase())
}
