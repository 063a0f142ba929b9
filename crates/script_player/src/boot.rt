//! The boot line of a script: the size of the machine, the number of clients, and the guest.

ghost use Rattle.std.specs.Prelude.{◌≡◌, ℕ, ◌^◌, ◌<◌, ◌≤◌, ◌++◌, List, Some, IfOk, IfSome, IfNone, IsTrue, OnErr, option_map, length};
ghost use Rattle.script_player.specs.Guests.{word_field, IsWords, IsDisk, IsGuest, NamedGuest, named_guest, words_image};
ghost use Rattle.script_player.specs.Boot.{IsBoot, BootLine, boot_line, IsInLimits};
ghost use Rattle.script_player.specs.internal.Head.{in_limits, head_of, head_view};
ghost use Rattle.script_player.specs.Limits.{most_pages, most_sectors};

use crate::digits::four_bytes;
use crate::fields::{after, hex_bytes, operand};
use crate::limits::{MOST_CLIENTS, MOST_PAGES, MOST_SECTORS};
use memory_wanted::{MemoryWanted, extend_from_slice, push, with_capacity};
use std::alloc::Global;

/// The pages that a guest with a driver needs: its program lies in the first, and its rings in the second.
const DRIVER_PAGES: u32 = 2;

/// The instruction words of a page of 4096 bytes.
const PAGE_WORDS: u64 = 1024;

/// The bytes of a word's field: a space and eight digits.
const FIELD_BYTES: usize = 9;

/// The program that the guest runs.
#[derive(Drop)]
pub enum Guest {
    /// Jumps to itself.
    Idle,
    /// Sends one frame, and then idles. It needs 2 pages.
    Beacon,
    /// Fills one sector of the disk, where the disk has it, and then idles. It needs 2 pages.
    Disk {
        /// The sector's number.
        sector: u64,
        /// The byte that each of its bytes becomes.
        byte: u8,
    },
    /// These instruction words, placed from the start of RAM: at least one, and they fit.
    Words(Vec<u32>),
}

/// What a boot line says.
#[derive(Drop)]
pub struct Boot {
    /// Pages of 4096 bytes of RAM, 1 to 16384.
    pub pages: u32,
    /// Sectors of 512 bytes of the disk, 1 to 32768.
    pub sectors: u32,
    /// Clients, 1 to 16.
    pub clients: u64,
    /// The program.
    pub guest: Guest,
}

/// The front of a boot line, and the text of its guest.
#[derive(Clone, Copy)]
struct Head<'a> {
    pages: u32,
    sectors: u32,
    clients: u64,
    guest: &'a [u8],
}

/// The boot line that a text spells, if it spells one. A line has one reading at most.
///
/// # Errors
///
/// [`MemoryWanted`] where the text is a boot line, and there is no memory for its guest's words.
pub fn read_boot(alloc: Global, text: &[u8]) -> Result<Option<Boot>, MemoryWanted>
    // What is read is spelled so.
    ensures found { IfOk result (λ found. IfSome found (λ boot. IsBoot text.now (boot_line boot))) }
    // It is in the limits.
    ensures limits { IfOk result (λ found. IfSome found (λ boot. IsInLimits (boot_line boot))) }
    // What is spelled so is read so, unless memory runs out.
    ensures only { (line : BootLine) → IsBoot text.now line → IfOk result (λ found. option_map boot_line found ≡ Some line) }
    // Memory is asked for only for the words of a line that is a boot line.
    ensures err { OnErr result ((line : BootLine) × IsBoot text.now line) }
{
    let Some(head) = read_head(text) else {
        return Ok(None);
    };
    let Some(guest) = read_guest(alloc, head.pages, head.guest)? else {
        return Ok(None);
    };
    Ok(Some(Boot {
        pages: head.pages,
        sectors: head.sectors,
        clients: head.clients,
        guest,
    }))
}

/// The numbers of a boot line, each in its range.
fn read_head(text: &[u8]) -> Option<Head<'_>>
    ensures { option_map head_view result ≡ head_of text.now }
{
    let rest = after(text, b"boot ")?;
    let (pages, rest) = operand(rest)?;
    let (sectors, rest) = operand(rest)?;
    let (clients, guest) = operand(rest)?;
    if !are_in_limits(pages, sectors, clients) {
        return None;
    }
    Some(Head {
        pages: pages as u32,
        sectors: sectors as u32,
        clients,
        guest,
    })
}

/// Whether a machine and its clients may be so many.
fn are_in_limits(pages: u64, sectors: u64, clients: u64) -> bool
    ensures value { result ≡ in_limits pages sectors clients }
    ensures small { IsTrue result → (pages ≤ most_pages) × (sectors ≤ most_sectors) }
{
    1 <= pages
        && pages <= u64::from(MOST_PAGES)
        && (1 <= sectors && sectors <= u64::from(MOST_SECTORS))
        && (1 <= clients && clients <= MOST_CLIENTS)
}

/// The guest that a text names, in a machine of so many pages, where it fits.
fn read_guest(alloc: Global, pages: u32, text: &[u8]) -> Result<Option<Guest>, MemoryWanted>
    ensures found { IfOk result (λ found. IfSome found (λ guest. IsGuest pages text.now (named_guest guest))) }
    ensures only { (guest : NamedGuest) → IsGuest pages text.now guest → IfOk result (λ found. option_map named_guest found ≡ Some guest) }
    ensures err { OnErr result ((guest : NamedGuest) × IsGuest pages text.now guest) }
{
    if text == b"idle".as_slice() {
        return Ok(Some(Guest::Idle));
    }
    if text == b"beacon".as_slice() {
        return Ok((pages >= DRIVER_PAGES).then_some(Guest::Beacon));
    }
    if let Some((sector, byte)) = read_disk(text) {
        return Ok((pages >= DRIVER_PAGES).then_some(Guest::Disk { sector, byte }));
    }
    let Some(fields) = after(text, b"words") else {
        return Ok(None);
    };
    let Some(count) = count_words(fields) else {
        return Ok(None);
    };
    if count as u64 > PAGE_WORDS * u64::from(pages) {
        return Ok(None);
    }
    Ok(Some(Guest::Words(read_words(alloc, fields, count)?)))
}

/// The sector and the byte of a text that names the guest `disk`.
fn read_disk(text: &[u8]) -> Option<(u64, u8)>
    ensures found { IfSome result (λ request. IsDisk text.now request.0 request.1) }
    ensures only { (sector byte : ℕ) → IsDisk text.now sector byte → result ≡ Some (sector, byte) }
{
    let (sector, digits) = operand(after(text, b"disk ")?)?;
    let [byte] = hex_bytes::<1>(digits)?;
    Some((sector, byte))
}

/// How many words a text spells, each as a space and eight digits; none where it spells no word, or is something else.
fn count_words(text: &[u8]) -> Option<usize>
    ensures some { IfSome result (λ count. (ws : List ℕ) × IsWords text.now ws × (length ws ≡ count)) }
    ensures none { IfNone result ((ws : List ℕ) → IsWords text.now ws → ⊥) }
{
    let mut count = 0;
    let mut rest = text;
    while !rest.is_empty() {
        let (_, others) = first_word(rest)?;
        count += 1;
        rest = others;
    }
    if count == 0 {
        return None;
    }
    Some(count)
}

/// The words that a text spells, so many.
fn read_words(alloc: Global, text: &[u8], count: usize) -> Result<Vec<u32>, MemoryWanted>
    ensures { (ws : List ℕ) → IsWords text.now ws → IfOk result (λ words. words.items ≡ ws) }
{
    let mut words = with_capacity(alloc, count)?;
    let mut rest = text;
    while let Some((word, others)) = first_word(rest) {
        push(&mut words, word)?;
        rest = others;
    }
    Ok(words)
}

/// The first word of a text, a space and eight digits, and what stands after it.
fn first_word(text: &[u8]) -> Option<(u32, &[u8])>
    ensures found { IfSome result (λ found. text.now ≡ word_field found.0 ++ found.1.now) }
    ensures only { (w : ℕ) (others : List ℕ) → w < 2 ^ 32 → text.now ≡ word_field w ++ others
        → option_map {U = ℕ × List ℕ} (λ found. (found.0, found.1.now)) result ≡ Some (w, others) }
    ensures small { IfSome result (λ found. found.0 < 2 ^ 32) }
    ensures shorter { IfSome result (λ found. length found.1.now < length text.now) }
{
    let (field, others) = text.split_first_chunk::<FIELD_BYTES>()?;
    let word = read_word(field.as_slice())?;
    Some((word, others))
}

/// A word from its field, a space and eight digits.
fn read_word(field: &[u8]) -> Option<u32>
    ensures found { IfSome result (λ w. field.now ≡ word_field w) }
    ensures only { (w : ℕ) → w < 2 ^ 32 → field.now ≡ word_field w → result ≡ Some w }
{
    let bytes = four_bytes(after(field, b" ")?)?;
    Some(u32::from_be_bytes(bytes))
}

/// The image of a guest's words: each with its lowest byte first.
///
/// # Errors
///
/// [`MemoryWanted`] where there is no memory for it.
pub fn image_of(alloc: Global, words: &[u32]) -> Result<Vec<u8>, MemoryWanted>
    ensures { IfOk result (λ image. image.items ≡ words_image words.now) }
{
    let mut image = Vec::new(alloc);
    for word in words {
        extend_from_slice(&mut image, word.to_le_bytes().as_slice())?;
    }
    Ok(image)
}
