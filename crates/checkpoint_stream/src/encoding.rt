//! A checkpoint as its text.

ghost use Rattle.std.specs.Prelude.{◌≡◌, ◌<◌, ◌≤◌, ◌^◌, ◌++◌, length, take, All, IfOk, OnOk};
ghost use Rattle.epoch_snapshot.specs.Checkpoints.{block_count};
ghost use Rattle.checkpoint_stream.specs.Bounds.{most_text};
ghost use Rattle.checkpoint_stream.specs.ReadBack.{ReadsBack};
ghost use Rattle.checkpoint_stream.specs.Widths.{HasWidths};
ghost use Rattle.checkpoint_stream.specs.HeadTable.{bytes_of, head_table};
ghost use Rattle.checkpoint_stream.specs.Text.{magic, head_numbers, number_units, page_units, sector_units, frame_units, joined, text};
ghost use Rattle.checkpoint_stream.specs.declared.rules.Width.TheVariants.{Four, Eight};

use crate::rules::{HEAD_NUMBERS, NEW_MAGIC, OLD_MAGIC, Width, head_row};
use crate::widths::{block_widths, state_widths};
use epoch_snapshot::{BLOCK_BYTES, Block, Checkpoint, PageChange, SectorChange};
use frame_list::FrameList;
use guest_rules::SECTOR_BYTES;
use memory_wanted::{MemoryWanted, extend_from_slice, with_capacity};
use std::alloc::Global;

/// The bytes of a checkpoint without records and frames: the head and the three counts.
const LEAST_BYTES: usize = 536;

/// As many bytes as the head would have if each number took eight.
const MOST_HEAD_BYTES: usize = 8 * HEAD_NUMBERS;

/// The text of a checkpoint of version 2, as the caller knows: its one spelling as bytes, in memory reserved once to its exact size.
///
/// # Errors
///
/// The growth that was really refused.
#[tactic(auto, unfolding(crate::specs::Text::text, crate::specs::Text::units))]
pub fn encode(alloc: Global, checkpoint: &Checkpoint) -> Result<Vec<u8>, MemoryWanted>
    requires { checkpoint.now.version ≡ 2 }
    ensures text { IfOk result (λ bytes. bytes.items ≡ text checkpoint.now) }
    ensures read { IfOk result (λ bytes. ReadsBack checkpoint.now bytes.items) }
    ensures widths { OnOk result (HasWidths checkpoint.now) }
    ensures short { IfOk result (λ bytes. length bytes.items ≤ most_text checkpoint.now.shape) }
{
    let pages = checkpoint.pages();
    let blocks = checkpoint.blocks();
    let sectors = checkpoint.sectors();
    let frames = checkpoint.frames();
    let mut out = with_capacity(
        alloc,
        size_of_text(pages.len(), blocks.len(), sectors.len(), frames),
    )?;
    put_head(&mut out, &numbers(checkpoint))?;
    put(&mut out, Width::Four, pages.len() as u64)?;
    put_pages(&mut out, pages, blocks)?;
    put(&mut out, Width::Four, sectors.len() as u64)?;
    put_sectors(&mut out, sectors)?;
    put(&mut out, Width::Four, frames.len() as u64)?;
    put_frames(&mut out, frames)?;
    state_widths(*checkpoint.state());
    block_widths(blocks);
    Ok(out)
}

/// How many bytes a checkpoint has with so many pages, blocks and sectors, and with these frames.
fn size_of_text(pages: usize, blocks: usize, sectors: usize, frames: &FrameList) -> usize {
    let of_pages = pages
        .saturating_mul(12)
        .saturating_add(blocks.saturating_mul(BLOCK_BYTES));
    let of_sectors = sectors.saturating_mul(4 + SECTOR_BYTES);
    LEAST_BYTES
        .saturating_add(of_pages)
        .saturating_add(of_sectors)
        .saturating_add(size_of_frames(frames))
}

/// How many bytes frames take, each with its length.
fn size_of_frames(frames: &FrameList) -> usize {
    let mut size = 0usize;
    for at in 0..frames.len() {
        size = size
            .saturating_add(4)
            .saturating_add(frames.bytes(at).len());
    }
    size
}

/// A number at the end, little end first.
#[tactic(auto, unfolding(crate::specs::HeadTable::bytes_of))]
fn put(out: &mut Vec<u8>, width: Width, n: u64) -> Result<(), MemoryWanted>
    ensures { OnOk result (out.new.items ≡ out.old.items ++ bytes_of width n) }
{
    let bytes = n.to_le_bytes();
    match width {
        Width::Two => extend_from_slice(out, &[bytes[0], bytes[1]]),
        Width::Four => extend_from_slice(out, &[bytes[0], bytes[1], bytes[2], bytes[3]]),
        Width::Eight => extend_from_slice(out, &bytes),
    }
}

/// The head's numbers at the end.
fn put_head(out: &mut Vec<u8>, head: &[u64; HEAD_NUMBERS]) -> Result<(), MemoryWanted>
    ensures put { OnOk result (out.new.items ≡ out.old.items ++ joined (number_units head_table head.now)) }
    ensures width { OnOk result (All (λ n. n < 2 ^ 64) head.now) }
{
    let mut bytes = [0; MOST_HEAD_BYTES];
    let count = spell_head(&mut bytes, head);
    extend_from_slice(out, &bytes[..count])
}

/// Puts the head's numbers at the front of these bytes. Answers how many they take. Of each all eight bytes are written, and the next
/// number over those that its width leaves out.
fn spell_head(bytes: &mut [u8; MOST_HEAD_BYTES], head: &[u64; HEAD_NUMBERS]) -> usize
    ensures count { result ≤ 640 }
    ensures spelled { take result bytes.new ≡ joined (number_units head_table head.now) }
    ensures width { All (λ n. n < 2 ^ 64) head.now }
{
    let mut at = 0;
    for (i, n) in head.iter().enumerate() {
        bytes[at..at + 8].copy_from_slice(&n.to_le_bytes());
        at += head_row(i).width.bytes();
    }
    at
}

/// The page records at the end, with their blocks.
fn put_pages(out: &mut Vec<u8>, pages: &[PageChange], blocks: &[Block]) -> Result<(), MemoryWanted>
    requires { block_count pages.now ≤ length blocks.now }
    ensures put { OnOk result (out.new.items ≡ out.old.items ++ joined (page_units pages.now blocks.now)) }
    ensures width { OnOk result (All (λ p. p.mask < 2 ^ 64) pages.now) }
{
    let mut rest = blocks;
    for page in pages {
        let (own, later) = rest.split_at(page.mask.count_ones() as usize);
        put_page(out, page, own)?;
        rest = later;
    }
    Ok(())
}

/// A page record at the end.
#[tactic(auto, using(std::proofs::Common::append_assoc))]
fn put_page(out: &mut Vec<u8>, page: &PageChange, blocks: &[Block]) -> Result<(), MemoryWanted>
    ensures put { OnOk result (out.new.items
        ≡ out.old.items ++ (bytes_of Four page.now.page ++ bytes_of Eight page.now.mask ++ joined blocks.now)) }
    ensures width { OnOk result (page.now.mask < 2 ^ 64) }
{
    put(out, Width::Four, u64::from(page.page))?;
    put(out, Width::Eight, page.mask)?;
    put_blocks(out, blocks)
}

/// Blocks at the end.
fn put_blocks(out: &mut Vec<u8>, blocks: &[Block]) -> Result<(), MemoryWanted>
    ensures { OnOk result (out.new.items ≡ out.old.items ++ joined blocks.now) }
{
    extend_from_slice(out, blocks.as_flattened())
}

/// The sector records at the end.
fn put_sectors(out: &mut Vec<u8>, sectors: &[SectorChange]) -> Result<(), MemoryWanted>
    ensures put { OnOk result (out.new.items ≡ out.old.items ++ joined (sector_units sectors.now)) }
    ensures width { OnOk result (All (λ s. length s.bytes ≡ 512) sectors.now) }
{
    for sector in sectors {
        put_sector(out, sector)?;
    }
    Ok(())
}

/// A sector record at the end.
#[tactic(auto, using(std::proofs::Common::append_assoc))]
fn put_sector(out: &mut Vec<u8>, sector: &SectorChange) -> Result<(), MemoryWanted>
    ensures put { OnOk result (out.new.items ≡ out.old.items ++ (bytes_of Four sector.now.sector ++ sector.now.bytes)) }
    ensures width { OnOk result (length sector.now.bytes ≡ 512) }
{
    put(out, Width::Four, u64::from(sector.sector))?;
    extend_from_slice(out, &sector.bytes)?;
    Ok(())
}

/// The frames at the end, each after its length.
fn put_frames(out: &mut Vec<u8>, frames: &FrameList) -> Result<(), MemoryWanted>
    ensures { OnOk result (out.new.items ≡ out.old.items ++ joined (frame_units frames.now.items)) }
{
    for at in 0..frames.len() {
        put_frame(out, frames.bytes(at))?;
    }
    Ok(())
}

/// A frame at the end, after its length.
#[tactic(auto, using(std::proofs::Common::append_assoc))]
fn put_frame(out: &mut Vec<u8>, frame: &[u8]) -> Result<(), MemoryWanted>
    ensures { OnOk result (out.new.items ≡ out.old.items ++ (bytes_of Four (length frame.now) ++ frame.now)) }
{
    put(out, Width::Four, frame.len() as u64)?;
    extend_from_slice(out, frame)?;
    Ok(())
}

/// The first number.
fn magic(version: u32) -> u64
    ensures { result ≡ magic version }
{
    if version == 1 { OLD_MAGIC } else { NEW_MAGIC }
}

/// The head's numbers.
#[tactic(auto, unfolding(crate::specs::Text::head_numbers))]
fn numbers(c: &Checkpoint) -> [u64; HEAD_NUMBERS]
    ensures { result ≡ head_numbers c.now }
{
    let shape = c.shape();
    let s = c.state();
    let x = &s.registers;
    let (net, disk) = (&s.net, &s.disk);
    let (first, second, third) = (&net.queues[0], &net.queues[1], &disk.queues[0]);
    #[rattlefmt::skip]
    let numbers = [
        magic(c.version()), u64::from(shape.pages), u64::from(shape.sectors), c.generation(), c.number(), s.steps,
        x[0], x[1], x[2], x[3], x[4], x[5], x[6], x[7], x[8], x[9], x[10], x[11], x[12], x[13], x[14], x[15],
        x[16], x[17], x[18], x[19], x[20], x[21], x[22], x[23], x[24], x[25], x[26], x[27], x[28], x[29], x[30],
        s.pc, s.csrs.mstatus, s.csrs.mie, s.csrs.mtvec, s.csrs.mscratch, s.csrs.mepc, s.csrs.mcause, s.csrs.mtval,
        u64::from(s.msip), s.mtimecmp,
        u64::from(net.status), u64::from(net.device_features_sel), u64::from(net.driver_features_sel),
        net.driver_features, u64::from(net.queue_sel), u64::from(net.interrupt_status),
        u64::from(first.num), u64::from(first.ready), first.desc, first.driver, first.device,
        u64::from(first.next_available), u64::from(first.next_used),
        u64::from(second.num), u64::from(second.ready), second.desc, second.driver, second.device,
        u64::from(second.next_available), u64::from(second.next_used),
        u64::from(disk.status), u64::from(disk.device_features_sel), u64::from(disk.driver_features_sel),
        disk.driver_features, u64::from(disk.queue_sel), u64::from(disk.interrupt_status),
        u64::from(third.num), u64::from(third.ready), third.desc, third.driver, third.device,
        u64::from(third.next_available), u64::from(third.next_used),
    ];
    numbers
}
