//! Each call with ample memory, and where flags are set. A test is a list of lines, which one function plays: a test that writes and
//! reads a memory itself, time after time, is slow to prove.

ghost use Rattle.std.specs.Prelude.{◌≤◌, ◌+◌, length};

use crate::asserts::{holds, holds_at, same_at};
use paged_memory::{BLOCK_BYTES, Memory, PAGE_BYTES};
use std::alloc::Global;
use std::process::Abort;

/// The bytes of the memories here: three pages.
const BYTES: usize = 3 * PAGE_BYTES;

/// What can be read of a memory as a number.
#[derive(Clone, Copy)]
enum Reading {
    /// How many bytes it has.
    Size,
    /// The byte at a place.
    Byte(usize),
    /// The number of one, two, four or eight bytes at a place.
    U8(usize),
    U16(usize),
    U32(usize),
    U64(usize),
    /// The first byte of a page.
    Page(u32),
    /// A byte that a page had at the last settle.
    Original(u32, usize),
    /// How many pages were copied.
    Copies,
}

/// A line of a test: what is written, or what the memory then has.
#[derive(Clone, Copy)]
enum Line {
    Write(usize, &'static [u8]),
    /// A number of one, two, four or eight bytes is written at a place.
    WriteU8(usize, u8),
    WriteU16(usize, u16),
    WriteU32(usize, u32),
    WriteU64(usize, u64),
    /// A block is XORed into memory, whose bytes are all the same.
    XorBlock(usize, u8),
    /// From now on nothing counts as written.
    Settle,
    /// Each byte is 0.
    Clear,
    /// This reading is this number.
    Is(Reading, u64),
    /// Which of the three pages were written.
    Flags([bool; 3]),
    /// Which of the three pages are all zero.
    Zeros([bool; 3]),
    /// Four bytes of memory.
    Read(usize, [u8; 4]),
}

/// A memory of three pages with these bytes at its start, in a box.
fn booted(rt: &impl Abort, alloc: Global, image: &[u8]) -> Box<Memory> {
    holds(rt, "three pages", image.len() <= BYTES);
    let memory = Memory::boot(alloc, 3, image).expect(rt, "memory for three pages");
    Box::new(alloc, memory)
        .ok()
        .expect(rt, "memory for their box")
}

/// Boots a memory with these bytes, and plays the lines.
fn plays(rt: &impl Abort, alloc: Global, image: &[u8], lines: &[Line]) {
    let mut memory = booted(rt, alloc, image);
    play(rt, &mut memory, lines);
}

/// Plays the lines. The message of a line that fails has its place, counted from 0.
fn play(rt: &impl Abort, memory: &mut Memory, lines: &[Line]) {
    for (at, line) in lines.iter().enumerate() {
        play_line(rt, memory, line, at);
    }
}

fn play_line(rt: &impl Abort, memory: &mut Memory, line: &Line, at: usize) {
    if let Line::Is(reading, number) = *line {
        same_at(rt, "line", at, read(rt, memory, reading), number);
    } else {
        holds_at(rt, "line", at, does(rt, memory, line));
    }
}

/// Does what a line says, or compares. Says whether it is as the line says.
fn does(rt: &impl Abort, memory: &mut Memory, line: &Line) -> bool {
    match *line {
        Line::Write(at, bytes) => write(rt, memory, at, bytes),
        Line::WriteU8(at, value) => write_u8(rt, memory, at, value),
        Line::WriteU16(at, value) => write_u16(rt, memory, at, value),
        Line::WriteU32(at, value) => write_u32(rt, memory, at, value),
        Line::WriteU64(at, value) => write_u64(rt, memory, at, value),
        Line::XorBlock(at, byte) => xor_block(rt, memory, at, byte),
        Line::Settle => settle(memory),
        Line::Clear => clear(memory),
        Line::Is(reading, number) => read(rt, memory, reading) == number,
        Line::Flags(flags) => has_flags(memory, flags),
        Line::Zeros(zeros) => has_zeros(memory, zeros),
        Line::Read(at, bytes) => has_bytes(rt, memory, at, bytes),
    }
}

/// So many bytes from a place on lie in memory.
fn assert_inside(rt: &impl Abort, memory: &Memory, at: usize, len: usize)
    ensures { at + len ≤ length memory.now.bytes }
{
    holds(rt, "a place", at <= BYTES);
    holds(rt, "no longer", len <= BYTES);
    holds(rt, "in memory", at + len <= memory.size());
}

fn write(rt: &impl Abort, memory: &mut Memory, at: usize, bytes: &[u8]) -> bool {
    assert_inside(rt, memory, at, bytes.len());
    memory.write(at, bytes);
    true
}

fn write_u8(rt: &impl Abort, memory: &mut Memory, at: usize, value: u8) -> bool {
    assert_inside(rt, memory, at, 1);
    memory.write_u8(at, value);
    true
}

fn write_u16(rt: &impl Abort, memory: &mut Memory, at: usize, value: u16) -> bool {
    assert_inside(rt, memory, at, 2);
    memory.write_u16(at, value);
    true
}

fn write_u32(rt: &impl Abort, memory: &mut Memory, at: usize, value: u32) -> bool {
    assert_inside(rt, memory, at, 4);
    memory.write_u32(at, value);
    true
}

fn write_u64(rt: &impl Abort, memory: &mut Memory, at: usize, value: u64) -> bool {
    assert_inside(rt, memory, at, 8);
    memory.write_u64(at, value);
    true
}

fn xor_block(rt: &impl Abort, memory: &mut Memory, at: usize, byte: u8) -> bool {
    assert_inside(rt, memory, at, BLOCK_BYTES);
    memory.xor_block(at, &[byte; BLOCK_BYTES]);
    true
}

fn settle(memory: &mut Memory) -> bool {
    memory.settle();
    true
}

fn clear(memory: &mut Memory) -> bool {
    memory.clear();
    true
}

fn has_flags(memory: &Memory, flags: [bool; 3]) -> bool {
    memory.pages() == 3
        && [memory.dirty(0), memory.dirty(1), memory.dirty(2)] == flags
        && [
            memory.dirty_at(0),
            memory.dirty_at(0x1fff),
            memory.dirty_at(0x2000),
        ] == flags
}

fn has_zeros(memory: &Memory, zeros: [bool; 3]) -> bool {
    memory.pages() == 3 && [memory.is_zero(0), memory.is_zero(1), memory.is_zero(2)] == zeros
}

fn has_bytes(rt: &impl Abort, memory: &Memory, at: usize, bytes: [u8; 4]) -> bool {
    assert_inside(rt, memory, at, 4);
    let mut found = [0; 4];
    memory.read(at, &mut found);
    found == bytes
}

/// What is read of a memory.
fn read(rt: &impl Abort, memory: &Memory, reading: Reading) -> u64 {
    match reading {
        Reading::Size => memory.size() as u64,
        Reading::Byte(at) => byte(rt, memory, at).into(),
        Reading::U8(at) => read_u8(rt, memory, at).into(),
        Reading::U16(at) => read_u16(rt, memory, at).into(),
        Reading::U32(at) => read_u32(rt, memory, at).into(),
        Reading::U64(at) => read_u64(rt, memory, at),
        Reading::Page(page) => first_byte(rt, memory, page).into(),
        Reading::Original(page, at) => original(rt, memory, page, at).into(),
        Reading::Copies => memory.copies(),
    }
}

fn byte(rt: &impl Abort, memory: &Memory, at: usize) -> u8 {
    assert_inside(rt, memory, at, 1);
    memory.byte(at)
}

fn read_u8(rt: &impl Abort, memory: &Memory, at: usize) -> u8 {
    assert_inside(rt, memory, at, 1);
    memory.read_u8(at)
}

fn read_u16(rt: &impl Abort, memory: &Memory, at: usize) -> u16 {
    assert_inside(rt, memory, at, 2);
    memory.read_u16(at)
}

fn read_u32(rt: &impl Abort, memory: &Memory, at: usize) -> u32 {
    assert_inside(rt, memory, at, 4);
    memory.read_u32(at)
}

fn read_u64(rt: &impl Abort, memory: &Memory, at: usize) -> u64 {
    assert_inside(rt, memory, at, 8);
    memory.read_u64(at)
}

fn first_byte(rt: &impl Abort, memory: &Memory, page: u32) -> u8 {
    holds(rt, "a page", page < memory.pages());
    memory.page(page)[0]
}

fn original(rt: &impl Abort, memory: &Memory, page: u32, at: usize) -> u8 {
    holds(rt, "a page", page < memory.pages());
    holds(rt, "in the page", at < PAGE_BYTES);
    memory.original(page)[at]
}

static MARKS: [Line; 14] = [
    Line::Is(Reading::Size, 3 * 4096),
    Line::Is(Reading::Byte(1), 8),
    Line::Is(Reading::U32(0), 0x0009_0807),
    Line::Flags([false, false, false]),
    Line::Write(5000, &[]),
    Line::Flags([false, false, false]),
    Line::Write(4095, &[0]),
    Line::Flags([true, false, false]),
    Line::WriteU64(8188, 0x0807_0605_0403_0201),
    Line::Flags([true, true, true]),
    Line::Read(8190, [3, 4, 5, 6]),
    Line::Is(Reading::U64(8188), 0x0807_0605_0403_0201),
    Line::Is(Reading::U16(8191), 0x0504),
    Line::Is(Reading::U8(8195), 8),
];

#[test]
fn a_write_marks_the_pages_it_lies_in(rt: HostRuntime) {
    plays(&rt, rt.alloc(), &[7, 8, 9], &MARKS);
}

static ORIGINALS: [Line; 14] = [
    Line::WriteU8(0, 1),
    Line::WriteU32(4096, 2),
    Line::Is(Reading::Page(0), 1),
    Line::Is(Reading::Original(0, 0), 7),
    Line::Is(Reading::Original(2, 0), 0),
    Line::Settle,
    Line::Flags([false, false, false]),
    Line::Is(Reading::Original(0, 0), 1),
    Line::Is(Reading::Original(1, 0), 2),
    Line::WriteU16(4096, 3),
    Line::WriteU16(4096, 4),
    Line::Flags([false, true, false]),
    Line::Is(Reading::Page(1), 4),
    Line::Is(Reading::Original(1, 0), 2),
];

#[test]
fn originals_are_those_of_the_last_settle(rt: HostRuntime) {
    plays(&rt, rt.alloc(), &[7], &ORIGINALS);
}

static ORDERS: [Line; 11] = [
    Line::WriteU8(8192, 3),
    Line::WriteU8(0, 1),
    Line::Is(Reading::Original(2, 0), 0),
    Line::Is(Reading::Original(0, 0), 7),
    Line::Settle,
    // Now the first page comes first.
    Line::WriteU8(0, 4),
    Line::WriteU8(8192, 5),
    Line::WriteU8(4096, 6),
    Line::Is(Reading::Original(0, 0), 1),
    Line::Is(Reading::Original(1, 0), 0),
    Line::Is(Reading::Original(2, 0), 3),
];

#[test]
fn each_page_has_its_own_original_in_whatever_order_they_are_written(rt: HostRuntime) {
    plays(&rt, rt.alloc(), &[7], &ORDERS);
}

static COPIES: [Line; 12] = [
    Line::Is(Reading::Copies, 0),
    Line::WriteU64(4092, 1),
    Line::Is(Reading::Copies, 2),
    Line::Write(0, &[5]),
    Line::WriteU8(4095, 6),
    Line::Is(Reading::Copies, 2),
    Line::Settle,
    Line::Is(Reading::Copies, 2),
    Line::XorBlock(4032, 1),
    Line::Is(Reading::Copies, 3),
    Line::Is(Reading::Byte(4095), 7),
    Line::Is(Reading::Original(0, 4095), 6),
];

#[test]
fn a_page_is_copied_at_its_first_write_after_a_settle(rt: HostRuntime) {
    plays(&rt, rt.alloc(), &[], &COPIES);
}

static ZEROS: [Line; 17] = [
    // The image lies in the first page.
    Line::Zeros([false, true, true]),
    Line::WriteU8(1, 0),
    Line::Zeros([true, true, true]),
    Line::Write(8191, &[0, 6]),
    Line::Flags([true, true, true]),
    Line::Zeros([true, true, false]),
    Line::Settle,
    Line::Zeros([true, true, false]),
    Line::WriteU8(8192, 0),
    Line::WriteU8(12287, 1),
    Line::Zeros([true, true, false]),
    Line::Write(12287, &[0]),
    Line::Zeros([true, true, true]),
    Line::XorBlock(4032, 1),
    Line::Zeros([false, true, true]),
    Line::XorBlock(4032, 1),
    Line::Zeros([true, true, true]),
];

#[test]
fn a_page_is_zero_whatever_it_was_before(rt: HostRuntime) {
    plays(&rt, rt.alloc(), &[0, 9], &ZEROS);
}

static FULL_IMAGE: [u8; 4097] = [1; 4097];

static REACHED: [Line; 3] = [
    Line::Zeros([false, false, true]),
    Line::WriteU8(4096, 0),
    Line::Zeros([false, true, true]),
];

#[test]
fn the_last_page_that_an_image_reaches_is_not_zero(rt: HostRuntime) {
    plays(&rt, rt.alloc(), &FULL_IMAGE, &REACHED);
}

/// A memory into which two blocks were taken, the second in two pages, and then one twice.
fn taken_in(rt: &impl Abort, alloc: Global) -> Box<Memory> {
    let mut memory = Memory::boot(alloc, 3, &[7, 8, 9]).expect(rt, "memory for three pages");
    memory.xor_settled(0, &[1; BLOCK_BYTES]);
    memory.xor_settled(4064, &[5; BLOCK_BYTES]);
    memory.xor_settled(8192, &[3; BLOCK_BYTES]);
    memory.xor_settled(8192, &[3; BLOCK_BYTES]);
    Box::new(alloc, memory)
        .ok()
        .expect(rt, "memory for their box")
}

static TAKEN_IN: [Line; 9] = [
    Line::Zeros([false, false, true]),
    Line::Is(Reading::U32(0), 0x0108_0906),
    Line::Is(Reading::U64(4124), 0x0505_0505),
    Line::Flags([false, false, false]),
    Line::Is(Reading::Copies, 0),
    Line::Is(Reading::Original(0, 0), 6),
    Line::WriteU8(0, 2),
    Line::Is(Reading::Copies, 1),
    Line::Is(Reading::Original(0, 0), 6),
];

#[test]
fn a_block_that_is_taken_in_marks_and_copies_no_page(rt: HostRuntime) {
    let mut memory = taken_in(&rt, rt.alloc());
    play(&rt, &mut memory, &TAKEN_IN);
}

static CLEARED: [Line; 12] = [
    Line::WriteU8(4096, 9),
    Line::Settle,
    Line::XorBlock(8100, 3),
    Line::Is(Reading::Copies, 2),
    Line::Clear,
    Line::Zeros([true, true, true]),
    Line::Flags([false, false, false]),
    Line::Is(Reading::Copies, 0),
    Line::Is(Reading::Original(0, 0), 0),
    Line::WriteU8(8191, 1),
    Line::Zeros([true, false, true]),
    Line::Is(Reading::Copies, 1),
];

#[test]
fn a_memory_that_is_cleared_is_as_at_boot(rt: HostRuntime) {
    plays(&rt, rt.alloc(), &[7, 8, 9], &CLEARED);
}
