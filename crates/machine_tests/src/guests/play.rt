//! Tests as data: what stands in a guest's image, and line by line what is done with its machine and what the machine then has.
//! One function plays all of them, since a test that does and compares each thing itself is slow to prove.

use super::{USED, boot_shape};
use crate::asserts::{holds, holds_in, same_in};
use guest_machine::{DeviceState, Frame, Machine, MachineError, Shape};
use rv64_core::Register;
use std::alloc::{AllocError, Global};
use std::process::Abort;

/// What stands in an image from a place on, which is counted in bytes.
#[derive(Clone, Copy)]
pub(super) enum Part {
    Bytes(usize, &'static [u8]),
    Words(usize, &'static [u32]),
    /// One word, which a case of a test may choose.
    Word(usize, u32),
    /// The bytes of a whole sector, which are all the same.
    Sector(usize, u8),
}

/// A guest at boot: the shape of its machine, how many bytes its image has, and what stands in it. Later parts lie over earlier ones.
#[derive(Clone, Copy)]
pub(super) struct Guest {
    pub(super) pages: u32,
    pub(super) sectors: u32,
    pub(super) bytes: usize,
    pub(super) parts: &'static [Part],
}

/// What can be read of a machine as a number.
#[derive(Clone, Copy)]
pub(super) enum Reading {
    /// How many steps were made.
    Steps,
    /// Where the next instruction stands.
    Pc,
    /// A register by its number.
    Register(u8),
    Mcause,
    Mepc,
    Mstatus,
    Mscratch,
    Msip,
    Mtimecmp,
    /// How many bytes memory has, and its first page.
    RamSize,
    PageSize,
    /// The byte at a place of memory, and the number of two bytes.
    Byte(usize),
    Number(usize),
    /// The word that stood at a place of the first page at the last settle.
    Original(usize),
    /// Whether a page was written since the last settle, as 1 or 0.
    Dirty(u32),
    /// How many frames wait in the outbox.
    Frames,
    /// The card's Status and InterruptStatus, and the disk's.
    CardStatus,
    CardInterrupt,
    DiskStatus,
    DiskInterrupt,
    /// How many sectors the disk has.
    Sectors,
    /// How many pages are decoded.
    DecodedPages,
}

/// A line of a test: what is done with a machine, or what it then has.
#[derive(Clone, Copy)]
pub(super) enum Line {
    /// So many steps, none of which is refused.
    Run(u64),
    /// A run of at most so many steps makes so many.
    RunMakes(u64, u64),
    /// A run of at most so many steps, up to the first that sends a frame, makes so many.
    RunToFrameMakes(u64, u64),
    /// A frame arrives, and the guest has it; or it is lost.
    Taken(&'static [u8]),
    Lost(&'static [u8]),
    /// A step is refused, since frames have to be cut first; or it is made.
    StepRefused,
    StepMade,
    Settle,
    ClearOutbox,
    /// At most so many pages are decoded at a time from now on.
    Decodes(usize),
    /// This reading is this number.
    Is(Reading, u64),
    /// The trap registers hold the cause, the value and the pc of a trap.
    Trap(u64, u64, u64),
    /// The registers from this one on have these values.
    Registers(u8, &'static [u64]),
    /// Memory has these bytes at a place.
    Bytes(usize, &'static [u8]),
    /// The used ring has one entry, of the chain at descriptor 0, into which so many bytes were written.
    Used(u16),
    /// One frame waits in the outbox, of these bytes.
    Frame(&'static [u8]),
    /// A sector is 512 times a byte, and counts as blank where that is 0.
    Sector(u32, u8),
    /// The disk has 8 sectors, and each but the last is 0; the last is 512 times a byte.
    LastSector(u8),
    /// Each sector counts as blank.
    Blank,
    /// The sectors that were written since the last settle.
    Written(&'static [u32]),
    /// All that a device keeps is as at boot.
    BootCard,
    BootDisk,
}

/// Puts bytes into an image. What would lie behind it is left out.
pub(super) fn put(image: &mut [u8], at: usize, bytes: &[u8]) {
    let Some(place) = image.get_mut(at..) else {
        return;
    };
    for (old, new) in place.iter_mut().zip(bytes) {
        *old = *new;
    }
}

pub(super) fn put_words(image: &mut [u8], at: usize, words: &[u32]) {
    let mut place = at;
    for word in words {
        put(image, place, &word.to_le_bytes());
        place = place.saturating_add(4);
    }
}

fn put_part(image: &mut [u8], part: &Part) {
    match *part {
        Part::Bytes(at, bytes) => put(image, at, bytes),
        Part::Words(at, words) => put_words(image, at, words),
        Part::Word(at, word) => put_words(image, at, &[word]),
        Part::Sector(at, byte) => put(image, at, &[byte; 512]),
    }
}

fn put_parts(image: &mut [u8], parts: &[Part]) {
    for part in parts {
        put_part(image, part);
    }
}

/// The guest's image, with some parts changed.
fn image(alloc: Global, guest: &Guest, changes: &[Part]) -> Result<Vec<u8>, AllocError> {
    let mut image = vec![in alloc; 0u8; guest.bytes]?;
    put_parts(&mut image, guest.parts);
    put_parts(&mut image, changes);
    Ok(image)
}

/// The shape of the guest's machine.
fn shape(rt: &impl Abort, guest: &Guest) -> Shape {
    let (pages, sectors) = (guest.pages, guest.sectors);
    holds(rt, "pages", 1 <= pages && pages <= 16_384);
    holds(rt, "sectors", 1 <= sectors && sectors <= 32_768);
    Shape { pages, sectors }
}

/// The guest's machine at boot, with some parts of its image changed.
pub(super) fn booted(
    rt: &impl Abort,
    alloc: Global,
    guest: &Guest,
    changes: &[Part],
) -> Box<Machine> {
    let image = image(alloc, guest, changes).expect(rt, "memory for the image");
    boot_shape(rt, alloc, shape(rt, guest), &image)
}

/// Boots the guest, with some parts of its image changed, and plays the lines.
pub(super) fn plays(
    rt: &impl Abort,
    alloc: Global,
    guest: &Guest,
    changes: &[Part],
    lines: &[Line],
) {
    let mut machine = booted(rt, alloc, guest, changes);
    play(rt, &mut machine, lines);
}

/// Plays the lines. The message of a line that fails has its place, counted from 0.
pub(super) fn play(rt: &impl Abort, machine: &mut Machine, lines: &[Line]) {
    play_named(rt, machine, lines, "test");
}

/// Plays the lines of a case, whose name is in the message too.
pub(super) fn play_named(rt: &impl Abort, machine: &mut Machine, lines: &[Line], name: &str) {
    for (at, line) in lines.iter().enumerate() {
        play_line(rt, machine, line, name, at);
    }
}

fn play_line(rt: &impl Abort, machine: &mut Machine, line: &Line, name: &str, at: usize) {
    if let Line::Is(reading, number) = *line {
        same_in(rt, name, at, read(rt, machine, reading), number);
    } else {
        holds_in(rt, name, at, does(rt, machine, line));
    }
}

/// Does what a line says, or compares. Says whether it is as the line says.
fn does(rt: &impl Abort, machine: &mut Machine, line: &Line) -> bool {
    match *line {
        Line::Run(count) => runs(machine, count, count),
        Line::RunMakes(count, made) => runs(machine, count, made),
        Line::RunToFrameMakes(count, made) => runs_to_frame(machine, count, made),
        Line::Taken(bytes) => arrives(rt, machine, bytes),
        Line::Lost(bytes) => !arrives(rt, machine, bytes),
        Line::StepRefused => is_refused(machine),
        Line::StepMade => is_made(machine),
        Line::Settle => settle(machine),
        Line::ClearOutbox => clear_outbox(machine),
        Line::Decodes(most) => decodes(machine, most),
        _ => has(rt, machine, line),
    }
}

fn runs(machine: &mut Machine, count: u64, made: u64) -> bool {
    machine.run(count) == made
}

fn runs_to_frame(machine: &mut Machine, count: u64, made: u64) -> bool {
    machine.run_to_frame(count) == made
}

/// A frame of these bytes arrives. Says whether the guest has it.
pub(super) fn arrives(rt: &impl Abort, machine: &mut Machine, bytes: &[u8]) -> bool {
    let mut frame = Frame::new();
    holds(rt, "a frame", frame.try_extend_from_slice(bytes).is_ok());
    holds(rt, "no shorter", frame.len() >= 14);
    machine.arrive(&frame)
}

fn is_refused(machine: &mut Machine) -> bool {
    machine.step() == Err(MachineError::CutNeeded)
}

fn is_made(machine: &mut Machine) -> bool {
    machine.step() == Ok(())
}

fn settle(machine: &mut Machine) -> bool {
    machine.settle();
    true
}

fn clear_outbox(machine: &mut Machine) -> bool {
    machine.clear_outbox();
    true
}

fn decodes(machine: &mut Machine, most: usize) -> bool {
    machine.limit_decoded_pages(most);
    true
}

/// Says whether the machine has what a line says.
fn has(rt: &impl Abort, machine: &Machine, line: &Line) -> bool {
    match *line {
        Line::Trap(cause, value, pc) => has_trap(machine, cause, value, pc),
        Line::Registers(first, values) => has_registers(rt, machine, first, values),
        Line::Bytes(at, bytes) => has_bytes(machine, at, bytes),
        Line::Used(len) => has_used(machine, len),
        Line::Frame(bytes) => has_frame(machine, bytes),
        Line::Sector(sector, byte) => has_sector(machine, sector, byte),
        Line::LastSector(byte) => has_last_sector(machine, byte),
        Line::Blank => has_blank_sectors(machine),
        Line::Written(sectors) => has_written(machine, sectors),
        Line::BootCard => machine.net() == DeviceState::boot(),
        Line::BootDisk => machine.disk() == DeviceState::boot(),
        _ => false,
    }
}

fn has_trap(machine: &Machine, cause: u64, value: u64, pc: u64) -> bool {
    let csrs = machine.csrs();
    csrs.mcause == cause && csrs.mtval == value && csrs.mepc == pc
}

/// A register by its number, which is below 32.
fn register(rt: &impl Abort, machine: &Machine, number: u8) -> u64 {
    machine.register(Register::new(number).expect(rt, "below 32"))
}

fn has_registers(rt: &impl Abort, machine: &Machine, first: u8, values: &[u64]) -> bool {
    let mut number = first;
    for value in values {
        if register(rt, machine, number) != *value {
            return false;
        }
        number = number.saturating_add(1);
    }
    true
}

/// A byte of memory, or none behind it.
fn byte(machine: &Machine, at: usize) -> Option<u8> {
    if at < machine.ram_size() {
        Some(machine.byte(at))
    } else {
        None
    }
}

fn has_bytes(machine: &Machine, at: usize, bytes: &[u8]) -> bool {
    let mut place = at;
    for wanted in bytes {
        if byte(machine, place) != Some(*wanted) {
            return false;
        }
        place = place.saturating_add(1);
    }
    true
}

fn has_used(machine: &Machine, len: u16) -> bool {
    let [low, high] = len.to_le_bytes();
    has_bytes(machine, USED, &[0, 0, 1, 0, 0, 0, 0, 0, low, high, 0, 0])
}

fn has_frame(machine: &Machine, bytes: &[u8]) -> bool {
    let outbox = machine.outbox();
    outbox.len() == 1 && outbox[0].as_slice() == bytes
}

pub(super) fn has_sector(machine: &Machine, sector: u32, byte: u8) -> bool {
    sector < machine.sectors()
        && machine.sector(sector).as_slice() == [byte; 512].as_slice()
        && machine.blank(sector) == (byte == 0)
}

fn has_last_sector(machine: &Machine, byte: u8) -> bool {
    for sector in 0..7 {
        if !has_sector(machine, sector, 0) {
            return false;
        }
    }
    machine.sectors() == 8 && has_sector(machine, 7, byte)
}

fn has_blank_sectors(machine: &Machine) -> bool {
    for sector in 0..machine.sectors() {
        if !machine.blank(sector) {
            return false;
        }
    }
    true
}

fn has_written(machine: &Machine, sectors: &[u32]) -> bool {
    machine.dirty_sectors() == sectors
}

/// What is read of a machine.
fn read(rt: &impl Abort, machine: &Machine, reading: Reading) -> u64 {
    match reading {
        Reading::Steps => machine.steps(),
        Reading::Pc => machine.pc(),
        Reading::Register(number) => register(rt, machine, number),
        Reading::Mcause => machine.csrs().mcause,
        Reading::Mepc => machine.csrs().mepc,
        Reading::Mstatus => machine.csrs().mstatus,
        Reading::Mscratch => machine.csrs().mscratch,
        Reading::Msip => machine.msip().into(),
        Reading::Mtimecmp => machine.mtimecmp(),
        Reading::RamSize => machine.ram_size() as u64,
        Reading::PageSize => page_size(rt, machine),
        Reading::Byte(at) => byte(machine, at).expect(rt, "it lies in memory").into(),
        Reading::Number(at) => number(rt, machine, at).into(),
        Reading::Original(at) => original(rt, machine, at).into(),
        Reading::Dirty(page) => dirty(rt, machine, page).into(),
        Reading::Frames => machine.outbox().len() as u64,
        Reading::CardStatus => machine.net().status.into(),
        Reading::CardInterrupt => machine.net().interrupt_status.into(),
        Reading::DiskStatus => machine.disk().status.into(),
        Reading::DiskInterrupt => machine.disk().interrupt_status.into(),
        Reading::Sectors => machine.sectors().into(),
        Reading::DecodedPages => machine.decoded_pages() as u64,
    }
}

/// The number of two bytes at a place of memory.
pub(super) fn number(rt: &impl Abort, machine: &Machine, at: usize) -> u16 {
    let low = byte(machine, at).expect(rt, "it lies in memory");
    let high = byte(machine, at.saturating_add(1)).expect(rt, "it lies in memory");
    u16::from_le_bytes([low, high])
}

fn page_size(rt: &impl Abort, machine: &Machine) -> u64 {
    holds(rt, "a page", machine.ram_size() >= 4096);
    machine.page(0).len() as u64
}

fn original(rt: &impl Abort, machine: &Machine, at: usize) -> u32 {
    holds(rt, "two pages", machine.ram_size() >= 8192);
    holds(rt, "in the first", at < 4092);
    let page = machine.original(0);
    u32::from_le_bytes([page[at], page[at + 1], page[at + 2], page[at + 3]])
}

/// Whether a page, which is one of the first two, counts as written.
fn dirty(rt: &impl Abort, machine: &Machine, page: u32) -> bool {
    holds(rt, "the first or the second", page < 2);
    holds(rt, "two pages", machine.ram_size() >= 8192);
    machine.dirty(page)
}
