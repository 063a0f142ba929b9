//! A card over a RAM of 4096 bytes, as a driver sets it up: 2 descriptors at 0x80000000, the available ring at 0x80000040
//! and the used ring at 0x80000080 of the queue that is tried; buffers from 0x80000100 on. A test is a list of lines, which one function
//! plays, since a long test is slow to prove.

use crate::asserts::{holds, holds_at};
use memory_wanted::reserve;
use net_device::{Frame, NetDevice, Outbox, OutboxError};
use std::alloc::Global;
use std::process::Abort;
use virtio_mmio::DeviceKind;
use virtqueue::{GuestRam, PlainRam};

/// A card whose driver set queue `queue` up and is ready.
fn running(queue: u64) -> NetDevice {
    let stores: [(u64, u64); 11] = [
        (0x070, 3),
        (0x024, 1),
        (0x020, 1),
        (0x070, 11),
        (0x030, queue),
        (0x038, 2),
        (0x080, 0x8000_0000),
        (0x090, 0x8000_0040),
        (0x0a0, 0x8000_0080),
        (0x044, 1),
        (0x070, 15),
    ];
    let mut net = NetDevice::boot();
    for (offset, value) in &stores {
        let _ = net.transport.store(*offset, 4, *value);
    }
    net
}

/// RAM with these two descriptors, and so many chains of them available in turn.
fn ram_with(first: &[u8; 16], second: &[u8; 16], available: u8) -> PlainRam {
    let mut ram = PlainRam::new();
    ram.write(0, first);
    ram.write(16, second);
    ram.write(0x40, &[0, 0, available, 0, 0, 0, 1, 0]);
    ram
}

/// 26 readable bytes at 0x80000100; 26 at 0x80000110; and 25 at 0x80000100.
const PACKET: [u8; 16] = [0, 1, 0, 0x80, 0, 0, 0, 0, 26, 0, 0, 0, 0, 0, 0, 0];

const NEXT_PACKET: [u8; 16] = [0x10, 1, 0, 0x80, 0, 0, 0, 0, 26, 0, 0, 0, 0, 0, 0, 0];

const SHORT_PACKET: [u8; 16] = [0, 1, 0, 0x80, 0, 0, 0, 0, 25, 0, 0, 0, 0, 0, 0, 0];

/// 32 writable bytes at 0x80000100.
const ROOM: [u8; 16] = [0, 1, 0, 0x80, 0, 0, 0, 0, 32, 0, 0, 0, 2, 0, 0, 0];

/// A line of a test: what is done with the card, RAM and the outbox, or what they then have.
#[derive(Clone, Copy)]
enum Line {
    /// These bytes stand at a place of RAM.
    Put(usize, &'static [u8]),
    /// The transmit queue is notified.
    Transmit,
    /// A frame of these bytes arrives, and is put into a buffer; or it is lost.
    Received(&'static [u8]),
    Lost(&'static [u8]),
    /// How many frames the outbox has, and one of them by its place.
    Frames(usize),
    Frame(usize, &'static [u8]),
    /// The used ring has this idx and these two entries.
    UsedRing(&'static [u8; 18]),
    /// These bytes stand at 0x80000100.
    Buffer(&'static [u8; 28]),
    /// What the card's Status and InterruptStatus are.
    Status(u64, u64),
}

/// Plays the lines with a card, one of whose queues is running, and RAM with these descriptors, so many of them available.
fn plays(
    rt: &impl Abort,
    alloc: Global,
    (queue, first, second, available): (u64, &[u8; 16], &[u8; 16], u8),
    lines: &[Line],
) {
    let mut outbox = Outbox::new(alloc).expect(rt, "memory for the outbox");
    let mut net = running(queue);
    let mut ram = ram_with(first, second, available);
    play(rt, &mut net, &mut ram, &mut outbox, lines);
}

/// Plays the lines. The message of a line that fails has its place, counted from 0.
fn play(
    rt: &impl Abort,
    net: &mut NetDevice,
    ram: &mut PlainRam,
    outbox: &mut Outbox,
    lines: &[Line],
) {
    for (at, line) in lines.iter().enumerate() {
        play_line(rt, net, ram, outbox, line, at);
    }
}

fn play_line(
    rt: &impl Abort,
    net: &mut NetDevice,
    ram: &mut PlainRam,
    outbox: &mut Outbox,
    line: &Line,
    at: usize,
) {
    holds_at(rt, "line", at, does(net, ram, outbox, line));
}

/// Does what a line says, or compares. Says whether it is as the line says.
fn does(net: &mut NetDevice, ram: &mut PlainRam, outbox: &mut Outbox, line: &Line) -> bool {
    match *line {
        Line::Put(at, bytes) => put(ram, at, bytes),
        Line::Transmit => transmit(net, ram, outbox),
        Line::Received(bytes) => receive(net, ram, bytes) == Some(true),
        Line::Lost(bytes) => receive(net, ram, bytes) == Some(false),
        Line::Frames(count) => outbox.len() == count,
        Line::Frame(at, bytes) => has_frame(outbox, at, bytes),
        Line::UsedRing(bytes) => has_used_ring(ram, bytes),
        Line::Buffer(bytes) => has_buffer(ram, bytes),
        Line::Status(status, interrupt) => has_status(net, status, interrupt),
    }
}

fn put(ram: &mut PlainRam, at: usize, bytes: &[u8]) -> bool {
    let fits = at <= 4096 && bytes.len() <= 4096 - at;
    if fits {
        ram.bytes[at..at + bytes.len()].copy_from_slice(bytes);
    }
    fits
}

/// Notifies the transmit queue, if the outbox has room.
fn transmit(net: &mut NetDevice, ram: &mut PlainRam, outbox: &mut Outbox) -> bool {
    let DeviceKind::Network = net.transport.kind() else {
        return false;
    };
    if outbox.len() > 192 {
        return false;
    }
    net.transmit(ram, outbox);
    true
}

/// Has the card receive a frame of these bytes. Says whether it's put into a buffer.
fn receive(net: &mut NetDevice, ram: &mut PlainRam, bytes: &[u8]) -> Option<bool> {
    let mut frame = Frame::new();
    if frame.try_extend_from_slice(bytes).is_err() {
        return None;
    }
    let DeviceKind::Network = net.transport.kind() else {
        return None;
    };
    Some(net.receive(ram, &frame))
}

fn has_frame(outbox: &Outbox, at: usize, bytes: &[u8]) -> bool {
    match outbox.frames().get(at) {
        Some(frame) => frame.as_slice() == bytes,
        None => false,
    }
}

fn has_used_ring(ram: &PlainRam, bytes: &[u8; 18]) -> bool {
    let found = &ram.bytes[0x82..0x94];
    found == bytes.as_slice()
}

fn has_buffer(ram: &PlainRam, bytes: &[u8; 28]) -> bool {
    let found = &ram.bytes[0x100..0x11c];
    found == bytes.as_slice()
}

fn has_status(net: &NetDevice, status: u64, interrupt: u64) -> bool {
    net.transport.load(0x070, 4) == Some(status) && net.transport.load(0x060, 4) == Some(interrupt)
}

/// Fourteen bytes, no two of them alike.
const COUNTING: [u8; 14] = [1, 2, 3, 4, 5, 6, 7, 8, 9, 10, 11, 12, 13, 14];

static SENT: [Line; 7] = [
    Line::Put(0x10c, &COUNTING),
    Line::Transmit,
    Line::Frames(2),
    Line::Frame(0, &COUNTING),
    Line::Frame(1, &[0; 14]),
    Line::UsedRing(&[2, 0, 0, 0, 0, 0, 0, 0, 0, 0, 1, 0, 0, 0, 0, 0, 0, 0]),
    Line::Status(0x0f, 1),
];

#[test]
fn two_packets_are_sent(rt: HostRuntime) {
    plays(&rt, rt.alloc(), (1, &PACKET, &NEXT_PACKET, 2), &SENT);
}

static USED_AND_LOST: [Line; 4] = [
    Line::Transmit,
    Line::Frames(0),
    Line::UsedRing(&[1, 0, 0, 0, 0, 0, 0, 0, 0, 0, 0, 0, 0, 0, 0, 0, 0, 0]),
    Line::Status(0x4f, 3),
];

#[test]
fn a_short_packet_is_used_and_lost(rt: HostRuntime) {
    plays(
        &rt,
        rt.alloc(),
        (1, &SHORT_PACKET, &ROOM, 2),
        &USED_AND_LOST,
    );
}

static RECEIVED: [Line; 7] = [
    Line::Put(0x100, &[0xff; 32]),
    Line::Received(&COUNTING),
    Line::Status(0x0f, 1),
    Line::Buffer(&[
        0, 0, 0, 0, 0, 0, 0, 0, 0, 0, 1, 0, 1, 2, 3, 4, 5, 6, 7, 8, 9, 10, 11, 12, 13, 14, 0xff,
        0xff,
    ]),
    Line::UsedRing(&[1, 0, 0, 0, 0, 0, 26, 0, 0, 0, 0, 0, 0, 0, 0, 0, 0, 0]),
    Line::Lost(&COUNTING),
    Line::Status(0x0f, 1),
];

#[test]
fn a_frame_is_received(rt: HostRuntime) {
    plays(&rt, rt.alloc(), (0, &ROOM, &PACKET, 1), &RECEIVED);
}

static NOT_RECEIVED: [Line; 2] = [Line::Lost(&[]), Line::Status(0x4f, 2)];

#[test]
fn a_readable_buffer_takes_no_frame(rt: HostRuntime) {
    plays(&rt, rt.alloc(), (0, &PACKET, &ROOM, 1), &NOT_RECEIVED);
}

/// Puts a frame into an outbox that has room for it.
fn push(rt: &impl Abort, outbox: &mut Outbox, bytes: &[u8]) {
    holds(rt, "room", outbox.len() <= 192);
    holds(rt, "a frame", 14 <= bytes.len());
    holds(rt, "no longer", bytes.len() <= 1514);
    outbox.push(bytes);
}

fn assert_frames(rt: &impl Abort, outbox: &Outbox, count: usize) {
    holds(rt, "frames", outbox.len() == count);
}

fn assert_frame(rt: &impl Abort, outbox: &Outbox, at: usize, bytes: &[u8]) {
    holds(rt, "the frame", has_frame(outbox, at, bytes));
}

#[test]
fn an_outbox_keeps_frames_in_order(rt: HostRuntime) {
    let mut outbox = Outbox::new(rt.alloc()).expect(&rt, "memory for the outbox");
    push(&rt, &mut outbox, &[1; 14]);
    push(&rt, &mut outbox, &[2; 1514]);
    assert_frames(&rt, &outbox, 2);
    assert_frame(&rt, &outbox, 0, &[1; 14]);
    assert_frame(&rt, &outbox, 1, &[2; 1514]);
    outbox.clear();
    assert_frames(&rt, &outbox, 0);
}

#[test]
fn a_refusal_has_its_number_and_name(rt: HostRuntime) {
    let wanted = reserve(&mut Vec::<u64>::new(rt.alloc()), usize::MAX).expect_err(
        &rt,
        "no machine has that much",
    );
    let error = OutboxError::from(wanted);
    holds(&rt, "the number", error.number() == 12);
    holds(&rt, "the name", error.name() == "NoMemory");
    assert_text(&rt, rt.alloc(), &error, "NoMemory");
}

fn assert_text(rt: &impl Abort, alloc: Global, error: &OutboxError, wanted: &str) {
    let text = format!(in alloc; "{error}").expect(rt, "memory for the text");
    holds(rt, "the text", text.as_str() == wanted);
}
