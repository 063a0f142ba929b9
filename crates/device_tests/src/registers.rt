//! A driver's first steps with a device (virtio 1.1, 3.1.1 and 4.2.3), and the worked values of the table. A test is a list of lines,
//! which one function plays, since a long test is slow to prove.

ghost use Rattle.std.specs.Prelude.{◌≡◌, ℕ, ◌+◌, ◌-◌, ◌^◌, ◌≤◌, length, take, drop, Ok, Err, if◌then◌else◌};
ghost use Rattle.virtqueue.specs.Parts.{all_readable};
ghost use Rattle.virtqueue.specs.declared.broken.Broken.TheVariants.{Direction};

use crate::asserts::holds_at;
use std::process::Abort;
use virtio_mmio::{Action, ChainHandler, DeviceKind, Transport};
use virtqueue::{Broken, Chain, GuestRam, PlainRam};

/// A line of a test: what is done with a device and the RAM, or what they then have.
#[derive(Clone, Copy)]
enum Line {
    /// Stores of words, whatever they make the device do.
    Stores(&'static [(u64, u64)]),
    /// What a store of 4 bytes makes the device do; or of any width, where it may be refused.
    Store(u64, u64, Action),
    StoreOf(u64, u8, u64, Option<Action>),
    /// A load of a register of 4 bytes, and of any width.
    Register(u64, u64),
    Load(u64, u8, Option<u64>),
    DriverFeatures(u64),
    /// Whether a queue can be served; and that it is then the one in service.
    CanServe(u32, bool),
    InService(u32),
    /// A queue's size and the address of its table; how many chains were taken from it; and how many were used.
    Queue(u32, u32, u64),
    Available(u32, u16),
    Used(u32, u16),
    /// The driver is told of a used chain, one of queue 1.
    SignalUsed,
    /// The device met a malformation.
    NeedReset,
    /// All that a network card keeps is as at boot.
    Boot,
    /// The device serves queue 0; so many chains were handled.
    Serves(u32),
    /// A chain whose first descriptor is 1 is put into the used ring, with 3 bytes written.
    PutUsed,
    /// The used ring has this idx and these two entries.
    UsedRing([u8; 18]),
}

/// Plays the lines with a device at boot and RAM of which so many chains are available.
fn plays(rt: &impl Abort, kind: DeviceKind, available: u8, lines: &[Line]) {
    let mut device = Transport::boot(kind);
    let mut ram = ram_with(available);
    play(rt, &mut device, &mut ram, lines);
}

/// Plays the lines. The message of a line that fails has its place, counted from 0.
fn play(rt: &impl Abort, device: &mut Transport, ram: &mut PlainRam, lines: &[Line]) {
    for (at, line) in lines.iter().enumerate() {
        play_line(rt, device, ram, line, at);
    }
}

fn play_line(rt: &impl Abort, device: &mut Transport, ram: &mut PlainRam, line: &Line, at: usize) {
    holds_at(rt, "line", at, does(device, ram, line));
}

/// Does what a line says, or compares. Says whether it is as the line says.
fn does(device: &mut Transport, ram: &mut PlainRam, line: &Line) -> bool {
    match *line {
        Line::Stores(stores) => store_all(device, stores),
        Line::Store(offset, value, action) => device.store(offset, 4, value) == Some(action),
        Line::StoreOf(offset, width, value, action) => {
            device.store(offset, width, value) == action
        }
        Line::SignalUsed => signal_used(device),
        Line::NeedReset => need_reset(device),
        Line::Serves(chains) => serves(device, ram, chains),
        Line::PutUsed => put_one(device, ram),
        _ => has(device, ram, line),
    }
}

fn store_all(device: &mut Transport, stores: &[(u64, u64)]) -> bool {
    for (offset, value) in stores {
        let _ = device.store(*offset, 4, *value);
    }
    true
}

fn signal_used(device: &mut Transport) -> bool {
    device.put_counters(1, 1, 1);
    device.signal_used();
    true
}

fn need_reset(device: &mut Transport) -> bool {
    device.need_reset();
    true
}

fn serves(device: &mut Transport, ram: &mut PlainRam, chains: u32) -> bool {
    let mut counter = Counter { chains: 0 };
    device.serve(0, ram, &mut counter);
    counter.chains == chains
}

fn put_one(device: &mut Transport, ram: &mut PlainRam) -> bool {
    let Some(queue) = device.queue_in_service(0) else {
        return true;
    };
    if queue.available(ram).is_ok() {
        device.put_used(0, ram, 1, 3);
    }
    true
}

/// Says whether device and RAM have what a line says.
fn has(device: &Transport, ram: &PlainRam, line: &Line) -> bool {
    match *line {
        Line::Register(offset, value) => device.load(offset, 4) == Some(value),
        Line::Load(offset, width, value) => device.load(offset, width) == value,
        Line::DriverFeatures(features) => device.state().driver_features == features,
        Line::CanServe(queue, can) => device.can_serve(queue) == can,
        Line::InService(queue) => is_in_service(device, queue),
        Line::Queue(queue, num, desc) => has_queue(device, queue, num, desc),
        Line::Available(queue, count) => device.queue(queue).next_available == count,
        Line::Used(queue, count) => device.queue(queue).next_used == count,
        Line::Boot => *device == Transport::boot(DeviceKind::Network),
        Line::UsedRing(bytes) => has_used_ring(ram, bytes),
        _ => false,
    }
}

/// A device that counts readable chains, and says that it wrote 5 bytes.
#[derive(Drop)]
struct Counter {
    chains: u32,
}

impl ChainHandler for Counter {
    ghost room = { λ counter. 2 ^ 32 - 1 - counter.chains };

    ghost act = { λ bytes counter chain. if all_readable chain.parts
        then Ok (record { ram = bytes; kept = record { chains = counter.chains + 1 }; len = 5 })
        else Err Direction };

    fn act<R: GuestRam>(&mut self, _ram: &mut R, chain: &Chain) -> Result<u32, Broken> {
        if !chain.is_all_readable() {
            return Err(Broken::Direction);
        }
        self.chains += 1;
        Ok(5)
    }
}

/// A queue of 2 in RAM, of which so many chains are available: descriptor 0 has one readable byte and descriptor 1 one
/// writable byte, and the ring's entries are 0 and 1 in turn. Its areas are at 0, 0x40 and 0x80.
fn ram_with(available: u8) -> PlainRam {
    let mut ram = PlainRam::new();
    ram.write(0, &[0, 1, 0, 0x80, 0, 0, 0, 0, 1, 0, 0, 0, 0, 0, 0, 0]);
    ram.write(16, &[0, 1, 0, 0x80, 0, 0, 0, 0, 1, 0, 0, 0, 2, 0, 0, 0]);
    ram.write(0x40, &[0, 0, available, 0, 0, 0, 1, 0]);
    ram
}

fn is_in_service(device: &Transport, number: u32) -> bool {
    device.queue_in_service(number) == Some(device.queue(number))
}

fn has_queue(device: &Transport, number: u32, num: u32, desc: u64) -> bool {
    let queue = device.queue(number);
    queue.num == num && queue.desc == desc
}

fn has_used_ring(ram: &PlainRam, bytes: [u8; 18]) -> bool {
    let found = &ram.bytes[0x82..0x94];
    found == bytes.as_slice()
}

static NAMES: [Line; 5] = [
    Line::Register(0x000, 0x7472_6976),
    Line::Register(0x004, 2),
    Line::Register(0x008, 1),
    Line::Register(0x010, 0x20),
    Line::Register(0x034, 64),
];

#[test]
fn the_device_names_itself(rt: HostRuntime) {
    plays(&rt, DeviceKind::Network, 0, &NAMES);
}

static WITHOUT_VERSION_1: [Line; 2] = [
    Line::Stores(&[(0x070, 3), (0x020, 0x20), (0x070, 11)]),
    Line::Register(0x070, 3),
];

static WITH_VERSION_1: [Line; 3] = [
    Line::Stores(&[
        (0x070, 3),
        (0x020, 0x20),
        (0x024, 1),
        (0x020, 1),
        (0x070, 11),
    ]),
    Line::Register(0x070, 11),
    Line::DriverFeatures(0x1_0000_0020),
];

#[test]
fn features_without_version_1_are_refused(rt: HostRuntime) {
    plays(&rt, DeviceKind::Network, 0, &WITHOUT_VERSION_1);
    plays(&rt, DeviceKind::Network, 0, &WITH_VERSION_1);
}

/// A driver's whole start: features, the transmit queue of 8 at 0x80001000, DRIVER_OK.
const START: [(u64, u64); 9] = [
    (0x070, 3),
    (0x024, 1),
    (0x020, 1),
    (0x070, 11),
    (0x030, 1),
    (0x038, 8),
    (0x080, 0x8000_1000),
    (0x044, 1),
    (0x070, 15),
];

static STARTED: [Line; 7] = [
    Line::Stores(&START),
    Line::CanServe(1, true),
    Line::CanServe(0, false),
    Line::InService(1),
    Line::Queue(1, 8, 0x8000_1000),
    Line::Store(0x050, 1, Action::Notify(1)),
    Line::Store(0x050, 2, Action::None),
];

#[test]
fn a_started_queue_is_served(rt: HostRuntime) {
    plays(&rt, DeviceKind::Network, 0, &STARTED);
}

static SIGNALLED: [Line; 3] = [
    Line::Stores(&START),
    Line::SignalUsed,
    Line::Register(0x060, 1),
];

#[test]
fn a_used_chain_is_signalled(rt: HostRuntime) {
    plays(&rt, DeviceKind::Network, 0, &SIGNALLED);
}

/// A device whose driver was told of a used chain, and which then met a malformation.
static BROKEN: [Line; 10] = [
    Line::Stores(&START),
    Line::SignalUsed,
    Line::NeedReset,
    Line::Register(0x060, 3),
    Line::Register(0x070, 0x4f),
    Line::CanServe(1, false),
    Line::Store(0x064, 1, Action::None),
    Line::Register(0x060, 2),
    Line::Store(0x070, 0, Action::Reset),
    Line::Boot,
];

#[test]
fn a_broken_device_waits_for_its_reset(rt: HostRuntime) {
    plays(&rt, DeviceKind::Network, 0, &BROKEN);
}

static WITHOUT_SIZE: [Line; 2] = [
    Line::Stores(&[(0x038, 3), (0x044, 1)]),
    Line::Register(0x044, 0),
];

#[test]
fn a_queue_without_a_size_is_never_ready(rt: HostRuntime) {
    plays(&rt, DeviceKind::Network, 0, &WITHOUT_SIZE);
}

static NETWORK_SPACE: [Line; 6] = [
    Line::Load(0x100, 1, Some(2)),
    Line::Load(0x105, 1, Some(1)),
    Line::Load(0x106, 1, Some(0)),
    Line::Load(0x104, 2, Some(0x0100)),
    Line::Load(0x100, 4, Some(2)),
    Line::Load(0xff8, 8, Some(0)),
];

static BLOCK_SPACE: [Line; 3] = [
    Line::Load(0x100, 8, Some(0x1_0000_0008)),
    Line::Load(0x104, 4, Some(1)),
    Line::Load(0x108, 8, Some(0)),
];

#[test]
fn the_configuration_space_is_bytes(rt: HostRuntime) {
    plays(&rt, DeviceKind::Network, 0, &NETWORK_SPACE);
    let block = DeviceKind::Block {
        capacity: 0x1_0000_0008,
    };
    plays(&rt, block, 0, &BLOCK_SPACE);
}

static OTHER_WIDTHS: [Line; 8] = [
    Line::Load(0x0fc, 8, None),
    Line::Load(0x000, 1, None),
    Line::Load(0x100, 3, None),
    Line::StoreOf(0x070, 2, 1, None),
    Line::StoreOf(0x100, 8, 1, Some(Action::None)),
    Line::Register(0x034, 64),
    Line::Store(0x030, 1, Action::None),
    Line::Register(0x034, 0),
];

#[test]
fn other_widths_are_access_faults(rt: HostRuntime) {
    plays(&rt, DeviceKind::Block { capacity: 8 }, 0, &OTHER_WIDTHS);
}

/// A driver's whole start with the queue in RAM.
const START_IN_RAM: [(u64, u64); 10] = [
    (0x070, 3),
    (0x024, 1),
    (0x020, 1),
    (0x070, 11),
    (0x038, 2),
    (0x080, 0x8000_0000),
    (0x090, 0x8000_0040),
    (0x0a0, 0x8000_0080),
    (0x044, 1),
    (0x070, 15),
];

static SERVED: [Line; 5] = [
    Line::Stores(&START_IN_RAM),
    Line::Serves(1),
    Line::UsedRing([1, 0, 0, 0, 0, 0, 5, 0, 0, 0, 0, 0, 0, 0, 0, 0, 0, 0]),
    Line::Register(0x060, 1),
    Line::Available(0, 1),
];

#[test]
fn a_chain_is_served(rt: HostRuntime) {
    plays(&rt, DeviceKind::Block { capacity: 8 }, 1, &SERVED);
}

static MALFORMED: [Line; 7] = [
    Line::Stores(&START_IN_RAM),
    Line::Serves(1),
    Line::UsedRing([1, 0, 0, 0, 0, 0, 5, 0, 0, 0, 0, 0, 0, 0, 0, 0, 0, 0]),
    Line::Register(0x060, 3),
    Line::Register(0x070, 0x4f),
    // a broken device's queue isn't in service
    Line::PutUsed,
    Line::Used(0, 1),
];

#[test]
fn a_malformed_chain_ends_the_serving(rt: HostRuntime) {
    plays(&rt, DeviceKind::Block { capacity: 8 }, 2, &MALFORMED);
}

static TOLD: [Line; 4] = [
    Line::Stores(&START_IN_RAM),
    Line::PutUsed,
    Line::UsedRing([1, 0, 1, 0, 0, 0, 3, 0, 0, 0, 0, 0, 0, 0, 0, 0, 0, 0]),
    Line::Register(0x060, 1),
];

#[test]
fn a_used_chain_is_told(rt: HostRuntime) {
    plays(&rt, DeviceKind::Block { capacity: 8 }, 2, &TOLD);
}
