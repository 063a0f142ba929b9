//! What no clause of [`frame_ports`] says: worked cases, and each call once with ample memory. Each reading stands with its comparison in
//! a small function, since a long test is slow to prove: a test is a table of rows.

use crate::asserts::{as_many, holds, made, same, same_bytes};
use crate::refusals::{assert_named, refused};
use arrayvec::ArrayVec;
use frame_ports::{Frame, Landing, PortError, Ports, Targets};
use std::alloc::Global;
use std::process::Abort;

/// A frame of 14 bytes from the guest to client 1, 3 and 4, to none, and to all.
const TO_1: [u8; 14] = [2, 0, 0, 0, 1, 1, 2, 0, 0, 0, 0, 1, 0x88, 0xb5];

const TO_3: [u8; 14] = [2, 0, 0, 0, 1, 3, 2, 0, 0, 0, 0, 1, 0x88, 0xb5];

const TO_4: [u8; 14] = [2, 0, 0, 0, 1, 4, 2, 0, 0, 0, 0, 1, 0x88, 0xb5];

const TO_0: [u8; 14] = [2, 0, 0, 0, 1, 0, 2, 0, 0, 0, 0, 1, 0x88, 0xb5];

const TO_ALL: [u8; 14] = [0xff; 14];

/// What is done to ports, and what comes of it.
enum Row {
    /// What this client's delivery is answered: the frame's number, or the refusal's.
    Delivered(u64, &'static [u8], Result<u64, u8>),
    /// So many frames wait for the client.
    Waiting(u64, usize),
    /// Whether the client takes a frame.
    Taken(u64, bool),
    /// What a loss at a place of an inbox is answered: the number of the frame that was lost, or the refusal's.
    LostIn(u64, u64, Result<Option<u64>, u8>),
    /// The client's first frame is admitted, with this number and these bytes.
    Admitted(u64, u64, &'static [u8]),
    /// What becomes of the sent frame at the client, under this number.
    Lands(u64, u64, Landing),
    /// The numbers are counted anew.
    Marked,
}

fn frame(rt: &impl Abort, bytes: &[u8]) -> Frame {
    let mut frame = ArrayVec::new();
    match frame.try_extend_from_slice(bytes) {
        Ok(()) => frame,
        Err(_) => panic!(rt; "too long"),
    }
}

/// What a delivery is answered: the frame's number, or the refusal's.
fn delivered(ports: &mut Ports, client: u64, bytes: &[u8]) -> Result<u64, u8> {
    match ports.deliver(client, bytes) {
        Ok(number) => Ok(number),
        Err(error) => Err(error.number()),
    }
}

/// A delivery is answered so.
fn assert_delivered(
    rt: &impl Abort,
    ports: &mut Ports,
    client: u64,
    bytes: &[u8],
    answer: Result<u64, u8>,
) {
    holds(
        rt,
        "the delivery",
        delivered(ports, client, bytes) == answer,
    );
}

/// So many frames wait for the client.
fn assert_waiting(rt: &impl Abort, ports: &Ports, client: u64, count: usize) {
    holds(rt, "a client", 1 <= client && client <= ports.clients());
    as_many(rt, "waiting", ports.inbox_len(client), count);
}

/// Whether the client takes a frame.
fn assert_taken(rt: &impl Abort, ports: &mut Ports, client: u64, some: bool) {
    let taken = made(rt, ports.take(client));
    holds(rt, "taken", taken.is_some() == some);
}

/// What a loss in an inbox is answered: the number of the frame that was lost, or the refusal's.
fn lost_in(ports: &mut Ports, client: u64, place: u64) -> Result<Option<u64>, u8> {
    match ports.lose_in(client, place) {
        Ok(number) => Ok(number),
        Err(error) => Err(error.number()),
    }
}

/// A loss in an inbox is answered so.
fn assert_lost_in(
    rt: &impl Abort,
    ports: &mut Ports,
    client: u64,
    place: u64,
    answer: Result<Option<u64>, u8>,
) {
    holds(rt, "the loss", lost_in(ports, client, place) == answer);
}

/// The client's first frame, which is admitted, with its number.
fn admitted(rt: &impl Abort, ports: &mut Ports, client: u64) -> (u64, Frame) {
    match made(rt, ports.admit(client)) {
        Some(admitted) => admitted,
        None => panic!(rt; "a frame waits"),
    }
}

/// The frame has these bytes.
fn assert_frame(rt: &impl Abort, frame: &Frame, bytes: &[u8]) {
    same_bytes(rt, "the frame", frame.as_slice(), bytes);
}

/// The client's first frame is admitted, with this number and these bytes.
fn assert_admitted(rt: &impl Abort, ports: &mut Ports, client: u64, number: u64, bytes: &[u8]) {
    let (found, frame) = admitted(rt, ports, client);
    same(rt, "the number", found, number);
    assert_frame(rt, &frame, bytes);
}

/// What becomes of a frame of that number at the client.
fn assert_lands(
    rt: &impl Abort,
    ports: &mut Ports,
    client: u64,
    number: u64,
    frame: &Frame,
    landing: Landing,
) {
    holds(rt, "a client", 1 <= client && client <= ports.clients());
    let bytes = frame.as_slice();
    holds(rt, "a frame", bytes.len() >= 14);
    holds(
        rt,
        "the landing",
        ports.land(client, number, bytes) == landing,
    );
}

/// Plays one row. The sent frame is this one.
fn play(rt: &impl Abort, ports: &mut Ports, sent: &Frame, row: &Row) {
    match row {
        Row::Delivered(client, bytes, answer) => {
            assert_delivered(rt, ports, *client, bytes, *answer);
        }
        Row::Waiting(client, count) => assert_waiting(rt, ports, *client, *count),
        Row::Taken(client, some) => assert_taken(rt, ports, *client, *some),
        Row::LostIn(client, place, answer) => assert_lost_in(rt, ports, *client, *place, *answer),
        Row::Admitted(client, number, bytes) => {
            assert_admitted(rt, ports, *client, *number, bytes);
        }
        Row::Lands(client, number, landing) => {
            assert_lands(rt, ports, *client, *number, sent, *landing);
        }
        Row::Marked => ports.renumber(),
    }
}

/// Plays the rows with the ports of so many clients, one after the other. The sent frame has these bytes.
fn plays(rt: &impl Abort, alloc: Global, clients: u64, sent: &[u8], rows: &[Row]) {
    holds(rt, "such ports", 1 <= clients && clients <= 16);
    let sent = frame(rt, sent);
    as_many(rt, "bytes", sent.len(), 14);
    let mut ports = made(rt, Ports::new(alloc, clients));
    same(rt, "clients", ports.clients(), clients);
    for row in rows {
        play(rt, &mut ports, &sent, row);
    }
}

#[test]
fn a_frame_waits_and_is_lost(rt: HostRuntime) {
    static ROWS: [Row; 7] = [
        Row::Delivered(2, &[9; 14], Ok(1)),
        Row::Delivered(2, &[8; 15], Ok(2)),
        Row::Delivered(2, &[7; 16], Ok(3)),
        Row::LostIn(2, 1, Ok(Some(2))),
        Row::LostIn(2, 2, Ok(None)),
        Row::Admitted(2, 1, &[9; 14]),
        Row::Waiting(2, 1),
    ];
    plays(&rt, rt.alloc(), 3, &TO_1, &ROWS);
}

#[test]
fn a_frame_lands_once_until_the_ports_are_marked(rt: HostRuntime) {
    static ROWS: [Row; 14] = [
        // No frame has the number 0.
        Row::Lands(1, 0, Landing::Old),
        Row::Lands(1, 5, Landing::In),
        Row::Lands(1, 5, Landing::Old),
        Row::Lands(1, 4, Landing::Old),
        Row::Lands(2, 4, Landing::In),
        Row::Lands(2, 5, Landing::In),
        Row::Lands(1, 6, Landing::In),
        // Two have landed for client 1. What it has taken came all the same.
        Row::Taken(1, true),
        Row::Taken(1, true),
        Row::Taken(1, false),
        Row::Lands(1, 6, Landing::Old),
        Row::Marked,
        Row::Lands(1, 1, Landing::In),
        Row::Lands(2, 1, Landing::In),
    ];
    plays(&rt, rt.alloc(), 2, &TO_ALL, &ROWS);
}

/// Whether the client is one of the targets.
fn assert_contains(rt: &impl Abort, targets: Targets, client: u64, some: bool) {
    holds(rt, "a target", targets.contains(client) == some);
}

/// The targets are the clients of these bits, client 1 lowest.
fn assert_targets(rt: &impl Abort, targets: Targets, bits: u16) {
    same(rt, "the bits", u64::from(targets.bits()), u64::from(bits));
    assert_contains(rt, targets, 1, bits & 1 == 1);
    assert_contains(rt, targets, 3, bits & 4 == 4);
    assert_contains(rt, targets, 0, false);
}

/// A frame of these bytes goes to the clients of these bits.
fn assert_route(rt: &impl Abort, ports: &Ports, bytes: &[u8], bits: u16) {
    let frame = frame(rt, bytes);
    assert_targets(rt, ports.route(frame.as_slice()), bits);
}

#[test]
fn frames_go_where_their_address_says(rt: HostRuntime) {
    static ROUTES: [(&[u8], u16); 8] = [
        (&TO_1, 0b001),
        (&TO_3, 0b100),
        (&TO_4, 0),
        (&TO_0, 0),
        (&TO_ALL, 0b111),
        (&[0xff; 5], 0),
        // The guest's own address, and a multicast one.
        (&[2, 0, 0, 0, 0, 1, 2, 0, 0, 0, 1, 1, 0x88, 0xb5], 0),
        (&[1, 0, 0x5e, 0, 0, 1, 2, 0, 0, 0, 1, 1, 0x88, 0xb5], 0),
    ];
    let ports = made(&rt, Ports::new(rt.alloc(), 3));
    for (bytes, bits) in &ROUTES {
        assert_route(&rt, &ports, bytes, *bits);
    }
}

/// The refusal has this number and this name.
fn assert_refusal(rt: &impl Abort, alloc: Global, error: &PortError, number: u8, name: &str) {
    assert_named(
        rt,
        alloc,
        error,
        (error.number(), error.name()),
        (number, name),
    );
}

#[test]
fn refusals_are_those_of_the_table(rt: HostRuntime) {
    static ERRORS: [(PortError, u8, &str); 4] = [
        (PortError::Full, 1, "Full"),
        (PortError::BadFrame, 2, "BadFrame"),
        (PortError::NoClient, 3, "NoClient"),
        (PortError::Exhausted, 14, "Exhausted"),
    ];
    for (error, number, name) in &ERRORS {
        assert_refusal(&rt, rt.alloc(), error, *number, name);
    }
    let error = PortError::NoMemory(refused(&rt, rt.alloc()));
    assert_refusal(&rt, rt.alloc(), &error, 12, "NoMemory");
}
