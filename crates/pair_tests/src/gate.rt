//! What no clause of [`output_gate`] says: worked cases, and each call once with ample memory. Each reading stands with its comparison in
//! a small function, since a long test is slow to prove: a test is a table of rows.
ghost use Rattle.frame_ports.specs.Addresses.{IsFrame};

use crate::asserts::{as_many, holds, made, same};
use crate::refusals::{assert_named, refused};
use arrayvec::ArrayVec;
use frame_ports::{Frame, Ports};
use output_gate::{Gate, GateError, land_numbered};
use std::alloc::Global;
use std::process::Abort;

/// A frame of 14 bytes from the guest to `client`, whose last byte is `mark`.
fn frame_to(client: u8, mark: u8) -> Frame
    ensures { IsFrame result }
{
    let mut frame = ArrayVec::new();
    match frame.try_extend_from_slice(&[2, 0, 0, 0, 1, client, 2, 0, 0, 0, 0, 1, 0x88, mark]) {
        Ok(()) => frame,
        Err(_) => unreachable!(),
    }
}

/// What is asked of a gate and the ports behind it, and what comes of it.
enum Row {
    /// The client takes the frame with this last byte; 0 where its box is empty.
    Taken(u64, u8),
    /// So many frames are held of checkpoints up to this one.
    Held(u64, usize),
    /// The acknowledgement of this number lands and drops so many.
    Acked(u64, u64, u64),
    /// All that is held lands, so many times.
    Opened(u64),
    /// The next frame gets this number.
    Next(u64),
    /// What is held is given up.
    Discarded,
    /// The gate begins anew after so many sent frames, and holds one of the checkpoint of this number, for this client with this last
    /// byte.
    Anew(u64, u64, u8, u8),
}

/// The last byte of the frame that the client takes, 0 where its box is empty.
fn taken(rt: &impl Abort, ports: &mut Ports, client: u64) -> u8 {
    match made(rt, ports.take(client)) {
        Some(frame) => frame.as_slice()[13],
        None => 0,
    }
}

/// The client takes the frame with this last byte; 0 where its box is empty.
fn assert_taken(rt: &impl Abort, ports: &mut Ports, client: u64, mark: u8) {
    let found = taken(rt, ports, client);
    same(rt, "the last byte", u64::from(found), u64::from(mark));
}

/// So many frames are held of checkpoints up to this one.
fn assert_held(rt: &impl Abort, gate: &Gate, number: u64, count: usize) {
    as_many(rt, "held", gate.held(number).len(), count);
}

/// So many frames landed, and so many were dropped.
fn assert_counts(rt: &impl Abort, found: (u64, u64), wanted: (u64, u64)) {
    same(rt, "landed", found.0, wanted.0);
    same(rt, "dropped", found.1, wanted.1);
}

/// What an acknowledgement lands and drops.
fn acked(gate: &mut Gate, ports: &mut Ports, number: u64) -> (u64, u64) {
    let counts = gate.ack(number, ports);
    (counts.landed, counts.dropped)
}

/// What lands and is dropped where all that is held lands.
fn opened(gate: &mut Gate, ports: &mut Ports) -> (u64, u64) {
    let counts = gate.open_all(ports);
    (counts.landed, counts.dropped)
}

/// The next frame gets this number.
fn assert_next(rt: &impl Abort, gate: &Gate, number: u64) {
    same(rt, "the next number", gate.next(), number);
}

/// The gate begins anew after so many sent frames, and holds one of the checkpoint of this number.
fn hold_anew(rt: &impl Abort, gate: &mut Gate, sent: u64, number: u64, frame: Frame)
    requires { IsFrame frame }
{
    holds(rt, "few frames", sent < 1000);
    gate.begin(sent);
    assert_next(rt, gate, sent + 1);
    gate.hold(number, &[frame]);
}

/// Plays one row.
fn play(rt: &impl Abort, gate: &mut Gate, ports: &mut Ports, row: &Row) {
    match row {
        Row::Taken(client, mark) => assert_taken(rt, ports, *client, *mark),
        Row::Held(number, count) => assert_held(rt, gate, *number, *count),
        Row::Acked(number, landed, dropped) => {
            assert_counts(rt, acked(gate, ports, *number), (*landed, *dropped));
        }
        Row::Opened(landed) => assert_counts(rt, opened(gate, ports), (*landed, 0)),
        Row::Next(number) => assert_next(rt, gate, *number),
        Row::Discarded => gate.discard(),
        Row::Anew(sent, number, client, mark) => {
            hold_anew(rt, gate, *sent, *number, frame_to(*client, *mark));
        }
    }
}

/// Plays the rows, one after the other, with the ports of two clients.
fn plays(rt: &impl Abort, alloc: Global, gate: &mut Gate, rows: &[Row]) {
    let mut ports = made(rt, Ports::new(alloc, 2));
    for row in rows {
        play(rt, gate, &mut ports, row);
    }
}

/// A gate that holds four epochs: one with a frame for each of two clients, one with none, and two with a frame for client 1.
fn four_epochs(rt: &impl Abort, alloc: Global) -> Gate {
    let mut gate = made(rt, Gate::new(alloc));
    gate.hold(1, &[frame_to(1, 1), frame_to(2, 2)]);
    gate.hold(2, &[]);
    gate.hold(3, &[frame_to(1, 3)]);
    gate.hold(4, &[frame_to(1, 4)]);
    gate
}

#[test]
fn frames_land_at_their_acknowledgement(rt: HostRuntime) {
    static ROWS: [Row; 13] = [
        Row::Taken(1, 0),
        Row::Held(0, 0),
        Row::Held(2, 2),
        Row::Held(3, 3),
        Row::Acked(3, 3, 0),
        Row::Taken(1, 1),
        Row::Taken(1, 3),
        Row::Taken(1, 0),
        Row::Taken(2, 2),
        Row::Held(9, 1),
        Row::Opened(1),
        Row::Taken(1, 4),
        Row::Held(9, 0),
    ];
    let mut gate = four_epochs(&rt, rt.alloc());
    plays(&rt, rt.alloc(), &mut gate, &ROWS);
}

#[test]
fn what_is_discarded_never_lands(rt: HostRuntime) {
    static ROWS: [Row; 6] = [
        Row::Anew(4, 1, 1, 5),
        Row::Next(6),
        Row::Discarded,
        Row::Next(6),
        Row::Opened(0),
        Row::Taken(1, 0),
    ];
    let mut gate = made(&rt, Gate::new(rt.alloc()));
    plays(&rt, rt.alloc(), &mut gate, &ROWS);
}

/// A frame of 14 bytes from the guest to every client.
fn frame_to_all() -> Frame
    ensures { IsFrame result }
{
    let mut frame = ArrayVec::new();
    match frame.try_extend_from_slice(&[0xff; 14]) {
        Ok(()) => frame,
        Err(_) => unreachable!(),
    }
}

/// A gate that holds the frames 1 to 4 of two epochs, of which the third goes nowhere.
fn two_epochs(rt: &impl Abort, alloc: Global) -> Gate {
    let mut gate = made(rt, Gate::new(alloc));
    gate.hold(1, &[frame_to(1, 1), frame_to(2, 2)]);
    gate.hold(2, &[frame_to(9, 3), frame_to(1, 4)]);
    gate
}

#[test]
fn a_rolled_back_number_is_given_anew(rt: HostRuntime) {
    static ROWS: [Row; 7] = [
        Row::Next(5),
        // The first two land.
        Row::Acked(1, 2, 0),
        // Frames 1 to 3 were committed, so that frame 4 is rolled back, and the next one has its number.
        Row::Anew(3, 3, 1, 5),
        Row::Opened(1),
        Row::Taken(1, 1),
        Row::Taken(1, 5),
        Row::Taken(1, 0),
    ];
    let mut gate = two_epochs(&rt, rt.alloc());
    plays(&rt, rt.alloc(), &mut gate, &ROWS);
}

/// A frame to this client lands under this number for so many clients.
fn assert_lands_one(rt: &impl Abort, ports: &mut Ports, number: u64, client: u8, landed: u64) {
    holds(rt, "a number", number < 1000);
    let counts = land_numbered(ports, number, &[frame_to(client, 0)]);
    assert_counts(rt, (counts.landed, counts.dropped), (landed, 0));
}

/// A frame to every client does.
fn assert_lands_all(rt: &impl Abort, ports: &mut Ports, number: u64, landed: u64) {
    holds(rt, "a number", number < 1000);
    let counts = land_numbered(ports, number, &[frame_to_all()]);
    assert_counts(rt, (counts.landed, counts.dropped), (landed, 0));
}

#[test]
fn a_frame_lands_only_where_it_has_not_come_before(rt: HostRuntime) {
    let mut ports = made(&rt, Ports::new(rt.alloc(), 2));
    // Frame 7 comes for client 2 alone, then for client 1, frame 6 for neither, and frame 8 for both.
    assert_lands_one(&rt, &mut ports, 7, 2, 1);
    assert_lands_all(&rt, &mut ports, 7, 1);
    assert_lands_all(&rt, &mut ports, 6, 0);
    assert_lands_all(&rt, &mut ports, 8, 2);
    assert_lands_one(&rt, &mut ports, 8, 1, 0);
}

/// Two frames of the first checkpoint are held after so many sent ones, for client 1 and for this one. What lands of them, and what is
/// dropped.
fn landed_of_two(
    rt: &impl Abort,
    gate: &mut Gate,
    ports: &mut Ports,
    sent: u64,
    client: u8,
) -> (u64, u64) {
    holds(rt, "few frames", sent < 1000);
    gate.begin(sent);
    gate.hold(1, &[frame_to(1, 1), frame_to(client, 2)]);
    acked(gate, ports, 1)
}

#[test]
fn a_full_box_drops_and_a_frame_for_no_client_doesnt_count(rt: HostRuntime) {
    let mut ports = made(&rt, Ports::new(rt.alloc(), 1));
    let mut gate = made(&rt, Gate::new(rt.alloc()));
    for sent in 0..256 {
        let counts = landed_of_two(&rt, &mut gate, &mut ports, 2 * sent, 9);
        assert_counts(&rt, counts, (1, 0));
    }
    let counts = landed_of_two(&rt, &mut gate, &mut ports, 512, 1);
    assert_counts(&rt, counts, (0, 2));
}

#[test]
fn the_refusal_is_that_of_the_table(rt: HostRuntime) {
    let error = GateError::from(refused(&rt, rt.alloc()));
    let found = (error.number(), error.name());
    assert_named(&rt, rt.alloc(), &error, found, (12, "NoMemory"));
}
