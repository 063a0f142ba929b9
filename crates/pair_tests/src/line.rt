//! What no clause of [`lossy_line`] says: a line at concrete types, through its bound, and a refusal of memory.

use crate::asserts::{holds, made, same};
use crate::refusals::assert_named;
use lossy_line::Line;
use std::alloc::Global;
use std::process::Abort;

/// What is done to a line, and what comes of it.
enum Row {
    /// This packet is sent, and given this number.
    Sent(u8, u64),
    /// The packet of a number, where it is to be had.
    Got(u64, Option<u8>),
    /// The packet of this number is dropped.
    Dropped(u64),
    /// So many packets were sent.
    Count(u64),
}

/// This packet is sent, and given this number.
fn assert_sent(rt: &impl Abort, line: &mut Line<u8>, packet: u8, number: u64) {
    let given = made(rt, line.send(packet));
    same(rt, "the number", given, number);
}

/// The packet of a number, where it is to be had.
fn got(line: &Line<u8>, number: u64) -> Option<u8> {
    match line.get(number) {
        Some(packet) => Some(*packet),
        None => None,
    }
}

/// The packet of a number is this one, where it is to be had.
fn assert_got(rt: &impl Abort, line: &Line<u8>, number: u64, packet: Option<u8>) {
    holds(rt, "the packet", got(line, number) == packet);
}

/// So many packets were sent.
fn assert_count(rt: &impl Abort, line: &Line<u8>, count: u64) {
    same(rt, "packets", line.len(), count);
}

/// Plays one row.
fn play(rt: &impl Abort, line: &mut Line<u8>, row: &Row) {
    match row {
        Row::Sent(packet, number) => assert_sent(rt, line, *packet, *number),
        Row::Got(number, packet) => assert_got(rt, line, *number, *packet),
        Row::Dropped(number) => line.drop(*number),
        Row::Count(count) => assert_count(rt, line, *count),
    }
}

/// Plays the rows on a line, one after the other.
fn plays(rt: &impl Abort, line: &mut Line<u8>, rows: &[Row]) {
    for row in rows {
        play(rt, line, row);
    }
}

/// Plays them a hundred times.
fn plays_often(rt: &impl Abort, line: &mut Line<u8>, rows: &[Row]) {
    for _ in 0..100u8 {
        plays(rt, line, rows);
    }
}

#[test]
fn a_packet_comes_as_it_was_sent_however_often(rt: HostRuntime) {
    static ROWS: [Row; 11] = [
        Row::Sent(70, 0),
        Row::Sent(71, 1),
        Row::Sent(72, 2),
        Row::Count(3),
        Row::Got(2, Some(72)),
        Row::Got(0, Some(70)),
        Row::Got(2, Some(72)),
        Row::Got(3, None),
        Row::Got(u64::MAX, None),
        Row::Sent(73, 3),
        Row::Got(3, Some(73)),
    ];
    plays(&rt, &mut Line::new(rt.alloc()), &ROWS);
}

#[test]
fn a_dropped_packet_never_comes(rt: HostRuntime) {
    static ROWS: [Row; 12] = [
        Row::Sent(70, 0),
        Row::Sent(71, 1),
        Row::Sent(72, 2),
        Row::Dropped(1),
        Row::Got(1, None),
        Row::Got(0, Some(70)),
        Row::Got(2, Some(72)),
        Row::Dropped(1),
        Row::Dropped(7),
        Row::Count(3),
        Row::Sent(73, 3),
        Row::Got(3, Some(73)),
    ];
    plays(&rt, &mut Line::new(rt.alloc()), &ROWS);
}

/// These bytes are sent, and given this number.
fn assert_bytes_sent(
    rt: &impl Abort,
    alloc: Global,
    line: &mut Line<Vec<u8>>,
    bytes: &[u8],
    number: u64,
) {
    let packet = made(rt, Vec::from_slice(alloc, bytes));
    let given = made(rt, line.send(packet));
    same(rt, "the number", given, number);
}

/// The bytes of a number are these, where they are to be had.
fn assert_bytes(rt: &impl Abort, line: &Line<Vec<u8>>, number: u64, wanted: Option<&[u8]>) {
    let is_right = match (line.get(number), wanted) {
        (Some(bytes), Some(wanted)) => bytes.as_slice() == wanted,
        (None, None) => true,
        _ => false,
    };
    holds(rt, "the bytes", is_right);
}

#[test]
fn a_packet_may_own_memory(rt: HostRuntime) {
    let mut line = Line::new(rt.alloc());
    holds(&rt, "empty", line.is_empty());
    assert_bytes_sent(&rt, rt.alloc(), &mut line, &[1, 2], 0);
    assert_bytes_sent(&rt, rt.alloc(), &mut line, &[3], 1);
    holds(&rt, "not empty", !line.is_empty());
    line.drop(0);
    assert_bytes(&rt, &line, 0, None);
    assert_bytes(&rt, &line, 1, Some(&[3]));
}

#[test]
fn room_for_as_many_sends_as_were_reserved(rt: HostRuntime) {
    let mut line = Line::new(rt.alloc());
    made(&rt, line.reserve(100));
    for i in 0..100u8 {
        assert_sent(&rt, &mut line, i, u64::from(i));
    }
    assert_got(&rt, &line, 99, Some(99));
}

#[test]
fn the_refusal_is_that_of_the_table(rt: HostRuntime) {
    let mut line: Line<u64> = Line::new(rt.alloc());
    let Err(error) = line.reserve(usize::MAX) else {
        panic!(&rt; "no machine has that much");
    };
    same(&rt, "packets", line.len(), 0);
    let found = (error.number(), error.name());
    assert_named(&rt, rt.alloc(), &error, found, (12, "NoMemory"));
}

#[test]
fn four_packets_come_a_hundred_times_each_in_either_order(rt: HostRuntime) {
    static SENT: [Row; 4] = [
        Row::Sent(70, 0),
        Row::Sent(71, 1),
        Row::Sent(72, 2),
        Row::Sent(73, 3),
    ];
    static RISING: [Row; 4] = [
        Row::Got(0, Some(70)),
        Row::Got(1, Some(71)),
        Row::Got(2, Some(72)),
        Row::Got(3, Some(73)),
    ];
    static REVERSED: [Row; 4] = [
        Row::Got(3, Some(73)),
        Row::Got(2, Some(72)),
        Row::Got(1, Some(71)),
        Row::Got(0, Some(70)),
    ];
    let mut line = Line::new(rt.alloc());
    plays(&rt, &mut line, &SENT);
    plays_often(&rt, &mut line, &RISING);
    plays_often(&rt, &mut line, &REVERSED);
}
