//! The network card: what the beacon sends, what breaks it, and frames that arrive.

use super::play::{Guest, Line, Part, Reading, plays};
use super::{AVAILABLE, BEACON, BEACON_GUEST, BUFFER, DESCRIPTOR, FRAME, PROGRAM, USED};
use guest_machine::PAGE_BYTES;

/// The frame is sent in step 22, and the loop behind it sends nothing more.
static SENDS: [Line; 16] = [
    Line::Run(21),
    Line::Is(Reading::Frames, 0),
    Line::Run(1),
    Line::Is(Reading::Steps, 22),
    Line::Frame(&FRAME),
    // the used ring: flags 0, idx 1, then the descriptor's number 0 and length 0
    Line::Is(Reading::Number(USED), 0),
    Line::Is(Reading::Number(USED + 2), 1),
    Line::Is(Reading::Number(USED + 4), 0),
    Line::Is(Reading::Number(USED + 8), 0),
    Line::Is(Reading::CardStatus, 0x0f),
    Line::Is(Reading::CardInterrupt, 1),
    Line::Run(100),
    Line::Is(Reading::Frames, 1),
    Line::Is(Reading::Pc, 0x80000058),
    Line::Settle,
    Line::Is(Reading::Frames, 0),
];

#[test]
fn beacon_sends_one_frame_in_step_22(rt: HostRuntime) {
    plays(&rt, rt.alloc(), &BEACON_GUEST, &[], &SENDS);
}

/// Changes of the beacon that break its card.
static MALFORMED: [Part; 8] = [
    // 65 available
    Part::Bytes(AVAILABLE + 2, &[65]),
    // ring entry 1 of a queue of 1
    Part::Bytes(AVAILABLE + 4, &[1]),
    // flags NEXT, WRITE and INDIRECT
    Part::Bytes(DESCRIPTOR + 12, &[1]),
    Part::Bytes(DESCRIPTOR + 12, &[2]),
    Part::Bytes(DESCRIPTOR + 12, &[4]),
    // a buffer that ends one byte behind memory
    Part::Bytes(DESCRIPTOR, &[0xe7, 0x1f]),
    // rings at addresses that aren't aligned, and outside memory: words 15 and 13
    Part::Words(4 * 14, &[0x04138393]),
    Part::Words(4 * 12, &[0x800023b7]),
];

/// The card is broken in step 22: Status 0x4f, InterruptStatus 2, no frame, no used entry. What the disk keeps is as at boot.
static BREAKS: [Line; 7] = [
    Line::Run(22),
    Line::Is(Reading::CardStatus, 0x4f),
    Line::Is(Reading::CardInterrupt, 2),
    Line::Is(Reading::Frames, 0),
    Line::Is(Reading::Number(USED + 2), 0),
    Line::BootDisk,
    Line::Written(&[]),
];

#[test]
fn malformed_chains_break_the_card(rt: HostRuntime) {
    for change in &MALFORMED {
        plays(&rt, rt.alloc(), &BEACON_GUEST, &[*change], &BREAKS);
    }
}

/// A buffer that ends with memory holds 14 zero bytes of frame.
static AT_THE_END: [Part; 1] = [Part::Bytes(DESCRIPTOR, &[0xe6, 0x1f])];

static SENDS_ZEROS: [Line; 3] = [
    Line::Run(22),
    Line::Is(Reading::CardStatus, 0x0f),
    Line::Frame(&[0; 14]),
];

/// A buffer of no bytes lies anywhere, and its frame is lost.
static NOWHERE: [Part; 1] = [Part::Bytes(DESCRIPTOR, &[0; 12])];

static SENDS_NOTHING: [Line; 4] = [
    Line::Run(22),
    Line::Is(Reading::CardStatus, 0x0f),
    Line::Is(Reading::CardInterrupt, 1),
    Line::Is(Reading::Frames, 0),
];

#[test]
fn buffers_at_the_edge_are_whole(rt: HostRuntime) {
    plays(&rt, rt.alloc(), &BEACON_GUEST, &AT_THE_END, &SENDS_ZEROS);
    plays(&rt, rt.alloc(), &BEACON_GUEST, &NOWHERE, &SENDS_NOTHING);
}

/// A frame from client 1 to the guest: to 02:00:00:00:00:01, from 02:00:00:00:01:01, of type 88b5.
pub(super) const FROM_CLIENT: [u8; 14] = [2, 0, 0, 0, 0, 1, 2, 0, 0, 0, 1, 1, 0x88, 0xb5];

/// JAL x0, 0.
static STAY: [Part; 1] = [Part::Words(0, &[0x0000006f])];

static LOST: [Line; 6] = [
    Line::Run(3),
    Line::Lost(&FROM_CLIENT),
    Line::BootCard,
    Line::Is(Reading::Steps, 3),
    Line::Is(Reading::Pc, 0x80000000),
    Line::Is(Reading::Frames, 0),
];

#[test]
fn a_frame_is_lost_at_a_guest_with_no_queue(rt: HostRuntime) {
    plays(&rt, rt.alloc(), &PROGRAM, &STAY, &LOST);
}

/// The beacon with a receive queue in the place of its transmit queue, whose one buffer the device may write: it has 26
/// bytes. Behind the setup the guest reads mip into x10.
pub(super) static RECEIVER: Guest = Guest {
    pages: 2,
    sectors: 1,
    bytes: 2 * PAGE_BYTES,
    parts: &[
        Part::Words(0, &BEACON),
        // SW x0, 0x30(x5): QueueSel 0; CSRRS x10, mip, x0; JAL x0, 0
        Part::Words(4 * 10, &[0x0202a823]),
        Part::Words(4 * 22, &[0x34402573, 0x0000006f]),
        // WRITE
        Part::Bytes(
            DESCRIPTOR,
            &[0x00, 0x11, 0x00, 0x80, 0, 0, 0, 0, 26, 0, 0, 0, 2],
        ),
        Part::Bytes(AVAILABLE, &[0, 0, 1, 0]),
        Part::Bytes(BUFFER + 12, &FRAME),
    ],
};

static RECEIVES: [Line; 13] = [
    Line::Run(22),
    Line::Taken(&FROM_CLIENT),
    // ten zero bytes, le16 1, and the frame
    Line::Bytes(BUFFER, &[0, 0, 0, 0, 0, 0, 0, 0, 0, 0, 1, 0]),
    Line::Bytes(BUFFER + 12, &FROM_CLIENT),
    // the used ring: flags 0, idx 1, then the descriptor's number 0 and length 26
    Line::Bytes(USED, &[0, 0, 1, 0, 0, 0, 0, 0, 26, 0, 0, 0]),
    Line::Is(Reading::CardStatus, 0x0f),
    Line::Is(Reading::CardInterrupt, 1),
    Line::Is(Reading::Steps, 22),
    Line::Is(Reading::Frames, 0),
    // the card's interrupt is pending
    Line::Run(1),
    Line::Is(Reading::Register(10), 0x800),
    // no chain is left
    Line::Lost(&FROM_CLIENT),
    Line::Is(Reading::Number(USED + 2), 1),
];

#[test]
fn a_frame_arrives_in_the_receive_queue(rt: HostRuntime) {
    plays(&rt, rt.alloc(), &RECEIVER, &[], &RECEIVES);
}

static TOO_SHORT: [Part; 1] = [Part::Bytes(DESCRIPTOR + 8, &[25])];

static RECEIVES_NOTHING: [Line; 7] = [
    Line::Run(22),
    Line::Lost(&FROM_CLIENT),
    Line::Is(Reading::Number(USED + 2), 0),
    Line::Bytes(BUFFER + 12, &FRAME),
    Line::Is(Reading::CardInterrupt, 0),
    Line::Run(1),
    Line::Is(Reading::Register(10), 0),
];

#[test]
fn a_frame_is_lost_where_the_buffer_is_too_short(rt: HostRuntime) {
    plays(&rt, rt.alloc(), &RECEIVER, &TOO_SHORT, &RECEIVES_NOTHING);
}

/// The guest that sends each frame back to where it came from, from 0x80000000 on (crate `guest_kit`).
const ECHO: [u32; 78] = [
    0x00001497, 0x100012b7, 0x00001537, 0x00a48533, 0x0602a823, 0x00100313, 0x0662a823, 0x00300393,
    0x0672a823, 0x0262a223, 0x0262a023, 0x00b00393, 0x0672a823, 0x0702a403, 0x0e741e63, 0x00000593,
    0x00048613, 0x00400393, 0x02b2a823, 0x0272ac23, 0x08c2a023, 0x04060693, 0x08d2a823, 0x04068693,
    0x0ad2a023, 0x0462a223, 0x00158593, 0x10060613, 0xfc658ce3, 0x00f00393, 0x0672a823, 0x00000413,
    0x0824d383, 0xfe838ee3, 0x0ff0000f, 0x00347593, 0x00359613, 0x00960633, 0x08466683, 0x08866703,
    0x00b69793, 0x00a787b3, 0x0127d383, 0x00779623, 0x0147d383, 0x00779723, 0x0167d383, 0x00779823,
    0x00200393, 0x00779923, 0x00079a23, 0x10000393, 0x00779b23, 0x00079523, 0x00469393, 0x009383b3,
    0x10e3a423, 0x00159613, 0x00960633, 0x14d61223, 0x00140413, 0x03041413, 0x03045413, 0x0ff0000f,
    0x14849123, 0x0ff0000f, 0x0462a823, 0x1824d383, 0xfe839ee3, 0x04d61223, 0x00440393, 0x0ff0000f,
    0x04749123, 0x0402a823, 0x0602a383, 0x0672a223, 0xf51ff06f, 0x0000006f,
];

/// What stands behind its words: in each queue four descriptors of buffers of 2048 bytes, and the available ring.
const ECHO_RINGS: [u32; 24] = [
    0x80002000, 0, 2048, 2, 0x80002800, 0, 2048, 2, 0x80003000, 0, 2048, 2, 0x80003800, 0, 2048, 2,
    // flags 1, idx 4, and the entries 0 to 3
    0x00040001, 0x00010000, 0x00030002, 0, 0, 0, 0, 0,
];

const ECHO_SEND_RINGS: [u32; 24] = [
    0x80002000, 0, 0, 0, 0x80002800, 0, 0, 0, 0x80003000, 0, 0, 0, 0x80003800, 0, 0, 0,
    // flags 1, idx 0
    0x00000001, 0, 0, 0, 0, 0, 0, 0,
];

static ECHO_GUEST: Guest = Guest {
    pages: 4,
    sectors: 1,
    bytes: 2 * PAGE_BYTES,
    parts: &[
        Part::Words(0, &ECHO),
        Part::Words(0x1000, &ECHO_RINGS),
        Part::Words(0x1100, &ECHO_SEND_RINGS),
    ],
};

/// The addresses of the frame that is sent back are turned round.
static SENDS_BACK: [Line; 5] = [
    Line::Run(5000),
    Line::Is(Reading::Frames, 0),
    Line::Taken(&FROM_CLIENT),
    Line::Run(5000),
    Line::Frame(&FRAME),
];

#[test]
fn the_echo_sends_a_frame_back(rt: HostRuntime) {
    plays(&rt, rt.alloc(), &ECHO_GUEST, &[], &SENDS_BACK);
}
