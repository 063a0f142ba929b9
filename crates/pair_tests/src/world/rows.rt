//! What is done to a pair, row by row, and what has to come of it. Each reading stands with its comparison in a small function, since a
//! long test is slow to prove: a test is a table of rows.

use crate::asserts::{as_many, boxed, holds, made, same};
use guest_kit::{beacon, disk_once};
use pair_core::{Event, Mode, Reply, Shape, Show, World};
use std::alloc::Global;
use std::process::Abort;

/// The shape of a guest's machine.
const SHAPE: Shape = Shape {
    pages: 2,
    sectors: 8,
};

/// The guest of a pair.
#[derive(Clone, Copy)]
pub(super) enum Guest {
    /// It runs on the spot.
    Idle,
    /// It sends its frame to client 1 with its 22nd step.
    Beacon,
    /// It writes ab into each byte of sector 7 with its 23rd step.
    Writer,
}

/// What is done to a pair, and what comes of it.
pub(super) enum Row {
    /// These events, in one list, are answered so.
    Told(&'static [Event<'static>], &'static [Said]),
    /// Events Step are answered by the counts after this one, up to that one.
    Counted(u64, u64),
    /// Calls of `step` are answered by the counts after this one, up to that one.
    Single(u64, u64),
    /// So many steps are made in one call, after which there were so many in all.
    Steps(u64, u64),
    /// A list of so many events Step and a Cut is answered to its end.
    List(usize),
    /// The pair shows this mode, generation, and so many pending checkpoints, steps and entries.
    Shows(Mode, u64, u64, u64, u64),
    /// The history has so many entries, of which so many are stored.
    Stored(u64, usize),
    /// The disk has this sector, and each of its bytes is this one.
    Filled(u32, u8),
    /// The disk has only the sectors before this one.
    Sectors(u32),
}

/// What an event is answered.
pub(super) enum Said {
    Steps(u64),
    /// Generation and number.
    Cut(u64, u64),
    Sent(u64),
    Committed(u64, u64),
    /// Generation and number, and how many frames landed.
    Acked(u64, u64, u64),
    /// The generation, and how many frames landed.
    Alone(u64, u64),
    /// The client takes the beacon's frame, or nothing.
    TookFrame,
    TookNone,
}

/// The frame that the beacon sends.
static FRAME: [u8; 14] = [2, 0, 0, 0, 1, 1, 2, 0, 0, 0, 0, 1, 0x88, 0xb5];

fn beacon_image(rt: &impl Abort, alloc: Global) -> Vec<u8> {
    made(rt, beacon(alloc))
}

fn writer_image(rt: &impl Abort, alloc: Global) -> Vec<u8> {
    made(rt, disk_once(alloc, 7, 0xab))
}

fn idle_image(rt: &impl Abort, alloc: Global) -> Vec<u8> {
    made(rt, Vec::from_slice(alloc, &[0x6f, 0, 0, 0]))
}

/// The image of a guest.
fn image(rt: &impl Abort, alloc: Global, guest: Guest) -> Vec<u8> {
    match guest {
        Guest::Idle => idle_image(rt, alloc),
        Guest::Beacon => beacon_image(rt, alloc),
        Guest::Writer => writer_image(rt, alloc),
    }
}

/// A pair with two clients whose guest has this image. It stands in a box, so that a test holds no large value.
fn booted(rt: &impl Abort, alloc: Global, image: &[u8]) -> Box<World> {
    holds(rt, "an image that fits", image.len() <= 4096 * 2);
    let world = World::boot(alloc, SHAPE, 2, image);
    boxed(rt, alloc, made(rt, world))
}

/// A pair with two clients and this guest.
fn pair(rt: &impl Abort, alloc: Global, guest: Guest) -> Box<World> {
    let image = image(rt, alloc, guest);
    booted(rt, alloc, image.as_slice())
}

/// Whether it is the reply to a cut or a commit of this generation and number.
fn is_checkpoint(reply: &Reply, is_cut: bool, wanted: (u64, u64)) -> bool {
    match reply {
        Reply::Cut { generation, number } => is_cut && (*generation, *number) == wanted,
        Reply::Committed { generation, number } => !is_cut && (*generation, *number) == wanted,
        _ => false,
    }
}

/// Whether it is the reply to an acknowledgement of this generation and number, which lets so many frames land.
fn is_acked(reply: &Reply, wanted: (u64, u64, u64)) -> bool {
    match reply {
        Reply::Acked {
            generation,
            number,
            landed,
        } => (*generation, *number, *landed) == wanted,
        _ => false,
    }
}

/// Whether it is the reply to a failure of the backup in this generation, which lets so many frames land.
fn is_alone(reply: &Reply, wanted: (u64, u64)) -> bool {
    match reply {
        Reply::Alone { generation, landed } => (*generation, *landed) == wanted,
        _ => false,
    }
}

/// Whether a client took the beacon's frame.
fn took_frame(reply: &Reply) -> bool {
    match reply {
        Reply::Took(Some(taken)) => taken.frame().as_slice() == FRAME.as_slice(),
        _ => false,
    }
}

/// Whether a reply is this one.
fn is_said(reply: &Reply, said: &Said) -> bool {
    match said {
        Said::Steps(count) => matches!(reply, Reply::Steps(made) if made == count),
        Said::Cut(generation, number) => is_checkpoint(reply, true, (*generation, *number)),
        Said::Sent(count) => matches!(reply, Reply::Sent(sent) if sent == count),
        Said::Committed(generation, number) => is_checkpoint(reply, false, (*generation, *number)),
        Said::Acked(generation, number, landed) => {
            is_acked(reply, (*generation, *number, *landed))
        }
        Said::Alone(generation, landed) => is_alone(reply, (*generation, *landed)),
        Said::TookFrame => took_frame(reply),
        Said::TookNone => matches!(reply, Reply::Took(None)),
    }
}

/// These replies are so many, and each is the one that was wanted.
fn assert_said(rt: &impl Abort, replies: &[Reply], wanted: &[Said]) {
    as_many(rt, "replies", replies.len(), wanted.len());
    for (reply, said) in replies.iter().zip(wanted.iter()) {
        holds(rt, "the reply", is_said(reply, said));
    }
}

/// These events are answered so.
fn assert_answers(rt: &impl Abort, world: &mut World, events: &[Event<'_>], wanted: &[Said]) {
    let replies = made(rt, world.run(events));
    assert_said(rt, replies.as_slice(), wanted);
}

/// The event Step is answered by this count.
fn assert_counts(rt: &impl Abort, world: &mut World, steps: u64) {
    let reply = world.apply(Event::Step);
    let is_right = matches!(reply, Reply::Steps(count) if count == steps);
    holds(rt, "the count", is_right);
}

/// So are as many as lead from one count to another.
fn assert_counts_from(rt: &impl Abort, world: &mut World, from: u64, to: u64) {
    for steps in from..to {
        assert_counts(rt, world, steps + 1);
    }
}

/// One step is made, after which there were so many in all.
fn assert_step(rt: &impl Abort, world: &mut World, steps: u64) {
    let is_right = matches!(world.step(), Ok(count) if count == steps);
    holds(rt, "the count", is_right);
}

/// As many are made, one by one, as lead from one count to another.
fn assert_steps_from(rt: &impl Abort, world: &mut World, from: u64, to: u64) {
    for steps in from..to {
        assert_step(rt, world, steps + 1);
    }
}

/// So many steps are made, after which there were so many in all.
fn assert_steps(rt: &impl Abort, world: &mut World, count: u64, steps: u64) {
    let is_right = matches!(world.run_steps(count), Ok(found) if found == steps);
    holds(rt, "the count", is_right);
}

/// So many events Step, and a Cut.
fn steps_and_a_cut(rt: &impl Abort, alloc: Global, count: usize) -> Vec<Event<'static>> {
    let mut events = Vec::new(alloc);
    made(rt, events.resize(count, Event::Step));
    made(rt, events.push(Event::Cut));
    events
}

/// A list of so many events Step and a Cut is answered to its end.
fn assert_list(rt: &impl Abort, alloc: Global, world: &mut World, count: usize) {
    let events = steps_and_a_cut(rt, alloc, count);
    let replies = made(rt, world.run(events.as_slice()));
    as_many(rt, "replies", replies.len(), events.len());
}

/// The world shows this.
fn assert_shows(rt: &impl Abort, world: &World, show: Show) {
    holds(rt, "what it shows", world.show() == show);
}

/// The history has so many entries, of which so many are stored.
fn assert_stored(rt: &impl Abort, world: &World, entries: u64, stored: usize) {
    let history = world.history();
    same(rt, "entries", history.len(), entries);
    as_many(rt, "stored", history.entries().count(), stored);
}

/// Whether each of these bytes is this one.
fn are_all(bytes: &[u8], byte: u8) -> bool {
    for held in bytes {
        if *held != byte {
            return false;
        }
    }
    true
}

/// The disk has this sector, and each of its bytes is this one.
fn assert_filled(rt: &impl Abort, world: &World, sector: u32, byte: u8) {
    match world.sector(sector) {
        Some(bytes) => holds(rt, "the sector", are_all(bytes, byte)),
        None => holds(rt, "there is the sector", false),
    }
}

/// The disk has only the sectors before this one.
fn assert_sectors(rt: &impl Abort, world: &World, count: u32) {
    holds(rt, "no sector", world.sector(count).is_none());
}

/// Plays one row.
fn play(rt: &impl Abort, alloc: Global, world: &mut World, row: &Row) {
    match row {
        Row::Told(events, wanted) => assert_answers(rt, world, events, wanted),
        Row::List(count) => assert_list(rt, alloc, world, *count),
        Row::Counted(from, to) => assert_counts_from(rt, world, *from, *to),
        Row::Single(from, to) => assert_steps_from(rt, world, *from, *to),
        Row::Steps(count, steps) => assert_steps(rt, world, *count, *steps),
        Row::Shows(mode, generation, pending, steps, entries) => {
            let show = Show {
                mode: *mode,
                generation: *generation,
                pending: *pending,
                steps: *steps,
                entries: *entries,
            };
            assert_shows(rt, world, show);
        }
        Row::Stored(entries, stored) => assert_stored(rt, world, *entries, *stored),
        Row::Filled(sector, byte) => assert_filled(rt, world, *sector, *byte),
        Row::Sectors(count) => assert_sectors(rt, world, *count),
    }
}

/// Plays the rows, one after the other, with a pair of two clients.
pub(super) fn plays(rt: &impl Abort, alloc: Global, guest: Guest, rows: &[Row]) {
    let mut world = pair(rt, alloc, guest);
    for row in rows {
        play(rt, alloc, &mut world, row);
    }
}
