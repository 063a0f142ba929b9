//! What no clause says: that packets are made where there is memory, and that one is read back as its checkpoint.
ghost use Rattle.std.specs.Prelude.{◌≡◌, IfOk};

use crate::asserts::{holds, same};
use crate::prepared::{SHAPE, read_back};
use epoch_cuts::cut_full;
use epoch_snapshot::Checkpoint;
use guest_machine::Machine;
use pair_book::TextPacket;
use std::alloc::Global;
use std::process::Abort;
use std::test::*;

/// Its generation, its number, the version that it was read of, and how many pages it has.
fn parts(checkpoint: &Checkpoint) -> (u64, u64, u32, usize) {
    (
        checkpoint.generation(),
        checkpoint.number(),
        checkpoint.version(),
        checkpoint.pages().len(),
    )
}

/// The full checkpoint of generation 5 of a guest with one word in its memory.
fn full(alloc: Global) -> Result<Box<Checkpoint>, Fail>
    ensures { IfOk result (λ c. c.value.version ≡ 2) }
{
    let machine = Box::new(alloc, Machine::boot(alloc, SHAPE, &[0x13, 0, 0, 0])?)?;
    let checkpoint = cut_full(alloc, &*machine, 5)?;
    Ok(Box::new(alloc, checkpoint)?)
}

/// The parts of what this packet is read back as.
fn read_parts(alloc: Global, packet: &TextPacket) -> Result<(u64, u64, u32, usize), Fail> {
    let read = read_back(alloc, SHAPE, packet.bytes()).ok_or("a whole checkpoint")?;
    Ok(parts(&read))
}

/// This packet is read back as the full checkpoint of generation 5, which has so many pages.
fn assert_reads_back(
    rt: &impl Abort,
    alloc: Global,
    packet: &TextPacket,
    pages: usize,
) -> Result<(), Fail> {
    let found = read_parts(alloc, packet)?;
    holds(rt, "what is read back", found == (5, 0, 2, pages));
    Ok(())
}

#[test]
fn a_packet_reads_back(rt: HostRuntime) -> Result<(), Fail> {
    let checkpoint = full(rt.alloc())?;
    let pages = checkpoint.pages().len();
    let packet = TextPacket::new(rt.alloc(), &*checkpoint)?;
    same(&rt, "the generation", packet.generation(), 5);
    same(&rt, "the number", packet.number(), 0);
    let other = packet.share()?;
    assert_reads_back(&rt, rt.alloc(), &packet, pages)?;
    drop(packet);
    same(&rt, "the other's generation", other.generation(), 5);
    assert_reads_back(&rt, rt.alloc(), &other, pages)
}
