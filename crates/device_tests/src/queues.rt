//! A queue of one to four descriptors in a RAM of 4096 bytes: the table at its start, the available ring at
//! 0x40, the used ring at 0x80 and buffers from 0x100 on. Each reading stands with its comparison in a small function, since a long test is
//! slow to prove.

ghost use Rattle.std.specs.Prelude.{◌≡◌, ◌≤◌, length, take, drop};
ghost use Rattle.virtqueue.specs.Areas.{IsSized};

use crate::asserts::holds;
use std::alloc::Global;
use std::process::Abort;
use std::test::Fail;
use virtqueue::{Broken, Chain, GuestRam, PlainRam, Queue};

/// A queue of four descriptors.
fn four() -> Queue
    ensures { IsSized result }
{
    Queue {
        num: 4,
        ready: true,
        desc: 0x8000_0000,
        driver: 0x8000_0040,
        device: 0x8000_0080,
        next_available: 0,
        next_used: 0,
    }
}

/// RAM with these two descriptors, and one chain available whose head is the first.
fn ram_with(first: &[u8; 16], second: &[u8; 16]) -> PlainRam {
    let mut ram = PlainRam::new();
    ram.write(0, first);
    ram.write(16, second);
    ram.write(0x40, &[0, 0, 1, 0, 0, 0]);
    ram
}

/// 26 readable bytes at 0x80000100, the last of the chain.
const READABLE: [u8; 16] = [0, 1, 0, 0x80, 0, 0, 0, 0, 26, 0, 0, 0, 0, 0, 0, 0];

/// The same, with descriptor 1 next.
const READABLE_THEN: [u8; 16] = [0, 1, 0, 0x80, 0, 0, 0, 0, 26, 0, 0, 0, 1, 0, 1, 0];

/// 3 writable bytes at 0x80000200, with descriptor 1 next.
const WRITABLE_THEN: [u8; 16] = [0, 2, 0, 0x80, 0, 0, 0, 0, 3, 0, 0, 0, 3, 0, 1, 0];

/// 2 writable bytes at 0x80000202, the last of the chain: the first is the third of the buffer above.
const WRITABLE: [u8; 16] = [2, 2, 0, 0x80, 0, 0, 0, 0, 2, 0, 0, 0, 2, 0, 0, 0];

const EMPTY: [u8; 16] = [0; 16];

/// A chain has so many parts, and so many readable and writable bytes.
fn assert_lengths(rt: &impl Abort, chain: &Chain, parts: usize, readable: u64, writable: u64) {
    holds(rt, "parts", chain.parts().len() == parts);
    holds(rt, "readable bytes", chain.readable_len() == readable);
    holds(rt, "writable bytes", chain.writable_len() == writable);
}

/// Whether all of a chain is readable, and whether all of it is writable.
fn assert_directions(rt: &impl Abort, chain: &Chain, readable: bool, writable: bool) {
    holds(rt, "all readable", chain.is_all_readable() == readable);
    holds(rt, "all writable", chain.is_all_writable() == writable);
}

/// RAM has these bytes from a place on.
fn assert_bytes(rt: &impl Abort, ram: &PlainRam, at: usize, bytes: &[u8]) {
    holds(rt, "a place", at <= 4096);
    holds(rt, "in RAM", bytes.len() <= 4096 - at);
    holds(rt, "the bytes", &ram.bytes[at..at + bytes.len()] == bytes);
}

#[test]
fn one_readable_buffer(rt: HostRuntime) -> Result<(), Fail> {
    let mut ram = ram_with(&READABLE, &EMPTY);
    ram.write(0x100, &[7, 8, 9]);
    let chain = four().next_chain(&ram)?.ok_or("no chain")?;
    holds(&rt, "the head", chain.head() == 0);
    assert_directions(&rt, &chain, true, false);
    assert_lengths(&rt, &chain, 1, 26, 0);
    assert_gathered(&rt, &ram, [8, 9])
}

/// The second and the third byte of the next chain.
fn assert_gathered(rt: &impl Abort, ram: &PlainRam, bytes: [u8; 2]) -> Result<(), Fail> {
    let chain = four().next_chain(ram)?.ok_or("no chain")?;
    holds(rt, "three bytes", chain.readable_len() >= 3);
    let mut two = [0; 2];
    Queue::gather(&chain, ram, 1, &mut two);
    holds(rt, "two bytes", two == bytes);
    Ok(())
}

#[test]
fn later_writes_stand(rt: HostRuntime) -> Result<(), Fail> {
    let mut ram = ram_with(&WRITABLE_THEN, &WRITABLE);
    let chain = four().next_chain(&ram)?.ok_or("no chain")?;
    holds(&rt, "all writable", chain.is_all_writable());
    holds(&rt, "writable bytes", chain.writable_len() == 5);
    Queue::scatter(&chain, &mut ram, 1, &[1, 2, 3, 4]);
    assert_bytes(&rt, &ram, 0x200, &[0, 1, 3, 4]);
    Ok(())
}

#[test]
fn a_used_chain_stands_in_the_ring(rt: HostRuntime) -> Result<(), Fail> {
    let mut ram = ram_with(&READABLE, &EMPTY);
    let mut queue = four();
    queue.next_used = 0xffff;
    queue.next_available = 0xffff;
    holds(&rt, "available", queue.available(&ram)? == 2);
    queue.put_used(&mut ram, 2, 0x0304);
    holds(&rt, "used", queue.next_used == 0);
    holds(&rt, "taken", queue.next_available == 0);
    assert_bytes(&rt, &ram, 0x80, &[0, 0, 0, 0]);
    assert_bytes(&rt, &ram, 0x9c, &[2, 0, 0, 0, 4, 3, 0, 0]);
    Ok(())
}

/// What is wrong with a queue or its next chain.
fn assert_found(rt: &impl Abort, queue: Queue, ram: &PlainRam, found: Option<Broken>)
    requires { IsSized queue }
{
    holds(rt, "what is wrong", queue.next_chain(ram).err() == found);
}

/// What is wrong where RAM with one readable buffer has these bytes at a place.
fn assert_found_with(rt: &impl Abort, at: usize, bytes: &[u8], found: Option<Broken>) {
    holds(rt, "a place", at <= 4096);
    holds(rt, "in RAM", bytes.len() <= 4096 - at);
    let mut ram = ram_with(&READABLE, &EMPTY);
    ram.write(at, bytes);
    assert_found(rt, four(), &ram, found);
}

/// What is wrong with a queue of these places and of this count of chains taken, where RAM is good.
fn assert_found_of(
    rt: &impl Abort,
    (desc, driver, next_available): (u64, u64, u16),
    found: Option<Broken>,
) {
    let mut queue = four();
    queue.desc = desc;
    queue.driver = driver;
    queue.next_available = next_available;
    assert_found(rt, queue, &ram_with(&READABLE, &EMPTY), found);
}

#[test]
fn a_queue_that_does_not_fit_has_its_name(rt: HostRuntime) {
    let (desc, driver) = (0x8000_0000, 0x8000_0040);
    assert_found_of(&rt, (desc, driver, 0), None);
    assert_found_of(&rt, (desc, 0x8000_0041, 0), Some(Broken::Misaligned));
    assert_found_of(&rt, (0x8000_0fd0, driver, 0), Some(Broken::AreaOutside));
    assert_found_of(&rt, (desc, driver, 0xffc0), Some(Broken::TooMany));
}

#[test]
fn each_malformation_has_its_name(rt: HostRuntime) {
    assert_found_with(&rt, 0x44, &[4], Some(Broken::BadIndex));
    assert_found_with(&rt, 12, &[4], Some(Broken::Indirect));
    assert_found_with(&rt, 0, &[0xe7, 0x0f], Some(Broken::Outside));
    assert_found_with(&rt, 0, &[0xe6, 0x0f], None);
    let order = ram_with(&WRITABLE_THEN, &READABLE);
    assert_found(&rt, four(), &order, Some(Broken::Order));
    let circle = ram_with(&READABLE_THEN, &READABLE_THEN);
    assert_found(&rt, four(), &circle, Some(Broken::Loop));
    let mut empty = ram_with(&EMPTY, &EMPTY);
    assert_found(&rt, four(), &empty, None);
    empty.write(0x42, &[0]);
    let next = four().next_chain(&empty);
    holds(&rt, "no chain", matches!(next, Ok(None)));
}

/// A malformation prints this name.
fn assert_name(rt: &impl Abort, alloc: Global, broken: &Broken, name: &str) {
    let text = format!(in alloc; "{broken}").expect(rt, "memory for the text");
    holds(rt, "the name", text.as_str() == name);
}

#[test]
fn a_malformation_prints_its_name(rt: HostRuntime) {
    static NAMES: [(Broken, &str); 10] = [
        (Broken::Misaligned, "Misaligned"),
        (Broken::AreaOutside, "AreaOutside"),
        (Broken::TooMany, "TooMany"),
        (Broken::BadIndex, "BadIndex"),
        (Broken::Indirect, "Indirect"),
        (Broken::Outside, "Outside"),
        (Broken::Order, "Order"),
        (Broken::Loop, "Loop"),
        (Broken::Direction, "Direction"),
        (Broken::Short, "Short"),
    ];
    for (broken, name) in &NAMES {
        assert_name(&rt, rt.alloc(), broken, name);
    }
}
