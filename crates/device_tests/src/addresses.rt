//! The address map, at both ends of each part.

use crate::asserts::holds_at;
use bus_map::{Place, TimerRegister, place};
use std::process::Abort;

/// Where an access of so many bytes at an address goes.
fn assert_place(rt: &impl Abort, addr: u64, width: u8, wanted: &Place) {
    holds_at(rt, "address", addr as usize, place(addr, width) == *wanted);
}

#[test]
fn each_part_and_what_lies_beside_it(rt: HostRuntime) {
    static CASES: [(u64, u8, Place); 19] = [
        (0x0000_0000, 4, Place::Fault),
        (0x01ff_ffff, 1, Place::Fault),
        (0x0200_0000, 4, Place::Clint(TimerRegister::Msip)),
        (0x0200_0000, 8, Place::Fault),
        (0x0200_0004, 4, Place::Fault),
        (0x0200_4000, 8, Place::Clint(TimerRegister::Mtimecmp)),
        (0x0200_4000, 4, Place::Fault),
        (0x0200_4004, 4, Place::Fault),
        (0x0200_bff8, 8, Place::Clint(TimerRegister::Mtime)),
        (0x0200_bffc, 4, Place::Fault),
        (0x1000_0fff, 1, Place::Fault),
        (0x1000_1000, 4, Place::Net(0)),
        (0x1000_1fff, 1, Place::Net(4095)),
        (0x1000_2000, 1, Place::Block(0)),
        (0x1000_2ff8, 8, Place::Block(4088)),
        (0x1000_3000, 8, Place::Fault),
        (0x7fff_ffff, 1, Place::Fault),
        (0x8000_0000, 8, Place::Ram(0)),
        (0xffff_ffff_ffff_ffff, 1, Place::Ram(0xffff_ffff_7fff_ffff)),
    ];
    for (addr, width, wanted) in &CASES {
        assert_place(&rt, *addr, *width, wanted);
    }
}
