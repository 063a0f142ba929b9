//! Stores into memory and to the devices.
ghost use Rattle.std.specs.Prelude.{◌≡◌, ℕ, List, ◌+◌, ◌≤◌, ◌++◌, length};
ghost use Rattle.rv64_core.specs.Widths.{width_bytes};
ghost use Rattle.guest_rules.specs.Flags.{KeepsFlags};
ghost use Rattle.guest_machine.specs.Parts.{Attached, guest_of};
ghost use Rattle.guest_rules.specs.Step.{passed, timer_stored, store_done};

use crate::devices::Devices;
use crate::hart::Hart;
use crate::loads::is_aligned;
use crate::ram::Ram;
use bus_map::{Place, TimerRegister, place};
use net_device::Outbox;
use rv64_core::Width;

/// Causes of exceptions (the Privileged ISA, mcause).
const STORE_MISALIGNED: u64 = 6;

const STORE_ACCESS_FAULT: u64 = 7;

/// A store: its bytes into memory or a device, or its exception.
#[inline]
pub(crate) fn store(
    hart: &mut Hart,
    ram: &mut Ram,
    devices: &mut Devices,
    outbox: &mut Outbox,
    address: u64,
    width: Width,
    value: u64,
)
    requires room { length outbox.old + 64 ≤ 256 }
    ensures guest { guest_of hart.new ram.new.memory.bytes devices.new ≡
        (store_done (guest_of hart.old ram.old.memory.bytes devices.old) address (width_bytes width) value).guest }
    ensures frames { outbox.new ≡ outbox.old
        ++ (store_done (guest_of hart.old ram.old.memory.bytes devices.old) address (width_bytes width) value).frames }
    ensures list { devices.new.contents.dirty
        ≡ (store_done (guest_of hart.old ram.old.memory.bytes devices.old) address (width_bytes width) value).marks
        devices.old.contents.dirty }
    ensures settled { ram.new.memory.settled ≡ ram.old.memory.settled }
    ensures flags { KeepsFlags ram.old.memory.written ram.new.memory.written }
{
    if !is_aligned(address, width) {
        hart.trap(STORE_MISALIGNED, address);
        return;
    }
    match place(address, width.bytes() as u8) {
        Place::Ram(offset) => {
            if ram.store(offset, width, value) {
                hart.pass();
            } else {
                hart.trap(STORE_ACCESS_FAULT, address);
            }
        }
        Place::Clint(register) => timer_store(hart, register, value),
        Place::Net(offset) => match devices.store_net(offset, width, value) {
            Some(action) => {
                hart.pass();
                devices.act_net(ram, outbox, action);
            }
            None => hart.trap(STORE_ACCESS_FAULT, address),
        },
        Place::Block(offset) => match devices.store_disk(offset, width, value) {
            Some(action) => {
                hart.pass();
                devices.act_disk(ram, action);
            }
            None => hart.trap(STORE_ACCESS_FAULT, address),
        },
        Place::Fault => hart.trap(STORE_ACCESS_FAULT, address),
    }
}

/// A store to a register of the timer. The time itself can't be written.
#[tactic(auto, using(crate::proofs::TimerLemmas::low_bit))]
fn timer_store(hart: &mut Hart, register: TimerRegister, value: u64)
    ensures { (ram : List ℕ) (devices : Attached) → guest_of hart.new ram devices ≡
        passed (timer_stored (guest_of hart.old ram devices) value register) }
{
    match register {
        TimerRegister::Msip => hart.msip = value % 2 == 1,
        TimerRegister::Mtimecmp => hart.mtimecmp = value,
        TimerRegister::Mtime => {}
    }
    hart.pass();
}
