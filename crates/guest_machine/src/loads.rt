//! Loads from memory and from the devices.
ghost use Rattle.std.specs.Prelude.{◌≡◌, ℕ, List, ◌%◌, ◌==◌, true, false, if◌then◌else◌};
ghost use Rattle.rv64_core.specs.Widths.{width_bytes};
ghost use Rattle.guest_machine.specs.Parts.{Attached, guest_of};
ghost use Rattle.guest_machine.specs.Leaves.{LeavesInterrupts};
ghost use Rattle.guest_rules.specs.Step.{quiet, trapped, extended, timer_loaded, loaded_from, load_done};

use crate::devices::Devices;
use crate::hart::Hart;
use crate::ram::Ram;
use bus_map::{Place, TimerRegister, place};
use rv64_core::{Register, Width};

/// Causes of exceptions (the Privileged ISA, mcause).
const LOAD_MISALIGNED: u64 = 4;

const LOAD_ACCESS_FAULT: u64 = 5;

/// A load: its value into a register, or its exception.
#[inline]
pub(crate) fn load(
    hart: &mut Hart,
    ram: &Ram,
    devices: &Devices,
    rd: Register,
    address: u64,
    width: Width,
    signed: bool,
)
    ensures { load_done (guest_of hart.old ram.now.memory.bytes devices.now) rd address signed (width_bytes width)
        ≡ quiet (guest_of hart.new ram.now.memory.bytes devices.now) }
{
    if !load_served(hart, ram, devices, rd, address, width, signed) {
        let cause = if is_aligned(address, width) {
            LOAD_ACCESS_FAULT
        } else {
            LOAD_MISALIGNED
        };
        hart.trap(cause, address);
    }
}

/// A load that is no exception: its value into a register. Where it is one the answer is no, and nothing changes.
#[inline]
pub(crate) fn load_served(
    hart: &mut Hart,
    ram: &Ram,
    devices: &Devices,
    rd: Register,
    address: u64,
    width: Width,
    signed: bool,
) -> bool
    ensures went { result ≡ true → load_done (guest_of hart.old ram.now.memory.bytes devices.now) rd address signed (width_bytes width)
        ≡ quiet (guest_of hart.new ram.now.memory.bytes devices.now) }
    ensures trapped { result ≡ false → load_done (guest_of hart.old ram.now.memory.bytes devices.now) rd address signed (width_bytes width)
        ≡ trapped (guest_of hart.old ram.now.memory.bytes devices.now) (if address % width_bytes width == 0 then 5 else 4) address }
    ensures unchanged { result ≡ false → hart.new ≡ hart.old }
    ensures leaves { LeavesInterrupts hart.old hart.new }
{
    if !is_aligned(address, width) {
        return false;
    }
    match read(
        hart,
        ram,
        devices,
        place(address, width.bytes() as u8),
        width,
    ) {
        Some(value) => {
            hart.regs.set(rd, extend(value, width, signed));
            hart.pass();
            true
        }
        None => false,
    }
}

/// Whether an access of this width at an address is aligned.
#[inline]
pub(crate) fn is_aligned(address: u64, width: Width) -> bool
    ensures { result ≡ (address % width_bytes width == 0) }
{
    match width {
        Width::Byte => true,
        Width::Half => address % 2 == 0,
        Width::Word => address % 4 == 0,
        Width::Double => address % 8 == 0,
    }
}

/// What stands at a place, or `None` for an access fault.
#[inline]
fn read(hart: &Hart, ram: &Ram, devices: &Devices, place: Place, width: Width) -> Option<u64>
    ensures { result ≡ loaded_from (guest_of hart.now ram.now.memory.bytes devices.now) (width_bytes width) place }
{
    match place {
        Place::Ram(offset) => ram.load(offset, width),
        Place::Clint(register) => Some(timer_value(hart, register)),
        Place::Net(offset) => devices.load_net(offset, width),
        Place::Block(offset) => devices.load_disk(offset, width),
        Place::Fault => None,
    }
}

/// What a register of the timer reads.
fn timer_value(hart: &Hart, register: TimerRegister) -> u64
    ensures { (ram : List ℕ) (devices : Attached) → result ≡ timer_loaded (guest_of hart.now ram devices) register }
{
    match register {
        TimerRegister::Msip => u64::from(hart.msip),
        TimerRegister::Mtimecmp => hart.mtimecmp,
        TimerRegister::Mtime => hart.steps,
    }
}

/// A loaded value as a register holds it: sign extended from its width, or filled with zeros.
#[inline]
pub(crate) fn extend(value: u64, width: Width, signed: bool) -> u64
    ensures { result ≡ extended signed (width_bytes width) value }
{
    let (sign, ones) = match width {
        Width::Byte => (0x80, 0xffff_ffff_ffff_ff00),
        Width::Half => (0x8000, 0xffff_ffff_ffff_0000),
        Width::Word => (0x8000_0000, 0xffff_ffff_0000_0000),
        Width::Double => (0x8000_0000_0000_0000, 0),
    };
    if signed && sign <= value {
        value.wrapping_add(ones)
    } else {
        value
    }
}

/// A byte, sign extended.
#[inline(always)]
pub(crate) fn extend_byte(value: u8) -> u64
    ensures { result ≡ extended true 1 value }
{
    i64::from(value.cast_signed()).cast_unsigned()
}

/// Two bytes, sign extended.
#[inline(always)]
pub(crate) fn extend_half(value: u16) -> u64
    ensures { result ≡ extended true 2 value }
{
    i64::from(value.cast_signed()).cast_unsigned()
}

/// Four bytes, sign extended.
#[inline(always)]
pub(crate) fn extend_word(value: u32) -> u64
    ensures { result ≡ extended true 4 value }
{
    i64::from(value.cast_signed()).cast_unsigned()
}
