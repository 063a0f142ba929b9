//! The address map.

ghost use Rattle.std.specs.Prelude.{◌≡◌, ℕ, ◌-◌, ◌<◌, IsTrue, All, false};
ghost use Rattle.std.specs.List.{list_any};
ghost use Rattle.bus_map.specs.AddressMap.{Row, address_map, holds, place_of, IsOffsetWithin};

use crate::parts::{Place, TimerRegister};

/// `msip`, in 4 bytes.
const MSIP: u64 = 0x0200_0000;
/// `mtimecmp`, in 8 bytes.
const MTIMECMP: u64 = 0x0200_4000;
/// `mtime`, in 8 bytes.
const MTIME: u64 = 0x0200_bff8;
/// The first byte of the network device's registers.
const NET: u64 = 0x1000_1000;
/// The last byte of the network device's registers.
const NET_LAST: u64 = 0x1000_1fff;
/// The first byte of the block device's registers.
const BLOCK: u64 = 0x1000_2000;
/// The last byte of the block device's registers.
const BLOCK_LAST: u64 = 0x1000_2fff;
/// The first address of RAM.
pub const RAM_BASE: u64 = 0x8000_0000;

/// What an access of `width` bytes at the address `addr` names, by the address map.
///
/// The access is aligned, as the machine has tested before; an access that isn't names nothing, or what its
/// first byte names. The timer's registers are named by their first byte and whole width alone. The devices
/// and RAM hold any width: a device answers which it takes, and the machine knows the size of its RAM.
#[inline]
#[tactic(auto, unfolding(crate::specs::AddressMap::address_map, crate::specs::AddressMap::place_of))]
pub fn place(addr: u64, width: u8) -> Place
    ensures value { result ≡ place_of addr width }

    // The map has no order: each of its rows that holds the access gives the answer.
    ensures row { All (λ row. IsTrue (holds row addr width) → result ≡ row.part (addr - row.first)) address_map }

    // Without such a row it is a fault.
    ensures fault { list_any (λ row. holds row addr width) address_map ≡ false → result ≡ Place.Fault }
    ensures offset { IsOffsetWithin result }
{
    // Most accesses are to RAM.
    if addr >= RAM_BASE {
        return Place::Ram(addr - RAM_BASE);
    }
    match addr {
        NET..=NET_LAST => Place::Net(addr - NET),
        BLOCK..=BLOCK_LAST => Place::Block(addr - BLOCK),
        MSIP if width == 4 => Place::Clint(TimerRegister::Msip),
        MTIMECMP if width == 8 => Place::Clint(TimerRegister::Mtimecmp),
        MTIME if width == 8 => Place::Clint(TimerRegister::Mtime),
        _ => Place::Fault,
    }
}
