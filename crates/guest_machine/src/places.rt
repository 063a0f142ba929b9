//! Where addresses lie in the guest's memory.
ghost use Rattle.std.specs.Prelude.{◌≡◌, ◌+◌, ◌%◌, ◌≤◌, ◌^◌, ◌==◌, true, IfSome};
ghost use Rattle.rv64_core.specs.Widths.{width_bytes};
ghost use Rattle.bus_map.specs.AddressMap.{place_of};
ghost use Rattle.bus_map.specs.Limits.{ram_base};
ghost use Rattle.guest_rules.specs.Places.{in_ram, ram_place};

use bus_map::Place;
use rv64_core::Width;

/// The address of the first byte of memory.
pub(crate) const RAM_BASE: u64 = bus_map::RAM_BASE;

/// Whether `n` bytes from `address` on lie wholly in a memory of `size` bytes.
#[inline]
pub(crate) fn in_ram(size: usize, address: u64, n: u64) -> bool
    requires not_more { n ≤ size }
    requires bounded { size ≤ 2 ^ 32 }
    ensures { result ≡ in_ram size address n }
{
    address.wrapping_sub(RAM_BASE) <= size as u64 - n
}

/// The place in memory of an address that isn't below it.
#[inline]
pub(crate) fn ram_place(address: u64) -> usize
    requires { ram_base ≤ address }
    ensures { result ≡ ram_place address }
{
    (address - RAM_BASE) as usize
}

/// Where an aligned access of this width at an address stands in a memory of so many bytes, if it is aligned and all of it does. Of a
/// double one test tells both: the address is divided by the width, and a remainder turned to the highest bits, which makes it far too
/// large. The others take two, so that fewer numbers than one a width have to be at hand.
#[inline(always)]
pub(crate) fn aligned_place(size: usize, address: u64, width: Width) -> Option<usize>
    requires bounded { size ≤ 2 ^ 32 }
    requires whole { size % 4 ≡ 0 }
    ensures place { IfSome result (λ at. place_of address (width_bytes width) ≡ Place.Ram at) }
    ensures aligned { IfSome result (λ at. (address % width_bytes width == 0) ≡ true) }
    ensures within { IfSome result (λ at. at + width_bytes width ≤ size) }
    ensures even { IfSome result (λ at. at % width_bytes width ≡ 0) }
{
    // An address below memory wraps, and is far beyond it.
    match width {
        Width::Byte => {
            let number = address.wrapping_sub(RAM_BASE);
            if number < size as u64 {
                Some(number as usize)
            } else {
                None
            }
        }
        Width::Half => {
            let number = address.wrapping_sub(RAM_BASE);
            if number % 2 == 0 && number < size as u64 {
                Some(number as usize)
            } else {
                None
            }
        }
        Width::Word => {
            let number = address.wrapping_sub(RAM_BASE);
            if number % 4 == 0 && number < size as u64 {
                Some(number as usize)
            } else {
                None
            }
        }
        Width::Double => {
            let turned = address / 8 + address % 8 * (1 << 61);
            let number = turned.wrapping_sub(RAM_BASE / 8);
            if number < (size / 8) as u64 {
                Some(number as usize * 8)
            } else {
                None
            }
        }
    }
}
