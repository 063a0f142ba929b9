//! The interrupts of machine mode: their bits in `mie` and `mip`, and how `mcause` marks them.

/// Marks a cause as that of an interrupt, whose bit is added to it.
pub const INTERRUPT: u64 = 1 << 63;
/// The software interrupt, bit 3.
pub const SOFTWARE: u64 = 1 << 3;
/// The timer interrupt, bit 7.
pub const TIMER: u64 = 1 << 7;
/// The external interrupt, bit 11.
pub const EXTERNAL: u64 = 1 << 11;
