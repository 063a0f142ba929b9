//! What a checkpoint states whole of a machine.

use mtraps::CsrValues;
use virtio_mmio::DeviceState;

/// What a checkpoint states whole: the hart, its timer and both devices' records. Neither memory nor sectors.
#[derive(Clone, Copy, PartialEq, Eq)]
pub struct MachineState {
    /// How many steps were made since boot, modulo 2^64.
    pub steps: u64,
    /// The registers x1 to x31; x0 is always 0.
    pub registers: [u64; 31],
    /// The address of the instruction that comes next, a multiple of 4.
    pub pc: u64,
    /// The control and status registers that hold a value.
    pub csrs: CsrValues,
    /// The register msip: 1 where the software interrupt is pending, and else 0.
    pub msip: u32,
    /// The register mtimecmp: the timer interrupt is pending from this step count on.
    pub mtimecmp: u64,
    /// What the network card's registers keep.
    pub net: DeviceState,
    /// What the disk's registers keep.
    pub disk: DeviceState,
}
