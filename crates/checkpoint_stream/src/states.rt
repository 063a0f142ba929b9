//! The version and the state that the head's numbers are.

ghost use Rattle.std.specs.Prelude.{◌≡◌, ◌+◌, ◌≤◌, ◌%◌, ◌^◌};
ghost use Rattle.checkpoint_stream.specs.Sound.{version_from, state_from, queue_from, device_from};

use crate::rules::{HEAD_NUMBERS, NEW_MAGIC};
use guest_rules::MachineState;
use mtraps::CsrValues;
use virtio_mmio::DeviceState;
use virtqueue::Queue;

/// The version that the first number says.
pub(crate) fn version_from(magic: u64) -> u32
    ensures { result ≡ version_from magic }
{
    if magic == NEW_MAGIC { 2 } else { 1 }
}

/// The state that these numbers are.
pub(crate) fn state_from(h: &[u64; HEAD_NUMBERS]) -> MachineState
    ensures { result ≡ state_from h.now }
{
    #[rattlefmt::skip]
    let registers = [
        h[6], h[7], h[8], h[9], h[10], h[11], h[12], h[13], h[14], h[15], h[16], h[17], h[18], h[19], h[20], h[21],
        h[22], h[23], h[24], h[25], h[26], h[27], h[28], h[29], h[30], h[31], h[32], h[33], h[34], h[35], h[36],
    ];
    MachineState {
        steps: h[5],
        registers,
        pc: h[37],
        csrs: csrs_from(h),
        msip: low_half(h[45]),
        mtimecmp: h[46],
        net: device_from(h, 47, [queue_from(h, 53), queue_from(h, 60)]),
        disk: device_from(h, 67, [queue_from(h, 73), Queue::boot()]),
    }
}

/// The CSRs that these numbers are.
fn csrs_from(h: &[u64; HEAD_NUMBERS]) -> CsrValues
    ensures { result ≡ (state_from h.now).csrs }
{
    CsrValues {
        mstatus: h[38],
        mie: h[39],
        mtvec: h[40],
        mscratch: h[41],
        mepc: h[42],
        mcause: h[43],
        mtval: h[44],
    }
}

/// The device that the numbers from `first` on are, with these queues.
fn device_from(h: &[u64; HEAD_NUMBERS], first: usize, queues: [Queue; 2]) -> DeviceState
    requires { first + 6 ≤ 80 }
    ensures { result ≡ device_from h.now first queues }
{
    DeviceState {
        status: low_half(h[first]),
        device_features_sel: low_half(h[first + 1]),
        driver_features_sel: low_half(h[first + 2]),
        driver_features: h[first + 3],
        queue_sel: low_half(h[first + 4]),
        interrupt_status: low_half(h[first + 5]),
        queues,
    }
}

/// The queue that the numbers from `first` on are.
fn queue_from(h: &[u64; HEAD_NUMBERS], first: usize) -> Queue
    requires { first + 7 ≤ 80 }
    ensures { result ≡ queue_from h.now first }
{
    Queue {
        num: low_half(h[first]),
        ready: h[first + 1] == 1,
        desc: h[first + 2],
        driver: h[first + 3],
        device: h[first + 4],
        next_available: low_quarter(h[first + 5]),
        next_used: low_quarter(h[first + 6]),
    }
}

/// The low 32 bits.
fn low_half(n: u64) -> u32
    ensures { result ≡ n % 2 ^ 32 }
{
    (n % (1 << 32)) as u32
}

/// The low 16 bits.
fn low_quarter(n: u64) -> u16
    ensures { result ≡ n % 2 ^ 16 }
{
    (n % (1 << 16)) as u16
}
