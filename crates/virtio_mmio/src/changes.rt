//! What single registers load, and what stores to them change.

ghost use Rattle.std.specs.Prelude.{◌≡◌, ◌<◌, ◌+◌, bit_and, if◌then◌else◌, slice_set};
ghost use Rattle.virtio_mmio.specs.Kinds.{queue_count};
ghost use Rattle.virtio_mmio.specs.States.{queue_at, is_queue_size};
ghost use Rattle.virtio_mmio.specs.Registers.{
  word_of,
  with_low,
  with_high,
  driver_features_after,
  has_queue,
  selected_queue,
  on_queue,
  num_after,
  ready_after,
  ready_number,
  address_after,
  are_acceptable,
  kept_bits,
  status_after,
  is_set,
};
ghost use Rattle.virtio_mmio.specs.Serving.{with_counters, needing_reset};

use crate::kinds::DeviceKind;
use crate::states::DeviceState;
use virtqueue::Queue;

/// The bits of Status that the transport itself looks at (virtio 1.1, 2.1).
pub(crate) const DRIVER_OK: u32 = 4;

pub(crate) const FEATURES_OK: u32 = 8;

pub(crate) const DEVICE_NEEDS_RESET: u32 = 64;

/// The feature bit that every driver must accept (virtio 1.1, 6): bit 32.
const VERSION_1: u64 = 1 << 32;

/// 32 bits of a number of 64: word 0 the low ones, word 1 the high ones, any other word 0.
pub(crate) fn word_of(n: u64, sel: u32) -> u32
    ensures { result ≡ word_of n sel }
{
    match sel {
        0 => (n % (1 << 32)) as u32,
        1 => (n >> 32) as u32,
        _ => 0,
    }
}

/// The number with its low 32 bits replaced.
pub(crate) fn with_low(n: u64, value: u32) -> u64
    ensures { result ≡ with_low n value }
{
    n - n % (1 << 32) + u64::from(value)
}

/// The number with its high 32 bits replaced.
pub(crate) fn with_high(n: u64, value: u32) -> u64
    ensures { result ≡ with_high n value }
{
    (u64::from(value) << 32) + n % (1 << 32)
}

/// The driver's features after a store to DriverFeatures.
pub(crate) fn driver_features_after(state: &DeviceState, value: u32) -> u64
    ensures { result ≡ driver_features_after state.now value }
{
    let features = state.driver_features;
    if state.status & FEATURES_OK == FEATURES_OK {
        return features;
    }
    match state.driver_features_sel {
        0 => with_low(features, value),
        1 => with_high(features, value),
        _ => features,
    }
}

/// Whether the device has a queue of this number.
pub(crate) fn has_queue(kind: DeviceKind, number: u32) -> bool
    ensures { result ≡ has_queue kind number }
{
    number < kind.queue_count()
}

/// The queue that QueueSel names, as at boot if it isn't there.
pub(crate) fn selected_queue(kind: DeviceKind, state: &DeviceState) -> Queue
    ensures { result ≡ selected_queue kind state.now }
{
    if has_queue(kind, state.queue_sel) {
        state.queues[state.queue_sel as usize]
    } else {
        Queue::boot()
    }
}

/// The queue after a store to QueueNum.
pub(crate) fn num_after(queue: Queue, value: u32) -> Queue
    ensures { result ≡ num_after queue value }
{
    match value {
        1 | 2 | 4 | 8 | 16 | 32 | 64 if !queue.ready => Queue {
            num: value,
            ..queue
        },
        _ => queue,
    }
}

/// The queue after a store to QueueReady.
pub(crate) fn ready_after(queue: Queue, value: u32) -> Queue
    ensures { result ≡ ready_after queue value }
{
    if value % 2 == 0 {
        return Queue {
            ready: false,
            ..queue
        };
    }
    if queue.num == 0 || queue.ready {
        return queue;
    }
    Queue {
        ready: true,
        next_available: 0,
        next_used: 0,
        ..queue
    }
}

/// Half of an area's address after a store: the low 32 bits, while the queue isn't ready.
pub(crate) fn low_after(queue: Queue, address: u64, value: u32) -> u64
    ensures { result ≡ address_after with_low queue address value }
{
    if queue.ready {
        address
    } else {
        with_low(address, value)
    }
}

/// Half of an area's address after a store: the high 32 bits, while the queue isn't ready.
pub(crate) fn high_after(queue: Queue, address: u64, value: u32) -> u64
    ensures { result ≡ address_after with_high queue address value }
{
    if queue.ready {
        address
    } else {
        with_high(address, value)
    }
}

/// Puts this queue in the place of the one that QueueSel names; nothing if it isn't there.
pub(crate) fn put_selected(kind: DeviceKind, state: &mut DeviceState, queue: Queue)
    ensures { state.new ≡ record state.old {
      queues = if has_queue kind state.old.queue_sel
          then slice_set state.old.queues state.old.queue_sel queue
          else state.old.queues;
    } }
{
    if has_queue(kind, state.queue_sel) {
        state.queues[state.queue_sel as usize] = queue;
    }
}

/// Puts the two counters of the queue of this number; nothing if the device doesn't have it.
pub(crate) fn put_counters(
    kind: DeviceKind,
    state: &mut DeviceState,
    number: u32,
    next_available: u16,
    next_used: u16,
)
    ensures { state.new ≡ with_counters kind state.old number next_available next_used }
{
    if has_queue(kind, number) {
        let queue = state.queues[number as usize];
        state.queues[number as usize] = Queue {
            next_available,
            next_used,
            ..queue
        };
    }
}

/// Takes the device out of service until the driver resets it, and tells the driver if it runs.
pub(crate) fn need_reset(state: &mut DeviceState)
    ensures { state.new ≡ needing_reset state.old }
{
    if state.status & DRIVER_OK == DRIVER_OK {
        state.interrupt_status |= 2;
    }
    state.status |= DEVICE_NEEDS_RESET;
}

/// Whether the driver's features can be accepted.
fn are_acceptable(kind: DeviceKind, features: u64) -> bool
    ensures { result ≡ are_acceptable kind features }
{
    features & kind.offered() == features && features & VERSION_1 == VERSION_1
}

/// Status after a store of anything but 0 to it.
pub(crate) fn status_after(kind: DeviceKind, state: &DeviceState, value: u32) -> u32
    ensures { result ≡ status_after kind state.now value }
{
    let kept = if state.status & FEATURES_OK == FEATURES_OK
        || are_acceptable(kind, state.driver_features)
    {
        0x8f
    } else {
        0x87
    };
    (value & kept) | (state.status & DEVICE_NEEDS_RESET)
}
