//! The register table: what each offset loads and what a store there does (virtio 1.1, 4.2.2).

ghost use Rattle.std.specs.Prelude.{◌≡◌};
ghost use Rattle.virtio_mmio.specs.Registers.{row_at};

use crate::actions::Action;
use crate::changes;
use crate::kinds::DeviceKind;
use crate::states::DeviceState;
use virtqueue::Queue;

const MAGIC_VALUE: u64 = 0x000;

const VERSION: u64 = 0x004;

const DEVICE_ID: u64 = 0x008;

const DEVICE_FEATURES: u64 = 0x010;

const DEVICE_FEATURES_SEL: u64 = 0x014;

const DRIVER_FEATURES: u64 = 0x020;

const DRIVER_FEATURES_SEL: u64 = 0x024;

const QUEUE_SEL: u64 = 0x030;

const QUEUE_NUM_MAX: u64 = 0x034;

const QUEUE_NUM: u64 = 0x038;

const QUEUE_READY: u64 = 0x044;

const QUEUE_NOTIFY: u64 = 0x050;

const INTERRUPT_STATUS: u64 = 0x060;

const INTERRUPT_ACK: u64 = 0x064;

const STATUS: u64 = 0x070;

const QUEUE_DESC_LOW: u64 = 0x080;

const QUEUE_DESC_HIGH: u64 = 0x084;

const QUEUE_DRIVER_LOW: u64 = 0x090;

const QUEUE_DRIVER_HIGH: u64 = 0x094;

const QUEUE_DEVICE_LOW: u64 = 0x0a0;

const QUEUE_DEVICE_HIGH: u64 = 0x0a4;

/// What a load of 4 bytes gives.
#[tactic(auto, unfolding(crate::specs::Registers::row_at))]
pub(crate) fn load_register(kind: DeviceKind, state: &DeviceState, offset: u64) -> u32
    ensures { result ≡ (row_at offset).load kind state.now }
{
    match offset {
        MAGIC_VALUE => 0x7472_6976,
        VERSION => 2,
        DEVICE_ID => kind.device_id(),
        DEVICE_FEATURES => changes::word_of(kind.offered(), state.device_features_sel),
        QUEUE_NUM_MAX => {
            if changes::has_queue(kind, state.queue_sel) {
                64
            } else {
                0
            }
        }
        QUEUE_READY => {
            if changes::selected_queue(kind, state).ready {
                1
            } else {
                0
            }
        }
        INTERRUPT_STATUS => state.interrupt_status,
        STATUS => state.status,
        _ => 0,
    }
}

/// What a store of 4 bytes does, and what it asks of the device.
#[tactic(auto, unfolding(crate::specs::Registers::row_at))]
pub(crate) fn store_register(
    kind: DeviceKind,
    state: &mut DeviceState,
    offset: u64,
    value: u32,
) -> Action
    ensures action { result ≡ ((row_at offset).store kind state.old value).action }
    ensures state { state.new ≡ ((row_at offset).store kind state.old value).state }
{
    let queue = changes::selected_queue(kind, state);
    match offset {
        DEVICE_FEATURES_SEL => state.device_features_sel = value,
        DRIVER_FEATURES => state.driver_features = changes::driver_features_after(state, value),
        DRIVER_FEATURES_SEL => state.driver_features_sel = value,
        QUEUE_SEL => state.queue_sel = value,
        QUEUE_NOTIFY => {
            if changes::has_queue(kind, value) {
                return Action::Notify(value);
            }
        }
        INTERRUPT_ACK => state.interrupt_status &= !value,
        STATUS => {
            if value == 0 {
                *state = DeviceState::boot();
                return Action::Reset;
            }
            state.status = changes::status_after(kind, state, value);
        }
        QUEUE_NUM => changes::put_selected(kind, state, changes::num_after(queue, value)),
        QUEUE_READY => changes::put_selected(kind, state, changes::ready_after(queue, value)),
        QUEUE_DESC_LOW => {
            let desc = changes::low_after(queue, queue.desc, value);
            changes::put_selected(kind, state, Queue { desc, ..queue });
        }
        QUEUE_DESC_HIGH => {
            let desc = changes::high_after(queue, queue.desc, value);
            changes::put_selected(kind, state, Queue { desc, ..queue });
        }
        QUEUE_DRIVER_LOW => {
            let driver = changes::low_after(queue, queue.driver, value);
            changes::put_selected(kind, state, Queue { driver, ..queue });
        }
        QUEUE_DRIVER_HIGH => {
            let driver = changes::high_after(queue, queue.driver, value);
            changes::put_selected(kind, state, Queue { driver, ..queue });
        }
        QUEUE_DEVICE_LOW => {
            let device = changes::low_after(queue, queue.device, value);
            changes::put_selected(kind, state, Queue { device, ..queue });
        }
        QUEUE_DEVICE_HIGH => {
            let device = changes::high_after(queue, queue.device, value);
            changes::put_selected(kind, state, Queue { device, ..queue });
        }
        _ => (),
    }
    Action::None
}
