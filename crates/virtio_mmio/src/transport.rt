//! A device's register file.

ghost use Rattle.std.specs.Prelude.{◌≡◌, ◌<◌, ◌≤◌, IsTrue, IfSome, ◌/◌, ◌%◌, ◌^◌, if◌then◌else◌};
ghost use Rattle.virtio_mmio.specs.States.{boot_state, queue_at, IsDeviceRecord, IsQueueRecord};
ghost use Rattle.virtio_mmio.specs.Registers.{has_queue};
ghost use Rattle.virtio_mmio.specs.Serving.{is_running, can_serve, with_counters, used_signalled, needing_reset};
ghost use Rattle.virtqueue.specs.Queues.{boot_queue};
ghost use Rattle.virtqueue.specs.Areas.{IsSized};
ghost use Rattle.virtio_mmio.specs.Transport.{loaded, store_answer, state_after_store, is_width};

use crate::actions::Action;
use crate::changes::{self, DEVICE_NEEDS_RESET, DRIVER_OK, FEATURES_OK};
use crate::kinds::DeviceKind;
use crate::registers;
use crate::states::DeviceState;
use std::marker::Model;
use virtqueue::Queue;

/// Where a device's configuration space begins (virtio 1.1, 4.2.2).
const CONFIG: u64 = 0x100;

/// The registers of one device: which device it is, which stays, and what its registers keep.
#[derive(Clone, Copy, PartialEq, Eq)]
pub struct Transport {
    kind: DeviceKind,
    state: DeviceState,
}

impl Model for Transport {
    ghost use Rattle.virtio_mmio.specs.States.{IsDeviceRecord};
    ghost use Rattle.virtio_mmio.specs.Transport.{Device};

    ghost Value = { Device };

    ghost view = { λ t. record { kind = t.kind; state = t.state } };

    ghost invariant = { λ t. IsDeviceRecord t.kind t.state };

    ghost inverse = { λ d. record { kind = d.kind; state = d.state } };
}

impl Transport {
    /// The registers at boot: all that they keep is 0.
    pub fn boot(kind: DeviceKind) -> Transport
        ensures { result ≡ record { kind = kind; state = boot_state } }
    {
        Transport {
            kind,
            state: DeviceState::boot(),
        }
    }

    /// Which device it is.
    pub fn kind(&self) -> DeviceKind
        ensures { result ≡ self.now.kind }
    {
        self.kind
    }

    /// What the registers keep. It meets the rules of a device record.
    pub fn state(&self) -> DeviceState
        ensures value { result ≡ self.now.state }
        ensures rules { IsDeviceRecord self.now.kind self.now.state }
    {
        self.state
    }

    /// Which interrupts wait for the driver: bit 0 where a buffer was used, bit 1 where the configuration changed.
    #[inline]
    pub fn interrupt_status(&self) -> u32
        ensures value { result ≡ self.now.state.interrupt_status }
        ensures bits { result ≤ 3 }
    {
        let DeviceState {
            interrupt_status,
            ..
        } = self.state;
        interrupt_status
    }

    /// Puts another record in the place of this one; the caller knows that it meets the rules of a
    /// device record.
    pub fn put_state(&mut self, state: &DeviceState)
        requires { IsDeviceRecord self.old.kind state.now }
        ensures { self.new ≡ record self.old { state = state.now } }
    {
        self.state = *state;
    }

    /// What a load of `width` bytes at `offset` gives; `None` is an access fault: a width other than 4
    /// below 0x100, or one other than 1, 2, 4 and 8 from there on.
    #[tactic(auto, unfolding(crate::specs::Transport::loaded))]
    pub fn load(&self, offset: u64, width: u8) -> Option<u64>
        ensures { result ≡ loaded self.now.kind self.now.state offset width }
    {
        if offset >= CONFIG {
            return load_config(self.kind.config(), offset - CONFIG, width);
        }
        if width == 4 {
            let word = registers::load_register(self.kind, &self.state, offset);
            Some(u64::from(word))
        } else {
            None
        }
    }

    /// Does a store of the low `width` bytes of `value` at `offset`, and says what it asks of the
    /// device; `None` is an access fault, as in `load`, and changes nothing.
    #[tactic(auto, unfolding(crate::specs::Transport::stored))]
    pub fn store(&mut self, offset: u64, width: u8, value: u64) -> Option<Action>
        ensures action { result ≡ store_answer self.old.kind self.old.state offset width value }
        ensures state { self.new ≡ record self.old {
          state = state_after_store self.old.kind self.old.state offset width value;
        } }
    {
        if offset < CONFIG {
            if width != 4 {
                return None;
            }
            let word = (value & 0xffff_ffff) as u32;
            return Some(registers::store_register(self.kind, &mut self.state, offset, word));
        }
        match width {
            1 | 2 | 4 | 8 => Some(Action::None),
            _ => None,
        }
    }

    /// Whether the driver is ready and the device is not broken.
    fn is_running(&self) -> bool
        ensures { result ≡ is_running self.now.state }
    {
        let status = self.state.status;
        status & DRIVER_OK == DRIVER_OK
            && status & FEATURES_OK == FEATURES_OK
            && status & DEVICE_NEEDS_RESET != DEVICE_NEEDS_RESET
    }

    /// Whether the device may serve its queue of this number now: the driver is ready, the device is
    /// not broken, and the queue is there and ready.
    pub fn can_serve(&self, number: u32) -> bool
        ensures { result ≡ can_serve self.now.kind self.now.state number }
    {
        self.queue_in_service(number).is_some()
    }

    /// The queue of this number if the device may serve it now. Its size is from 1 to 64.
    pub fn queue_in_service(&self, number: u32) -> Option<Queue>
        ensures value { result ≡ (if can_serve self.now.kind self.now.state number
            then Some (queue_at self.now.state number)
            else None) }
        ensures sized { IfSome result (λ queue. IsSized queue) }
    {
        let queue = self.queue(number);
        if self.is_running() && queue.ready {
            Some(queue)
        } else {
            None
        }
    }

    /// The queue of this number, as at boot if the device doesn't have it. Its size is at most 64, and
    /// not 0 while it is ready.
    pub fn queue(&self, number: u32) -> Queue
        ensures value { result ≡ (if has_queue self.now.kind number then queue_at self.now.state number
            else boot_queue) }
        ensures rules { IsQueueRecord result }
        ensures fits { result.num ≤ 64 }
        ensures some { IsTrue result.ready → 0 < result.num }
    {
        if changes::has_queue(self.kind, number) {
            self.state.queues[number as usize]
        } else {
            Queue::boot()
        }
    }

    /// Puts the two counters of the queue of this number; nothing if the device doesn't have it.
    pub fn put_counters(&mut self, number: u32, next_available: u16, next_used: u16)
        ensures { self.new ≡ record self.old {
          state = with_counters self.old.kind self.old.state number next_available next_used;
        } }
    {
        changes::put_counters(
            self.kind,
            &mut self.state,
            number,
            next_available,
            next_used,
        );
    }

    /// Tells the driver that a buffer was used.
    pub fn signal_used(&mut self)
        ensures { self.new ≡ record self.old { state = used_signalled self.old.state } }
    {
        self.state.interrupt_status |= 1;
    }

    /// Takes the device out of service until the driver resets it, and tells the driver if it runs.
    pub fn need_reset(&mut self)
        ensures { self.new ≡ record self.old { state = needing_reset self.old.state } }
    {
        changes::need_reset(&mut self.state);
    }
}

/// The `width` bytes at a place of the configuration space, of which `config` is the whole as one
/// little-endian number.
fn load_config(config: u64, place: u64, width: u8) -> Option<u64>
    ensures { result ≡ (if is_width width then Some (config / 256 ^ place % 256 ^ width) else None) }
{
    let rest = config_from(config, place);
    match width {
        1 => Some(rest % (1 << 8)),
        2 => Some(rest % (1 << 16)),
        4 => Some(rest % (1 << 32)),
        8 => Some(rest),
        _ => None,
    }
}

/// The configuration space from a place on, as one little-endian number.
fn config_from(config: u64, place: u64) -> u64
    ensures { result ≡ config / 256 ^ place }
{
    if place < 8 { config >> (8 * place) } else { 0 }
}
