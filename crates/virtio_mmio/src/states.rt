//! What a device keeps between two accesses.

ghost use Rattle.std.specs.Prelude.{◌≡◌};

use virtqueue::Queue;

/// The device record: all that a device's registers keep (virtio 1.1, 4.2.2).
#[derive(Clone, Copy, PartialEq, Eq)]
pub struct DeviceState {
    /// The device status field (virtio 1.1, 2.1): bits of 0xcf alone.
    pub status: u32,
    /// Which 32 bits of the offered features DeviceFeatures gives.
    pub device_features_sel: u32,
    /// Which 32 bits of the accepted features DriverFeatures writes.
    pub driver_features_sel: u32,
    /// The features that the driver accepted, bit by bit.
    pub driver_features: u64,
    /// Which queue the queue registers speak of.
    pub queue_sel: u32,
    /// Bit 0: a buffer was used; bit 1: the configuration changed.
    pub interrupt_status: u32,
    /// The queues; one that the device doesn't have stays as at boot.
    pub queues: [Queue; 2],
}

impl DeviceState {
    ghost use Rattle.virtio_mmio.specs.States.{boot_state};

    /// The record at boot and after a reset: all 0.
    pub fn boot() -> DeviceState
        ensures { result ≡ boot_state }
    {
        DeviceState {
            status: 0,
            device_features_sel: 0,
            driver_features_sel: 0,
            driver_features: 0,
            queue_sel: 0,
            interrupt_status: 0,
            queues: [Queue::boot(), Queue::boot()],
        }
    }
}
