//! Laws of a device's record, each the contract of a function that does nothing.
ghost use Rattle.std.specs.Prelude.{◌≡◌, ℕ, Some};
ghost use Rattle.virtio_mmio.specs.declared.kinds.DeviceKind.{DeviceKind};
ghost use Rattle.virtio_mmio.specs.declared.states.DeviceState.{DeviceState};
ghost use Rattle.virtio_mmio.specs.Registers.{Stored};
ghost use Rattle.virtio_mmio.specs.States.{IsDeviceRecord};
ghost use Rattle.virtio_mmio.specs.Transport.{stored};

/// A record that meets the rules of its kind of device still meets them after a store.
pub fn kept_records()
    ensures { (k : DeviceKind) (d : DeviceState) (offset width value : ℕ) (s : Stored) → stored k d offset width value ≡ Some s →
        IsDeviceRecord k d → IsDeviceRecord k s.state }
{}
