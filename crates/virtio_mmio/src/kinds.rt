//! Which device stands behind the registers, and what that fixes.

ghost use Rattle.std.specs.Prelude.{◌≡◌};

/// Which device it is.
#[derive(Clone, Copy, PartialEq, Eq)]
pub enum DeviceKind {
    /// A network card (virtio 1.1, 5.1).
    Network,
    /// A disk (virtio 1.1, 5.2).
    Block {
        /// How many sectors of 512 bytes it has.
        capacity: u64,
    },
}

impl DeviceKind {
    ghost use Rattle.virtio_mmio.specs.Kinds.{device_id, queue_count, offered, config};

    /// The device ID (virtio 1.1, section 5): 1 is a network card, 2 a block device.
    pub fn device_id(self) -> u32
        ensures { result ≡ device_id self }
    {
        match self {
            DeviceKind::Network => 1,
            DeviceKind::Block { .. } => 2,
        }
    }

    /// How many queues the device has: a network card's receive and transmit queue, a block device's one.
    pub fn queue_count(self) -> u32
        ensures { result ≡ queue_count self }
    {
        match self {
            DeviceKind::Network => 2,
            DeviceKind::Block { .. } => 1,
        }
    }

    /// The features that the device offers, bit by bit: VERSION_1, and MAC or FLUSH.
    pub fn offered(self) -> u64
        ensures { result ≡ offered self }
    {
        match self {
            DeviceKind::Network => 0x1_0000_0020,
            DeviceKind::Block { .. } => 0x1_0000_0200,
        }
    }

    /// The device's configuration space as one little-endian number: a network card's MAC address
    /// 02:00:00:00:00:01, a block device's capacity in sectors. All behind its 8 bytes is 0.
    pub fn config(self) -> u64
        ensures { result ≡ config self }
    {
        match self {
            DeviceKind::Network => 0x0100_0000_0002,
            DeviceKind::Block { capacity } => capacity,
        }
    }
}
