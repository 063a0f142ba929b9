//! What a driver writes to a virtio device on the MMIO transport, by virtio 1.1, section 4.2.2.

/// The first register of the network device.
pub(crate) const NETWORK: u64 = 0x1000_1000;

/// The first register of the block device.
pub(crate) const BLOCK: u64 = 0x1000_2000;

/// DriverFeatures: the features that the driver takes, of the word that DriverFeaturesSel names.
pub(crate) const DRIVER_FEATURES: u64 = 0x20;
/// DriverFeaturesSel: which word of features is meant.
pub(crate) const DRIVER_FEATURES_SEL: u64 = 0x24;
/// QueueSel: the queue that the other queue registers mean.
pub(crate) const QUEUE_SEL: u64 = 0x30;
/// QueueNum: how many descriptors the queue has.
pub(crate) const QUEUE_NUM: u64 = 0x38;
/// QueueReady: the device may use the queue.
pub(crate) const QUEUE_READY: u64 = 0x44;
/// QueueNotify: there are new buffers in the queue that is stored.
pub(crate) const QUEUE_NOTIFY: u64 = 0x50;
/// InterruptStatus: why the device interrupts.
pub(crate) const INTERRUPT_STATUS: u64 = 0x60;
/// InterruptACK: which of these the driver has seen to.
pub(crate) const INTERRUPT_ACK: u64 = 0x64;
/// Status: how far the driver has come.
pub(crate) const STATUS: u64 = 0x70;
/// QueueDesc, the low word: the address of the descriptors.
pub(crate) const QUEUE_DESC: u64 = 0x80;
/// QueueDriver, the low word: the address of the available ring.
pub(crate) const QUEUE_DRIVER: u64 = 0x90;
/// QueueDevice, the low word: the address of the used ring.
pub(crate) const QUEUE_DEVICE: u64 = 0xa0;

/// ACKNOWLEDGE, a bit of Status: the device was noticed.
pub(crate) const ACKNOWLEDGE: u64 = 1;
/// DRIVER, a bit of Status: there is a driver for it.
pub(crate) const DRIVER: u64 = 2;
/// DRIVER_OK, a bit of Status: the driver is ready.
pub(crate) const DRIVER_OK: u64 = 4;
/// FEATURES_OK, a bit of Status: the driver has taken its features.
pub(crate) const FEATURES_OK: u64 = 8;

/// NEXT, a flag of a descriptor: the chain goes on.
pub(crate) const NEXT: u16 = 1;
/// WRITE, a flag of a descriptor: the device writes the buffer.
pub(crate) const WRITE: u16 = 2;
