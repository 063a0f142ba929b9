//! The parts of the machine that an address can name.

/// A register of the timer and software interrupts, the core-local interruptor (CLINT).
#[derive(Clone, Copy, PartialEq, Eq)]
pub enum TimerRegister {
    /// `msip`, 4 bytes wide: its bit 0 is the software interrupt.
    Msip,
    /// `mtimecmp`, 8 bytes wide: the timer interrupt is pending from this time on.
    Mtimecmp,
    /// `mtime`, 8 bytes wide: the time, which is the number of steps so far.
    Mtime,
}

/// What an access names.
#[derive(Clone, Copy, PartialEq, Eq)]
pub enum Place {
    /// RAM, at this many bytes from its start. The map gives RAM all addresses from `0x8000_0000` on: whether
    /// the access lies within the RAM that there is, the machine tests.
    Ram(u64),
    /// A register of the timer, in its whole width.
    Clint(TimerRegister),
    /// The network device, at this offset in bytes, below 4096. Which widths it takes there is the device's rule.
    Net(u64),
    /// The block device, at this offset in bytes, below 4096. Which widths it takes there is the device's rule.
    Block(u64),
    /// Nothing: the access is an access fault.
    Fault,
}
