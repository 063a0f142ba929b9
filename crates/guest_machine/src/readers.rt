//! What the guest holds, part by part.
ghost use Rattle.std.specs.Prelude.{◌≡◌, ◌*◌, ◌<◌, ◌≤◌, length, All, slice_index};
ghost use Rattle.rv64_core.specs.Registers.{register};
ghost use Rattle.mtraps.specs.CsrTable.{IsLegal};
ghost use Rattle.virtio_mmio.specs.declared.kinds.DeviceKind.TheVariants.{Network};
ghost use Rattle.virtio_mmio.specs.States.{IsDeviceRecord};
ghost use Rattle.net_device.specs.Frames.{IsFrame};
ghost use Rattle.guest_rules.specs.Guest.{sector_count, disk_kind};
ghost use Rattle.guest_rules.specs.Limits.{page_bytes, most_pages};

use crate::machine::Machine;
use mtraps::CsrValues;
use net_device::Frame;
use rv64_core::Register;
use virtio_mmio::DeviceState;

impl Machine {
    /// The frames that the guest sent since the last settle, in order, at most 256 of them.
    pub fn outbox(&self) -> &[Frame]
        ensures value { result.now ≡ self.now.outbox }
        ensures frames { All IsFrame self.now.outbox }
        ensures most { length self.now.outbox ≤ 256 }
    {
        self.outbox.frames()
    }

    /// How many steps the guest has made since boot, modulo 2^64.
    pub fn steps(&self) -> u64
        ensures { result ≡ self.now.guest.steps }
    {
        self.hart.steps
    }

    /// The address of the instruction that comes next.
    pub fn pc(&self) -> u64
        ensures { result ≡ self.now.guest.pc }
    {
        self.hart.pc
    }

    /// The value of one of the registers x0 to x31.
    pub fn register(&self, which: Register) -> u64
        ensures { result ≡ register self.now.guest.regs which }
    {
        self.hart.regs.get(which)
    }

    /// The values of the control and status registers that hold one. A write leaves each as it is.
    pub fn csrs(&self) -> CsrValues
        ensures value { result ≡ self.now.guest.csrs }
        ensures legal { IsLegal result }
    {
        self.hart.csrs.values()
    }

    /// The register msip: 1 where the software interrupt is pending, and else 0.
    pub fn msip(&self) -> u32
        ensures value { result ≡ self.now.guest.msip }
        ensures bit { result ≤ 1 }
    {
        u32::from(self.hart.msip)
    }

    /// The register mtimecmp: the timer interrupt is pending from this step count on.
    pub fn mtimecmp(&self) -> u64
        ensures { result ≡ self.now.guest.mtimecmp }
    {
        self.hart.mtimecmp
    }

    /// What the network card keeps. It meets the rules of a network card's record.
    pub fn net(&self) -> DeviceState
        ensures value { result ≡ self.now.guest.net }
        ensures rules { IsDeviceRecord Network result }
    {
        self.devices.net()
    }

    /// What the disk's registers keep. It meets the rules of a block device's record.
    pub fn disk(&self) -> DeviceState
        ensures value { result ≡ self.now.guest.disk }
        ensures rules { IsDeviceRecord (disk_kind self.now.guest) result }
    {
        self.devices.disk()
    }

    /// How many sectors of 512 bytes the guest's disk has: 1 to 32768.
    pub fn sectors(&self) -> u32
        ensures value { result ≡ sector_count self.now.guest.sectors }
        ensures least { 1 ≤ result }
        ensures most { result ≤ 32768 }
    {
        self.devices.sectors()
    }

    /// How many bytes of memory the guest has: 1 to 16384 pages.
    pub fn ram_size(&self) -> usize
        ensures value { result ≡ length self.now.guest.ram }
        ensures least { page_bytes ≤ result }
        ensures most { result ≤ page_bytes * most_pages }
    {
        self.ram.memory.size()
    }

    /// The byte of memory at a place, from 0 for the byte at [`RAM_BASE`]; the guest has it, as the caller knows.
    pub fn byte(&self, at: usize) -> u8
        requires { at < length self.now.guest.ram }
        ensures { result ≡ slice_index self.now.guest.ram at }
    {
        self.ram.memory.byte(at)
    }
}
