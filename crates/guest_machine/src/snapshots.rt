//! What a checkpoint states of a machine, and how one is put back.
ghost use Rattle.std.specs.Prelude.{◌≡◌, ◌+◌, ◌*◌, ◌<◌, ◌≤◌, ◌↔◌, false, true, length, replicate, All, IsTrue};
ghost use Rattle.block_device.specs.Dirty.{Rises, with_written};
ghost use Rattle.paged_memory.specs.Pages.{AreUnwritten, page_of, is_written, written_pages, marked};
ghost use Rattle.guest_rules.specs.Blocks.{block_place, with_block, with_sector};
ghost use Rattle.guest_rules.specs.Guest.{sector_count, sector_of};
ghost use Rattle.guest_rules.specs.Limits.{page_bytes};
ghost use Rattle.guest_rules.specs.MachineStates.{IsMachineState, state_of, with_state};

use crate::blocks::BLOCK_BYTES;
use crate::hart::{Hart, registers_with};
use crate::machine::Machine;
use block_device::SECTOR_BYTES;
use guest_rules::{MachineState, Shape};
use mtraps::Csrs;
use paged_memory::PAGE_BYTES;

impl Machine {
    /// How large the machine is.
    pub fn shape(&self) -> Shape
        ensures pages { length self.now.guest.ram ≡ page_bytes * result.pages }
        ensures flags { length self.now.written ≡ result.pages }
        ensures settled { length self.now.settled ≡ page_bytes * result.pages }
        ensures sectors { length self.now.guest.sectors ≡ 512 * result.sectors }
    {
        Shape {
            pages: self.ram.memory.pages(),
            sectors: self.devices.sectors(),
        }
    }

    /// All of the guest but the bytes of its memory and of its disk.
    pub fn state(&self) -> MachineState
        ensures value { result ≡ state_of self.now.guest }
        ensures whole { with_state self.now.guest result ≡ self.now.guest }
        ensures rules { IsMachineState result }
    {
        MachineState {
            steps: self.hart.steps,
            registers: self.hart.registers(),
            pc: self.hart.pc,
            csrs: self.hart.csrs.values(),
            msip: u32::from(self.hart.msip),
            mtimecmp: self.hart.mtimecmp,
            net: self.devices.net(),
            disk: self.devices.disk(),
        }
    }

    /// The 4096 bytes of a page of memory; the guest has it, as the caller knows.
    pub fn page(&self, page: u32) -> &[u8; PAGE_BYTES]
        requires { page_bytes * page + page_bytes ≤ length self.now.guest.ram }
        ensures { result.now ≡ page_of self.now.guest.ram page }
    {
        self.ram.memory.page(page)
    }

    /// Whether all bytes of a page are 0. It doesn't look at those of a page that nothing was put into since boot. The guest has the
    /// page, as the caller knows.
    pub fn is_zero(&self, page: u32) -> bool
        requires { page_bytes * page + page_bytes ≤ length self.now.guest.ram }
        ensures { IsTrue result ↔ All (λ b. b ≡ 0) (page_of self.now.guest.ram page) }
    {
        self.ram.memory.is_zero(page)
    }

    /// Whether a page was written since the last settle, or since boot, also where its bytes are the same as then. One that wasn't
    /// has the bytes that it had then. The guest has the page, as the caller knows.
    pub fn dirty(&self, page: u32) -> bool
        requires { page_bytes * page + page_bytes ≤ length self.now.guest.ram }
        ensures value { result ≡ is_written self.now.written page }
        ensures same { result ≡ false → page_of self.now.guest.ram page ≡ page_of self.now.settled page }
    {
        self.ram.memory.dirty(page)
    }

    /// How many pages were written since the last settle, or since boot.
    pub fn dirty_count(&self) -> usize
        ensures { result ≡ written_pages self.now.written }
    {
        self.ram.memory.dirty_count()
    }

    /// The first page from `from` on that was written since the last settle, or since boot; where none was, how many pages the guest has.
    /// The pages before it, from `from` on, have the bytes that they had then. It goes over the pages that were written, and over no
    /// others. `from` is at most the number of the guest's pages, as the caller knows.
    pub fn next_dirty(&self, from: u32) -> u32
        requires { page_bytes * from ≤ length self.now.guest.ram }
        ensures first { from ≤ result }
        ensures last { page_bytes * result ≤ length self.now.guest.ram }

        // Beyond the last page each counts as written.
        ensures here { is_written self.now.written result ≡ true }
        ensures before { AreUnwritten self.now.guest.ram self.now.settled self.now.written from result }
    {
        self.ram.memory.next_dirty(from)
    }

    /// The 4096 bytes that a page had at the last settle, or at boot; the guest has the page, as the caller knows.
    pub fn original(&self, page: u32) -> &[u8; PAGE_BYTES]
        requires { page_bytes * page + page_bytes ≤ length self.now.guest.ram }
        ensures value { result.now ≡ page_of self.now.settled page }
        ensures size { length self.now.settled ≡ length self.now.guest.ram }
    {
        self.ram.memory.original(page)
    }

    /// The 512 bytes of a sector of the disk; the disk has it, as the caller knows.
    pub fn sector(&self, sector: u32) -> &[u8; SECTOR_BYTES]
        requires { sector < sector_count self.now.guest.sectors }
        ensures { result.now ≡ sector_of self.now.guest.sectors sector }
    {
        self.devices.sector(sector)
    }

    /// Whether each byte of a sector of the disk is 0; the disk has the sector, as the caller knows.
    pub fn blank(&self, sector: u32) -> bool
        requires { sector < sector_count self.now.guest.sectors }
        ensures { IsTrue result ↔ All (λ b. b ≡ 0) (sector_of self.now.guest.sectors sector) }
    {
        self.devices.blank(sector)
    }

    /// The sectors that the guest wrote since the last settle: they rise, and none stands there twice.
    pub fn dirty_sectors(&self) -> &[u32]
        ensures value { result.now ≡ self.now.dirty }
        ensures rises { Rises 0 (sector_count self.now.guest.sectors) result.now }
    {
        self.devices.dirty_sectors()
    }

    /// Puts another state in the place of the guest's. It meets the rules of one, as the caller knows. Memory and sectors stay, and
    /// so does what counts as written.
    pub fn put_state(&mut self, state: &MachineState)
        requires { IsMachineState state.now }
        ensures { self.new ≡ record self.old { guest = with_state self.old.guest state.now } }
    {
        self.devices.put_records(&state.net, &state.disk);
        self.hart = Hart {
            regs: registers_with(&state.registers),
            pc: state.pc,
            csrs: Csrs::from_values(state.csrs),
            msip: state.msip == 1,
            mtimecmp: state.mtimecmp,
            steps: state.steps,
        };
    }

    /// XORs 64 bytes into one of the 64 blocks of a page, which then counts as written. The guest has the page, as the caller knows.
    pub fn xor_block(&mut self, page: u32, block: u32, change: &[u8; BLOCK_BYTES])
        requires page { page_bytes * page + page_bytes ≤ length self.old.guest.ram }
        requires block { block < 64 }
        ensures { self.new ≡ record self.old {
          guest = with_block self.old.guest page block change.now;
          written = marked self.old.written (block_place page block) 64;
        } }
    {
        self.ram.xor_block(page, block, change);
    }

    /// XORs 64 bytes into one of the 64 blocks of a page, as an image takes them in, which needs nothing of what stood there before: no
    /// page counts as written, before as after, so that the memory of the last settle changes along, and no page is copied. The guest
    /// has the page, and no page counts as written, as the caller knows.
    pub fn xor_settled(&mut self, page: u32, block: u32, change: &[u8; BLOCK_BYTES])
        requires page { page_bytes * page + page_bytes ≤ length self.old.guest.ram }
        requires block { block < 64 }
        requires settled { self.old.written ≡ replicate (length self.old.written) false }
        ensures { self.new ≡ record self.old {
          guest = with_block self.old.guest page block change.now;
          settled = (with_block self.old.guest page block change.now).ram;
        } }
    {
        self.pages.clear();
        self.ram.xor_settled(page, block, change);
    }

    /// Puts other bytes in the place of a sector's, and the sector into the list of the written ones. The guest's disk has it, as the
    /// caller knows. It takes no memory.
    pub fn put_sector(&mut self, sector: u32, bytes: &[u8; SECTOR_BYTES])
        requires { sector < sector_count self.old.guest.sectors }
        ensures { self.new ≡ record self.old {
          guest = with_sector self.old.guest sector bytes.now;
          dirty = with_written self.old.dirty sector 1;
        } }
    {
        self.devices.put_sector(sector, bytes);
    }
}
