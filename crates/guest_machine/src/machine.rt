//! A machine: the guest and the frames that it sent.
ghost use Rattle.std.specs.Prelude.{◌≡◌, ◌-◌, ◌*◌, ◌<◌, ◌≤◌, ◌↔◌, [], ◌++◌, false, length, replicate, IsErr, IfOk, IfSome, OnOk, OnErr, Err};
ghost use Rattle.memory_wanted.specs.Wanted.{wanted};
ghost use Rattle.net_device.specs.Receive.{received};
ghost use Rattle.paged_memory.specs.Pages.{boot_bytes, settled_at};
ghost use Rattle.guest_rules.specs.Flags.{KeepsFlags};
ghost use Rattle.guest_rules.specs.Guest.{boot_guest};
ghost use Rattle.guest_rules.specs.Limits.{page_bytes, stepping_frames};
ghost use Rattle.guest_rules.specs.Runs.{after_steps, sent_in, marked_in, HaveRoom};
ghost use Rattle.guest_rules.specs.Step.{next, sent, marked, arrived};

use crate::decoded_pages::DecodedPages;
use crate::devices::Devices;
use crate::errors::MachineError;
use crate::hart::Hart;
use crate::laps::Looks;
use crate::prepared_words::PreparedWords;
use crate::ram::Ram;
use crate::step::run_step;
use crate::stretches::run_stretch;
use bus_map::RAM_BASE;
use guest_rules::Shape;
use mtraps::Csrs;
use net_device::{Frame, Outbox};
use paged_memory::Memory;
use rv64_core::Regs;
use std::alloc::Global;
use std::marker::Model;

/// How many frames the outbox may hold for a step: 64 of its 256 places are then free, as many as one step can take.
pub(crate) const STEPPING_FRAMES: usize = 192;

/// A guest, and since the last [`settle`](Machine::settle) the frames that it sent, and which pages and sectors were written. All
/// memory that its calls need is reserved at boot.
pub struct Machine {
    pub(crate) hart: Hart,
    pub(crate) ram: Ram,
    pub(crate) devices: Devices,
    pub(crate) outbox: Outbox,
    words: PreparedWords,
    pub(crate) pages: DecodedPages,
    looks: Looks,
}

// Proved here, and not in each crate above that keeps one in a `Box` or an `Option`.
impl Drop for Machine {
    fn drop(self) {
        let Machine {
            hart: _,
            ram: _,
            devices: _,
            outbox: _,
            words: _,
            pages: _,
            looks: _,
        } = self;
    }
}

impl Model for Machine {
    ghost use Rattle.guest_rules.specs.Guest.{State};
    ghost use Rattle.guest_machine.specs.Parts.{guest_of, state_with};

    ghost Value = { State };

    ghost use Rattle.guest_rules.specs.Aligned.{IsAligned};
    ghost use Rattle.guest_machine.specs.PageOps.{AreDecoded};

    ghost view = { λ m. state_with m.hart m.ram.memory m.devices m.outbox };

    ghost invariant = { λ m. IsAligned (guest_of m.hart m.ram.memory.bytes m.devices)
        × AreDecoded m.ram.memory.settled m.pages.owners.items m.pages.pool.items };
}

impl Machine {
    /// The guest at boot, with an empty outbox and no sector written: the image's bytes stand from [`RAM_BASE`] on, where the pc
    /// is, and all else is 0, the disk too. The image fits in memory, as the caller knows.
    ///
    /// # Errors
    /// `NoMemory` where memory is refused.
    #[tactic(auto, unfolding(guest_rules::specs::Guest::boot_guest))]
    pub fn boot(alloc: Global, shape: Shape, image: &[u8]) -> Result<Machine, MachineError>
        requires { length image.now ≤ page_bytes * shape.pages }
        ensures guest { IfOk result (λ machine. machine.guest ≡ boot_guest shape.pages shape.sectors image.now) }
        ensures outbox { IfOk result (λ machine. machine.outbox ≡ []) }
        ensures dirty { IfOk result (λ machine. machine.dirty ≡ []) }
        ensures settled { IfOk result (λ machine. machine.settled ≡ machine.guest.ram) }
        ensures written { IfOk result (λ machine. machine.written ≡ replicate shape.pages false) }
        ensures err { OnErr result (result ≡ Err (MachineError.NoMemory wanted)) }
    {
        let memory = Memory::boot(alloc, shape.pages, image)?;
        Machine::with_memory(alloc, shape, memory)
    }

    /// The guest at boot with an empty image, as [`boot`](Machine::boot) makes it. Where there is a spare machine with as many pages, which
    /// is given up, its memory is used again: that takes time by the pages that bytes were put into, and not by all.
    ///
    /// # Errors
    /// `NoMemory` where memory is refused. The spare machine is given up then too.
    #[tactic(auto, unfolding(guest_rules::specs::Guest::boot_guest))]
    pub fn boot_empty(
        alloc: Global,
        shape: Shape,
        spare: Option<Machine>,
    ) -> Result<Machine, MachineError>
        ensures guest { IfOk result (λ machine. machine.guest ≡ boot_guest shape.pages shape.sectors []) }
        ensures outbox { IfOk result (λ machine. machine.outbox ≡ []) }
        ensures dirty { IfOk result (λ machine. machine.dirty ≡ []) }
        ensures settled { IfOk result (λ machine. machine.settled ≡ machine.guest.ram) }
        ensures written { IfOk result (λ machine. machine.written ≡ replicate shape.pages false) }
        ensures err { OnErr result (result ≡ Err (MachineError.NoMemory wanted)) }
    {
        let memory = match spare.and_then(|machine| machine.cleared(shape.pages)) {
            Some(memory) => memory,
            None => Memory::boot(alloc, shape.pages, &[])?,
        };
        Machine::with_memory(alloc, shape, memory)
    }

    /// The memory of a machine that is given up, as at boot with an empty image, if it has so many pages.
    fn cleared(self, pages: u32) -> Option<Memory>
        ensures { IfSome result (λ memory. memory ≡ settled_at (boot_bytes pages []) pages 0) }
    {
        let Machine {
            hart: _,
            ram: Ram { mut memory },
            devices: _,
            outbox: _,
            words: _,
            pages: _,
            looks: _,
        } = self;
        if memory.pages() != pages {
            return None;
        }
        memory.clear();
        Some(memory)
    }

    /// The guest at boot with these bytes in memory, of which no page counts as written.
    #[tactic(auto, unfolding(guest_rules::specs::Guest::boot_guest))]
    fn with_memory(alloc: Global, shape: Shape, memory: Memory) -> Result<Machine, MachineError>
        requires settled { memory.settled ≡ memory.bytes }
        ensures guest { IfOk result (λ machine. machine.guest ≡ record (boot_guest 1 shape.sectors []) { ram = memory.bytes }) }
        ensures outbox { IfOk result (λ machine. machine.outbox ≡ []) }
        ensures dirty { IfOk result (λ machine. machine.dirty ≡ []) }
        ensures settled { IfOk result (λ machine. machine.settled ≡ memory.bytes) }
        ensures written { IfOk result (λ machine. machine.written ≡ memory.written) }
        ensures err { OnErr result (result ≡ Err (MachineError.NoMemory wanted)) }
    {
        let devices = Devices::boot(alloc, shape.sectors)?;
        let outbox = Outbox::new(alloc)?;
        let words = PreparedWords::boot(alloc)?;
        let pages = DecodedPages::boot(alloc)?;
        let looks = Looks::boot(alloc)?;
        Ok(Machine {
            hart: Hart {
                regs: Regs::new(),
                pc: RAM_BASE,
                csrs: Csrs::boot(),
                msip: false,
                mtimecmp: u64::MAX,
                steps: 0,
            },
            ram: Ram { memory },
            devices,
            outbox,
            words,
            pages,
            looks,
        })
    }

    /// Has at most so many pages decoded at a time from now on, or the nearest number of 1 to 256; it's 256 after boot. A page from which
    /// the guest runs is decoded as it is reached, and then takes 11 KB; where there are as many as may be, the oldest gives way. The guest
    /// that runs is the same, and its steps take longer where it runs from more pages.
    pub fn limit_decoded_pages(&mut self, most: usize)
        ensures { self.new ≡ self.old }
    {
        self.pages.limit(most);
    }

    /// How many pages are decoded, of 256 at most: each takes 11 KB.
    pub fn decoded_pages(&self) -> usize
        ensures { result ≤ 256 }
    {
        self.pages.count()
    }

    /// One step of the guest: an interrupt that is due, or else one instruction or its exception. The frames that it sends, at
    /// most 64 of them, go last into the outbox, and the sectors that it writes go into their list. It takes no memory.
    ///
    /// # Errors
    /// `CutNeeded`, exactly where the outbox holds more than 192 frames; nothing is changed then.
    pub fn step(&mut self) -> Result<(), MachineError>
        ensures guest { OnOk result (self.new.guest ≡ next self.old.guest) }
        ensures outbox { OnOk result (self.new.outbox ≡ self.old.outbox ++ sent self.old.guest) }
        ensures dirty { OnOk result (self.new.dirty ≡ marked self.old.guest self.old.dirty) }
        ensures settled { self.new.settled ≡ self.old.settled }
        ensures flags { KeepsFlags self.old.written self.new.written }
        ensures refused { IsErr result ↔ (stepping_frames < length self.old.outbox) }
        ensures err { OnErr result ((result ≡ Err MachineError.CutNeeded) × (self.new ≡ self.old)) }
    {
        if self.run(1) == 1 {
            Ok(())
        } else {
            Err(MachineError::CutNeeded)
        }
    }

    /// Steps of the guest, as [`step`](Machine::step) makes them one by one: `count` of them, or fewer where one finds more than 192
    /// frames in the outbox, so that a cut is needed before it. The answer is how many were made. It takes no memory.
    pub fn run(&mut self, count: u64) -> u64
        ensures most { result ≤ count }
        ensures guest { self.new.guest ≡ after_steps result self.old.guest }
        ensures outbox { self.new.outbox ≡ self.old.outbox ++ sent_in result self.old.guest }
        ensures dirty { self.new.dirty ≡ marked_in result self.old.guest self.old.dirty }
        ensures settled { self.new.settled ≡ self.old.settled }
        ensures flags { KeepsFlags self.old.written self.new.written }
        ensures room { HaveRoom result self.old.guest self.old.outbox }
        ensures unchanged { result ≡ 0 → self.new ≡ self.old }
        ensures cut_needed { result < count → stepping_frames < length self.new.outbox }
    {
        self.run_while(count, STEPPING_FRAMES)
    }

    /// Steps of the guest, as [`run`](Machine::run) makes them, for one whose frames are to leave at once: no step is made after one that
    /// sent a frame, and none at all while the outbox isn't empty. The answer is how many were made. It takes no memory.
    pub fn run_to_frame(&mut self, count: u64) -> u64
        ensures most { result ≤ count }
        ensures guest { self.new.guest ≡ after_steps result self.old.guest }
        ensures outbox { self.new.outbox ≡ self.old.outbox ++ sent_in result self.old.guest }
        ensures dirty { self.new.dirty ≡ marked_in result self.old.guest self.old.dirty }
        ensures settled { self.new.settled ≡ self.old.settled }
        ensures flags { KeepsFlags self.old.written self.new.written }
        ensures room { HaveRoom result self.old.guest self.old.outbox }
        ensures unchanged { result ≡ 0 → self.new ≡ self.old }
        ensures quiet { sent_in (result - 1) self.old.guest ≡ [] }
        ensures empty { 0 < result → self.old.outbox ≡ [] }
        ensures stopped { result < count → 0 < length self.new.outbox }
    {
        self.run_while(count, 0)
    }

    /// Steps of the guest, one by one: `count` of them, or fewer where one finds more than `limit` frames in the outbox.
    #[inline]
    pub(crate) fn run_while(&mut self, count: u64, limit: usize) -> u64
        requires { limit ≤ stepping_frames }
        ensures most { result ≤ count }
        ensures guest { self.new.guest ≡ after_steps result self.old.guest }
        ensures outbox { self.new.outbox ≡ self.old.outbox ++ sent_in result self.old.guest }
        ensures dirty { self.new.dirty ≡ marked_in result self.old.guest self.old.dirty }
        ensures settled { self.new.settled ≡ self.old.settled }
        ensures flags { KeepsFlags self.old.written self.new.written }
        ensures room { HaveRoom result self.old.guest self.old.outbox }
        ensures unchanged { result ≡ 0 → self.new ≡ self.old }
        ensures before { 0 < result → length (self.old.outbox ++ sent_in (result - 1) self.old.guest) ≤ limit }
        ensures stopped { result < count → limit < length self.new.outbox }
    {
        let mut made = 0;
        while made < count && self.outbox.len() <= limit {
            made += run_stretch(
                &mut self.hart,
                &mut self.ram,
                &self.devices,
                &mut self.words,
                &mut self.pages,
                &mut self.looks,
                count - made,
            );
            // What ended the stretch takes a step that may do anything.
            if made < count {
                run_step(
                    &mut self.hart,
                    &mut self.ram,
                    &mut self.devices,
                    &mut self.outbox,
                );
                made += 1;
            }
        }
        made
    }

    /// A frame arrives at the guest: its network card puts it into the next chain of the receive queue (virtio 1.1, 5.1.6). Says
    /// whether the guest has it. It is lost, and nothing changes, where that queue isn't in service, has no chain available, or
    /// the chain is too short; where the queue or the chain is malformed, it is lost and the card needs a reset.
    ///
    /// It is no step, it sends nothing, and it takes no memory. The frame has at least 14 bytes, as the caller knows.
    #[tactic(auto, unfolding(guest_rules::specs::Step::arrived))]
    pub fn arrive(&mut self, frame: &Frame) -> bool
        requires long { 14 ≤ length frame.now.items }
        ensures guest { self.new.guest ≡ arrived self.old.guest frame.now }
        ensures outbox { self.new.outbox ≡ self.old.outbox }
        ensures dirty { self.new.dirty ≡ self.old.dirty }
        ensures settled { self.new.settled ≡ self.old.settled }
        ensures flags { KeepsFlags self.old.written self.new.written }
        ensures taken { result ≡ (received self.old.guest.ram self.old.guest.net frame.now).taken }
    {
        self.devices.receive(&mut self.ram, frame)
    }

    /// Empties the outbox and the list of written sectors. From now on no page counts as written, and the bytes of the last settle
    /// are those that memory has now.
    pub fn settle(&mut self)
        ensures { self.new ≡ record self.old {
          outbox = [];
          dirty = [];
          settled = self.old.guest.ram;
          written = replicate (length self.old.written) false;
        } }
    {
        self.outbox.clear();
        self.devices.settle();
        self.pages.drop_written(&self.ram.memory);
        self.ram.memory.settle();
    }

    /// Empties the outbox, and nothing else: what was written since the last settle still counts so. It copies no page.
    pub fn clear_outbox(&mut self)
        ensures { self.new ≡ record self.old { outbox = [] } }
    {
        self.outbox.clear();
    }
}
