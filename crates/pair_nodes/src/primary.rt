//! The primary: the machine, what waits for acknowledgement, and the numbers.
ghost use Rattle.std.specs.Prelude.{◌≡◌, ◌≤◌, ◌+◌, ◌*◌, [], All, IfOk, true, false, length, option_map, vec_capacity};
ghost use Rattle.frame_ports.specs.Addresses.{IsFrame};
ghost use Rattle.frame_ports.specs.Limits.{number_limit};
ghost use Rattle.guest_rules.specs.Guest.{sector_in};
ghost use Rattle.guest_rules.specs.Limits.{page_bytes};
ghost use Rattle.guest_rules.specs.Pages.{is_written, page_of};
ghost use Rattle.output_gate.specs.Epochs.{frames_of};
ghost use Rattle.pair_record.specs.Limits.{most_pending};
ghost use Rattle.pair_record.specs.Modes.{is_alone};
ghost use Rattle.pair_core.specs.Nodes.{HasShape, node_of};
ghost use Rattle.pair_nodes.specs.Bounds.{IsBoundedPrimary, primary_bytes, most_primary_bytes};
ghost use Rattle.pair_nodes.specs.Flagged.{begun_primary, written_of};
ghost use Rattle.pair_nodes.specs.PrimaryCalls.{booted_primary, mode_of};

mod cuts;
mod full;
mod letting_go;
mod steps;

use crate::generations::first_alone;
use crate::texts::room;
use failover::{Generation, Mode};
use full_text::MachineTexts;
use guest_machine::{Machine, MachineError, SECTOR_BYTES, Shape};
use memory_wanted::MemoryWanted;
use output_gate::{Gate, GateError};
use pair_core::Frame;
use std::alloc::Global;
use std::marker::Model;

/// Where the next frame's number is above this, too few are left for the frames of an epoch and of what may follow it.
const LAST_FRAME: u64 = 4611686018427386881;

/// The node that runs the guest, with or without a standby. Contracts see it as a `Flagged` of the specs.
///
/// It keeps no history: only the guest's machine, and of at most four pending checkpoints the texts and the frames.
pub struct PrimaryNode {
    alloc: Global,
    shape: Shape,
    kept: MachineTexts,
    generation: Generation,
    to_cut: u64,
    gate: Gate,
}

impl Model for PrimaryNode {
    ghost use Rattle.pair_nodes.specs.Flagged.{Flagged};

    ghost Value = { Flagged };

    ghost use Rattle.pair_nodes.specs.internal.NodeFields.{flagged_state, IsPrimary};

    ghost view = { flagged_state };

    ghost invariant = { IsPrimary };
}

/// Its generation ends with it.
impl Drop for PrimaryNode {
    fn drop(self) {
        let PrimaryNode {
            alloc: _,
            shape: _,
            kept,
            generation,
            to_cut: _,
            gate,
        } = self;
        drop(kept);
        drop(gate);
        generation.end();
    }
}

impl PrimaryNode {
    /// The guest boots from this image, which fits in its memory, as the caller knows: a primary that is alone, in generation 1.
    ///
    /// # Errors
    /// The growth that was really refused.
    #[tactic(auto, using(crate::proofs::Sized::sized_at_boot))]
    pub fn boot(alloc: Global, shape: Shape, image: &[u8]) -> Result<PrimaryNode, MemoryWanted>
        requires { length image.now ≤ page_bytes * shape.pages }
        ensures { IfOk result (λ p. p ≡ begun_primary (booted_primary shape image.now)) }
    {
        let gate = match Gate::new(alloc) {
            Ok(gate) => gate,
            Err(GateError::NoMemory(wanted)) => return Err(wanted),
        };
        let machine = match Machine::boot(alloc, shape, image) {
            Ok(machine) => machine,
            Err(MachineError::NoMemory(wanted)) => return Err(wanted),
            Err(MachineError::CutNeeded) => unreachable!(),
        };
        let texts = match room(alloc) {
            Ok(texts) => texts,
            Err(wanted) => {
                drop(machine);
                return Err(wanted);
            }
        };
        Ok(PrimaryNode::lone(alloc, shape, machine, first_alone(), 1, gate, texts))
    }

    /// A primary of this machine that has no standby, and holds nothing at its gate.
    pub(crate) fn lone(
        alloc: Global,
        shape: Shape,
        machine: Machine,
        generation: Generation,
        to_cut: u64,
        gate: Gate,
        texts: Vec<Vec<u8>>,
    ) -> PrimaryNode
        requires mode { is_alone generation.mode ≡ true }
        requires first_cut { 1 ≤ to_cut }
        requires last_cut { to_cut ≤ number_limit }
        requires sized { HasShape shape machine.guest }
        requires outbox { machine.outbox ≡ [] }
        requires gate { gate.epochs ≡ [] }
        requires next { gate.next ≤ number_limit }
        requires texts { texts.items ≡ [] }
        requires room { most_pending ≤ vec_capacity texts }
        ensures { result ≡ record {
          primary = record {
            live = node_of machine;
            shape = shape;
            generation = generation.number;
            backed = false;
            to_cut = to_cut;
            pending = [];
            texts = [];
            next_frame = gate.next;
          };
          flags = machine.written;
        } }
    {
        PrimaryNode {
            alloc,
            shape,
            kept: MachineTexts::new(machine, texts),
            generation,
            to_cut,
            gate,
        }
    }

    /// Whether it has a standby, which may still have to be filled.
    pub fn is_backed(&self) -> bool
        ensures { result ≡ self.now.primary.backed }
    {
        !matches!(self.generation.mode(), Mode::Alone)
    }

    /// Alone; filling, until the full checkpoint is acknowledged; or paired.
    pub fn mode(&self) -> Mode
        ensures { result ≡ mode_of self.now.primary }
    {
        self.generation.mode()
    }

    /// The number of its generation, from 1 to 2^62 - 1.
    pub fn generation(&self) -> u64
        ensures { result ≡ self.now.primary.generation }
    {
        self.generation.number()
    }

    /// The number of the next checkpoint, from 1 to 2^62.
    pub fn to_cut(&self) -> u64
        ensures { result ≡ self.now.primary.to_cut }
    {
        self.to_cut
    }

    /// How many checkpoints are cut and not acknowledged, at most 4.
    pub fn pending(&self) -> usize
        ensures value { result ≡ length self.now.primary.pending }
        ensures few { result ≤ 4 }
    {
        self.kept.count()
    }

    /// How many steps the guest has made since boot, modulo 2^64.
    pub fn steps(&self) -> u64
        ensures { result ≡ self.now.primary.live.guest.steps }
    {
        self.kept.machine().steps()
    }

    /// How many pages the guest has written since the last cut, or, where there was none, since this primary began, also where their bytes
    /// are the same as then: so many pages the next cut compares.
    pub fn written(&self) -> usize
        ensures { result ≡ written_of self.now }
    {
        self.kept.machine().dirty_count()
    }

    /// A page of the guest's that doesn't count as written has the bytes that it had at the last cut, or, where there was none, where this
    /// primary began: so none that changed is missing from [`written`](PrimaryNode::written). The guest has the page, as the caller knows.
    pub fn an_unwritten_page_is_kept(&self, page: u32)
        requires { page_bytes * page + page_bytes ≤ length self.now.primary.live.guest.ram }
        ensures { is_written self.now.flags page ≡ false
            → page_of self.now.primary.live.guest.ram page ≡ page_of self.now.primary.live.settled page }
    {
        let _written = self.kept.machine().dirty(page);
    }

    /// The bytes of a sector of the guest's disk, none beyond the disk.
    pub fn sector(&self, sector: u32) -> Option<&[u8; SECTOR_BYTES]>
        ensures { option_map (λ bytes. bytes.now) result ≡ sector_in self.now.primary.live.guest.sectors sector }
    {
        if sector < self.kept.machine().sectors() {
            Some(self.kept.machine().sector(sector))
        } else {
            None
        }
    }

    /// However long it runs, it holds no more than its shape says: the guest's memory twice, its disk, and of at most four checkpoints the
    /// texts and the frames. What it takes beside these lists while it makes a full checkpoint's text isn't counted: docs/LIMITS.md tells it.
    pub fn what_it_holds_is_bounded(&self)
        ensures lists { IsBoundedPrimary self.now.primary }
        ensures bytes { primary_bytes self.now.primary ≤ most_primary_bytes self.now.primary.shape }
    {
        let _shape = self.kept.machine().shape();
        let _written = self.kept.machine().dirty_sectors();
        let _sent = self.outbox();
        let _held = self.held();
    }

    /// What the guest sent since the last cut, or, where it is alone, since the last call of [`release`](PrimaryNode::release).
    pub fn outbox(&self) -> &[Frame]
        ensures value { result.now ≡ self.now.primary.live.outbox }
        ensures frames { All IsFrame result.now }
        ensures few { length result.now ≤ 256 }
    {
        self.kept.machine().outbox()
    }

    /// What the guest sent along the epochs of the pending checkpoints, in the order sent.
    pub fn held(&self) -> &[Frame]
        ensures value { result.now ≡ frames_of self.now.primary.pending }
        ensures frames { All IsFrame result.now }
        ensures few { length result.now ≤ 1024 }
    {
        self.gate.held(self.to_cut)
    }
}

/// The outbox has no more frames than places.
fn few_frames(machine: &Machine)
    ensures { length machine.now.outbox ≤ 256 }
{
    let _frames = machine.outbox();
}
