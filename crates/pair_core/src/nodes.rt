//! The two nodes: the primary's live machine, and at the backup the image and the checkpoints that may still be committed, each as the
//! text that a link carries.
//!
//! A machine, an image or a checkpoint that is let go on one of several ways out goes by a call of `drop`: at the end of a scope the
//! prover goes through each of its fields, on every such way, which took it half a minute for one function.
ghost use Rattle.std.specs.Prelude.{◌≡◌, ◌^◌, ◌≤◌, ◌<◌, [], length, All, None, OnOk, IfOk};
ghost use Rattle.std.specs.Prelude.{option_map, ◌-◌, ◌*◌};
ghost use Rattle.frame_ports.specs.Addresses.{IsFrame};
ghost use Rattle.guest_rules.specs.Guest.{Guest, sector_in};
ghost use Rattle.guest_rules.specs.Limits.{page_bytes};
ghost use Rattle.guest_rules.specs.Runs.{HaveRoom, sent_in};
ghost use Rattle.epoch_snapshot.specs.Bases.{IsBase};
ghost use Rattle.checkpoint_stream.specs.Readings.{begun, fed};
ghost use Rattle.checkpoint_stream.specs.declared.place.Place.TheVariants.{Whole};
ghost use Rattle.pair_core.specs.Nodes.{HasShape, machine_of, start_nodes, after_run, with_arrival, with_sealed, with_commit};
ghost use Rattle.pair_core.specs.Nodes.{HasImage, with_sent_off, with_protected, left_alone, gone_live};
ghost use Rattle.pair_core.specs.Nodes.{first_text, read_as};
ghost use Rattle.pair_core.specs.Texts.{IsText};
ghost use Rattle.backup_image.specs.Images.{empty_image};

use backup_image::{Image, ImageError, KeptFrames, Resumed};
use checkpoint_stream::{Reader, StreamError, encode};
use epoch_cuts::{cut_delta, cut_full};
use epoch_snapshot::Checkpoint;
use guest_machine::{Machine, MachineError, SECTOR_BYTES, Shape, sent_frames};
use memory_wanted::{MemoryWanted, reserve};
use pair_history::Frame;
use std::alloc::Global;
use std::marker::Model;

/// What both nodes hold. Contracts see it as `Housed` nodes of the specs.
#[derive(Drop)]
pub struct Nodes {
    alloc: Global,
    shape: Shape,
    live: Machine,
    /// None where a node is alone.
    image: Option<Image>,
    sealed: Vec<Vec<u8>>,
    /// The stopped primary's machine, kept until there is a new backup, whose machine gets its memory. Going live gives no memory back, which
    /// would take time by its size.
    retired: Option<Machine>,
}

impl Model for Nodes {
    ghost use Rattle.pair_core.specs.Nodes.{Housed};

    ghost Value = { Housed };

    ghost use Rattle.pair_core.specs.internal.NodesFields.{housed, AreFields};

    ghost view = { housed };

    ghost invariant = { AreFields };
}

impl Nodes {
    /// Both nodes boot from this image.
    pub(crate) fn boot(alloc: Global, shape: Shape, image: &[u8]) -> Result<Nodes, MemoryWanted>
        requires { length image.now ≤ page_bytes * shape.pages }
        ensures { IfOk result (λ n. n.nodes ≡ start_nodes shape image.now) }
    {
        let live = match Machine::boot(alloc, shape, image) {
            Ok(live) => live,
            Err(MachineError::NoMemory(wanted)) => return Err(wanted),
            Err(MachineError::CutNeeded) => unreachable!(),
        };
        let image = match Image::boot(alloc, shape, image) {
            Ok(image) => image,
            Err(ImageError::NoMemory(wanted)) => {
                drop(live);
                return Err(wanted);
            }
            Err(_) => unreachable!(),
        };
        Ok(Nodes {
            alloc,
            shape,
            live,
            image: Some(image),
            sealed: Vec::new(alloc),
            retired: None,
        })
    }

    /// The live guest's step count.
    pub(crate) fn steps(&self) -> u64
        ensures { result ≡ self.now.nodes.live.guest.steps }
    {
        self.live.steps()
    }

    /// What the live guest sent since the last cut.
    pub(crate) fn outbox(&self) -> &[Frame]
        ensures value { result.now ≡ self.now.nodes.live.outbox }
        ensures frames { All IsFrame self.now.nodes.live.outbox }
        ensures most { length self.now.nodes.live.outbox ≤ 256 }
    {
        self.live.outbox()
    }

    /// The frames that the backup's image keeps, which there is, as the caller knows.
    pub(crate) fn kept(&self) -> &KeptFrames
        requires { HasImage self.now.nodes }
        ensures lists { result.now.lists ≡ self.now.nodes.image.kept }
        ensures sent { result.now.sent ≡ self.now.nodes.image.sent }
    {
        match &self.image {
            Some(image) => image.kept(),
            None => unreachable!(),
        }
    }

    /// The image's step count.
    pub(crate) fn image_steps(&self) -> u64
        requires { HasImage self.now.nodes }
        ensures { result ≡ self.now.nodes.image.guest.steps }
    {
        match &self.image {
            Some(image) => image.steps(),
            None => unreachable!(),
        }
    }

    /// The bytes of a sector of the live guest's disk, none beyond the disk.
    pub(crate) fn sector(&self, sector: u32) -> Option<&[u8; SECTOR_BYTES]>
        ensures { option_map (λ bytes. bytes.now) result ≡ sector_in self.now.nodes.live.guest.sectors sector }
    {
        if sector < self.live.sectors() {
            Some(self.live.sector(sector))
        } else {
            None
        }
    }

    /// The bytes of a sector of the image's disk, none beyond the disk.
    pub(crate) fn image_sector(&self, sector: u32) -> Option<&[u8; SECTOR_BYTES]>
        requires { HasImage self.now.nodes }
        ensures { option_map (λ bytes. bytes.now) result ≡ sector_in self.now.nodes.image.guest.sectors sector }
    {
        match &self.image {
            Some(image) => sector_of(image, sector),
            None => unreachable!(),
        }
    }

    /// The live guest makes steps, as many as the outbox has room for and `count` at most.
    pub(crate) fn run(&mut self, count: u64) -> u64
        ensures most { result ≤ count }
        ensures made { self.new.nodes ≡ after_run result self.old.nodes }
        ensures room { HaveRoom result self.old.nodes.live.guest self.old.nodes.live.outbox }
        ensures cut_needed { result < count → 192 < length self.new.nodes.live.outbox }
    {
        self.live.run(count)
    }

    /// The live guest, whose outbox is empty, makes steps, `count` at most and none after one that sent a frame.
    pub(crate) fn run_to_frame(&mut self, count: u64) -> u64
        requires { self.old.nodes.live.outbox ≡ [] }
        ensures most { result ≤ count }
        ensures some { 0 < count → 0 < result }
        // Only the last of them sends.
        ensures quiet { sent_in (result - 1) self.old.nodes.live.guest ≡ [] }
        ensures few { length (sent_in result self.old.nodes.live.guest) ≤ 64 }
        ensures made { self.new.nodes ≡ after_run result self.old.nodes }
    {
        sent_frames();
        self.live.run_to_frame(count)
    }

    /// What the live guest sent has landed.
    pub(crate) fn send_off(&mut self)
        ensures { self.new.nodes ≡ with_sent_off self.old.nodes }
    {
        self.live.clear_outbox();
    }

    /// The frame arrives at the live guest.
    pub(crate) fn arrive(&mut self, frame: &Frame)
        requires { 14 ≤ length frame.now.items }
        ensures { self.new.nodes ≡ with_arrival self.old.nodes frame.now }
    {
        let _taken = self.live.arrive(frame);
    }

    /// The text of the live machine's checkpoint, of this generation and number, and room for it among the sealed ones.
    pub(crate) fn checkpoint(
        &mut self,
        generation: u64,
        number: u64,
    ) -> Result<Vec<u8>, MemoryWanted>
        requires first_generation { 1 ≤ generation }
        requires last_generation { generation < 2 ^ 62 }
        requires first_number { 1 ≤ number }
        requires last_number { number < 2 ^ 62 }
        ensures nodes { self.new.nodes ≡ self.old.nodes }
        ensures room { OnOk result (0 < self.new.room) }
        // It reads back as the checkpoint that makes the live guest of the one that the live machine was last settled at, and carries
        // the frames in the outbox.
        ensures text { IfOk result (λ text. (base : Guest)
            → IsBase (machine_of self.old.nodes.live) base
            → HasShape self.old.nodes.image.shape self.old.nodes.live.guest
            → IsText self.old.nodes.image.shape generation number base self.old.nodes.live.guest self.old.nodes.live.outbox text.items) }
    {
        reserve(&mut self.sealed, 1)?;
        let checkpoint = cut_delta(self.alloc, &self.live, generation, number)?;
        encode(self.alloc, &checkpoint)
    }

    /// The checkpoint's text is sealed, and the live machine is settled.
    pub(crate) fn seal(&mut self, text: Vec<u8>)
        requires room { 0 < self.old.room }
        // There is a backup: its image could go on, or a text is sealed that will fill it.
        requires backup { self.old.nodes.image.stands_at ≡ None → 0 < length self.old.nodes.sealed }
        ensures { self.new.nodes ≡ with_sealed self.old.nodes text.items }
    {
        self.sealed.push(text).unwrap();
        self.live.settle();
    }

    /// A new backup's empty image, and the text of the full checkpoint of the live machine, of this generation; and room for that text.
    pub(crate) fn full_checkpoint(
        &mut self,
        generation: u64,
    ) -> Result<(Image, Vec<u8>), MemoryWanted>
        requires first_generation { 1 ≤ generation }
        requires last_generation { generation < 2 ^ 62 }
        ensures nodes { self.new.nodes ≡ self.old.nodes }
        ensures room { OnOk result (0 < self.new.room) }
        ensures image { IfOk result (λ made. made.0 ≡ empty_image self.old.nodes.image.shape) }
        // It reads back as the checkpoint that makes the live guest, whatever guest it is applied to, and carries no frames.
        ensures text { IfOk result (λ made. (before : Guest)
            → HasShape self.old.nodes.image.shape self.old.nodes.live.guest
            → IsText self.old.nodes.image.shape generation 0 before self.old.nodes.live.guest [] made.1.items) }
    {
        reserve(&mut self.sealed, 1)?;
        let checkpoint = cut_full(self.alloc, &self.live, generation)?;
        let encoded = encode(self.alloc, &checkpoint);
        drop(checkpoint);
        let text = encoded?;
        // The new backup's machine has the memory that the stopped one had.
        let spare = std::mem::replace(&mut self.retired, None);
        let image = match Image::empty_with(self.alloc, self.shape, spare) {
            Ok(image) => image,
            Err(ImageError::NoMemory(wanted)) => return Err(wanted),
            Err(_) => unreachable!(),
        };
        Ok((image, text))
    }

    /// There is a new backup, of this empty image and this text, and the live machine is settled.
    pub(crate) fn protect(&mut self, image: Image, full: Vec<u8>)
        requires room { 0 < self.old.room }
        requires image { image ≡ empty_image self.old.nodes.image.shape }
        ensures { self.new.nodes ≡ with_protected self.old.nodes full.items }
    {
        drop(std::mem::replace(&mut self.image, Some(image)));
        self.sealed.clear();
        self.sealed.push(full).unwrap();
        self.live.settle();
    }

    /// The oldest sealed checkpoint, read from its text as a link carries it. That the text is a whole one the caller knows.
    pub(crate) fn oldest(&self) -> Result<Checkpoint, MemoryWanted>
        requires some { 0 < length self.now.nodes.sealed }
        requires whole { (fed (begun self.now.nodes.image.shape 0) (first_text self.now.nodes.sealed)).place ≡ Whole }
        ensures { IfOk result (λ checkpoint. checkpoint ≡ read_as self.now.nodes.image.shape (first_text self.now.nodes.sealed)) }
    {
        let mut reader = Reader::new(self.alloc, self.shape);
        match reader.feed(self.sealed[0].as_slice()) {
            Ok(_) => {}
            Err(StreamError::NoMemory(wanted)) => {
                drop(reader);
                return Err(wanted);
            }
            Err(StreamError::Malformed(_)) => unreachable!(),
        }
        match reader.next() {
            Some(checkpoint) => Ok(checkpoint),
            None => unreachable!(),
        }
    }

    /// The backup's image takes this checkpoint in, which was read from the oldest sealed text, and that text goes.
    pub(crate) fn commit(&mut self, checkpoint: Checkpoint)
        requires some { 0 < length self.old.nodes.sealed }
        requires shape { checkpoint.shape ≡ self.old.nodes.image.shape }
        requires oldest { checkpoint ≡ read_as self.old.nodes.image.shape (first_text self.old.nodes.sealed) }
        ensures { self.new.nodes ≡ with_commit self.old.nodes }
    {
        let Some(image) = &mut self.image else {
            unreachable!();
        };
        let _staged = image.stage(checkpoint);
        image.commit();
        drop(self.sealed.remove(0));
    }

    /// The backup is given up, and what the live guest sent has landed.
    pub(crate) fn leave_alone(&mut self)
        ensures { self.new.nodes ≡ left_alone self.old.nodes }
    {
        drop(std::mem::replace(&mut self.image, None));
        self.sealed.clear();
        self.live.clear_outbox();
    }

    /// The backup goes live: from now on its image's guest is the live one, and there is no backup.
    pub(crate) fn go_live(&mut self)
        requires { HasImage self.old.nodes }
        ensures { self.new.nodes ≡ gone_live self.old.nodes }
    {
        let Some(image) = std::mem::replace(&mut self.image, None) else {
            unreachable!();
        };
        let Some(resumed) = image.resume().ok() else {
            unreachable!();
        };
        let Resumed { machine, kept } = resumed;
        let stopped = std::mem::replace(&mut self.live, machine);
        drop(std::mem::replace(&mut self.retired, Some(stopped)));
        drop(kept);
        self.sealed.clear();
    }
}

/// The bytes of a sector of an image's disk, none beyond the disk.
fn sector_of(image: &Image, sector: u32) -> Option<&[u8; SECTOR_BYTES]>
    ensures { option_map (λ bytes. bytes.now) result ≡ sector_in image.now.guest.sectors sector }
{
    if sector < image.shape().sectors {
        Some(image.sector(sector))
    } else {
        None
    }
}
