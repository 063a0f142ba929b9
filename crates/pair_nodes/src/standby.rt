//! The standby: the guest as of the last checkpoint that it committed, and the generation whose checkpoints it takes.
ghost use Rattle.std.specs.Prelude.{◌≡◌, ◌≤◌, ◌<◌, [], IfOk, IfErr, OnOk, length, option_map, vec_capacity};
ghost use Rattle.checkpoint_stream.specs.Answers.{FeedAnswers};
ghost use Rattle.backup_image.specs.Kept.{sent_with};
ghost use Rattle.failover.specs.Generations.{generation_limit};
ghost use Rattle.frame_ports.specs.Limits.{number_limit};
ghost use Rattle.guest_rules.specs.Guest.{HasDeviceRecords, sector_in};
ghost use Rattle.pair_record.specs.Limits.{most_pending};
ghost use Rattle.pair_nodes.specs.Bounds.{IsBoundedStandby, standby_bytes, most_standby_bytes};
ghost use Rattle.pair_nodes.specs.Flagged.{begun_primary};
ghost use Rattle.pair_nodes.specs.Refusing.{IsFree, IsWhyOrMemory};
ghost use Rattle.pair_record.specs.Tables.{first_refusal};
ghost use Rattle.pair_nodes.specs.Sides.{to_commit, live_of, new_standby, restarted, after_commit};
ghost use Rattle.pair_nodes.specs.StandbyCalls.{is_empty, whole_packet, commit_outcome, live_rows, commit_rows, commit_answer, taken_in};

use crate::generations::{end_filling, gone_live};
use crate::primary::PrimaryNode;
use crate::texts::room;
use backup_image::{Image, ImageError, NUMBER_LIMIT, Resumed};
use checkpoint_stream::{Reader, StreamError};
use epoch_snapshot::Checkpoint;
use failover::{GENERATION_LIMIT, Generation};
use guest_machine::{Machine, SECTOR_BYTES, Shape};
use memory_wanted::MemoryWanted;
use output_gate::{Gate, GateError};
use pair_core::{Packet, Refusal};
use std::alloc::Global;
use std::marker::Model;

/// Which checkpoint is to be acknowledged after a commit.
#[derive(Clone, Copy, PartialEq, Eq)]
pub enum Commit {
    /// The one that was committed.
    Committed(Packet),
    /// One that was committed before came again: the last one committed.
    Again(Packet),
}

/// The node that could go on in the primary's place. Contracts see it as a `Standby` of the specs.
///
/// It keeps no history: only the image of the last commit, and what has come of the next checkpoint's text.
pub struct StandbyNode {
    alloc: Global,
    generation: Generation,
    image: Image,
    reader: Reader,
}

impl Model for StandbyNode {
    ghost use Rattle.pair_nodes.specs.Sides.{Standby};

    ghost Value = { Standby };

    ghost use Rattle.pair_nodes.specs.internal.NodeFields.{standby_state, IsStandby};

    ghost view = { standby_state };

    ghost invariant = { IsStandby };
}

/// Its generation ends with it.
impl Drop for StandbyNode {
    fn drop(self) {
        let StandbyNode {
            alloc: _,
            generation,
            image,
            reader,
        } = self;
        drop(image);
        drop(reader);
        generation.end();
    }
}

impl StandbyNode {
    /// A new standby, which waits for the full checkpoint of this generation, from 1 to 2^62 - 1, of a guest of this shape.
    ///
    /// # Errors
    /// The growth that was really refused.
    pub fn new(alloc: Global, shape: Shape, generation: u64) -> Result<StandbyNode, MemoryWanted>
        requires first { 1 ≤ generation }
        requires last { generation < generation_limit }
        ensures { IfOk result (λ b. b ≡ new_standby shape generation) }
    {
        let image = match Image::empty(alloc, shape) {
            Ok(image) => image,
            Err(ImageError::NoMemory(wanted)) => return Err(wanted),
            Err(_) => unreachable!(),
        };
        Ok(StandbyNode {
            alloc,
            generation: Generation::told(generation),
            image,
            reader: Reader::new(alloc, shape),
        })
    }

    /// The number of the generation that it was told, from 1 to 2^62 - 1.
    pub fn generation(&self) -> u64
        ensures { result ≡ self.now.generation }
    {
        self.generation.number()
    }

    /// Whether no full checkpoint is committed yet.
    pub fn is_empty(&self) -> bool
        ensures { result ≡ is_empty self.now }
    {
        self.image.standing().is_none()
    }

    /// The number of the checkpoint that it takes next, from 0 to 2^62.
    pub fn to_commit(&self) -> u64
        ensures { result ≡ to_commit self.now }
    {
        match self.image.standing() {
            Some(at) => at.number + 1,
            None => 0,
        }
    }

    /// How many steps its image's guest has made since boot, modulo 2^64; 0 while it is empty.
    pub fn steps(&self) -> u64
        ensures { result ≡ self.now.image.guest.steps }
    {
        self.image.steps()
    }

    /// The bytes of a sector of its image's disk, none beyond the disk.
    pub fn sector(&self, sector: u32) -> Option<&[u8; SECTOR_BYTES]>
        ensures { option_map (λ bytes. bytes.now) result ≡ sector_in self.now.image.guest.sectors sector }
    {
        if sector < self.image.shape().sectors {
            Some(self.image.sector(sector))
        } else {
            None
        }
    }

    /// However long it runs, it holds no more than its shape says: the guest's memory, its disk, the frames of four commits, and what has come
    /// of one text.
    pub fn what_it_holds_is_bounded(&self)
        ensures lists { IsBoundedStandby self.now }
        ensures bytes { standby_bytes self.now ≤ most_standby_bytes self.now.image.shape }
    {
        let _shape = self.image.shape();
        let _first = self.image.kept().first();
        self.reader.what_it_holds_is_bounded();
    }

    /// Takes the next bytes of a checkpoint's text: all, or those up to the text's end, and none while a complete checkpoint waits. Answers
    /// how many.
    ///
    /// # Errors
    /// [`StreamError::Malformed`] with the offset in the text of what breaks a rule, here and from each later call, until
    /// [`restart`](StandbyNode::restart). [`StreamError::NoMemory`] where a growth was really refused: nothing changes then.
    #[tactic(auto, using(crate::proofs::ReadShapes::answered_shape))]
    pub fn piece(&mut self, bytes: &[u8]) -> Result<usize, StreamError>
        ensures answers { FeedAnswers self.old.reading bytes.now result self.new.reading }
        ensures rest { self.new ≡ record self.old { reading = self.new.reading } }
        ensures within { IfOk result (λ count. count ≤ length bytes.now) }
    {
        self.reader.feed(bytes)
    }

    /// The generation and the number of the checkpoint that is complete, if one is.
    pub fn whole(&self) -> Option<Packet>
        ensures { result ≡ whole_packet self.now }
    {
        match self.reader.whole() {
            Some((generation, number)) => Some(Packet { generation, number }),
            None => None,
        }
    }

    /// The stream broke off: what has come of a text is given up, and the next piece begins one.
    pub fn restart(&mut self)
        ensures { self.new ≡ restarted self.old }
    {
        self.reader = Reader::new(self.alloc, self.image.shape());
    }

    /// Takes the complete checkpoint into the image, and says which one is to be acknowledged. It takes no memory.
    ///
    /// # Errors
    /// In this order: [`Refusal::NoImage`] where no checkpoint is complete, and nothing changes; [`Refusal::Stale`] for one of another
    /// generation; [`Refusal::Gap`] for one beyond the next number; [`Refusal::OldVersion`] for a delta of version 1, which carries no
    /// frames; [`Refusal::Exhausted`] where its frames have no numbers below 2^62. The checkpoint is given up then.
    #[tactic(auto, using(crate::proofs::ReadShapes::change_shape))]
    pub fn commit(&mut self) -> Result<Commit, Refusal>
        ensures { (result, self.new) ≡ commit_outcome self.old }
    {
        let Some(checkpoint) = self.reader.next() else {
            return Err(Refusal::NoImage);
        };
        self.restart();
        match self.refusal(&checkpoint) {
            Some(why) => {
                drop(checkpoint);
                Err(why)
            }
            None => Ok(self.take(checkpoint)),
        }
    }

    /// Why a checkpoint isn't taken.
    fn refusal(&self, checkpoint: &Checkpoint) -> Option<Refusal>
        ensures { result ≡ first_refusal (commit_rows self.now checkpoint.now) }
    {
        let next = self.to_commit();
        let number = checkpoint.number();
        if checkpoint.generation() != self.generation.number() {
            return Some(Refusal::Stale);
        }
        if number > next {
            return Some(Refusal::Gap);
        }
        if number == next && checkpoint.version() == 1 && number != 0 {
            return Some(Refusal::OldVersion);
        }
        if number == next && self.sent_with(checkpoint) >= NUMBER_LIMIT {
            return Some(Refusal::Exhausted);
        }
        None
    }

    /// The number of the last frame that the guest has sent, once this checkpoint is taken in.
    fn sent_with(&self, checkpoint: &Checkpoint) -> u64
        ensures { result ≡ sent_with checkpoint.now self.now.image.sent }
    {
        let frames = checkpoint.frames().len() as u64;
        if checkpoint.number() == 0 {
            frames
        } else {
            self.image.kept().sent() + frames
        }
    }

    /// Takes a checkpoint of the image's shape into the image, if it is the next one.
    fn take(&mut self, checkpoint: Checkpoint) -> Commit
        requires shape { checkpoint.shape ≡ self.old.image.shape }
        requires free { IsFree (commit_rows self.old checkpoint) }
        ensures answer { result ≡ commit_answer self.old checkpoint }
        ensures left { self.new ≡ taken_in self.old checkpoint }
    {
        let next = self.to_commit();
        let generation = self.generation.number();
        if checkpoint.number() < next {
            drop(checkpoint);
            let number = next - 1;
            return Commit::Again(Packet { generation, number });
        }
        self.take_in(checkpoint);
        Commit::Committed(Packet {
            generation,
            number: next,
        })
    }

    /// Takes the next checkpoint into the image.
    fn take_in(&mut self, checkpoint: Checkpoint)
        requires shape { checkpoint.shape ≡ self.old.image.shape }
        requires free { IsFree (commit_rows self.old checkpoint) }
        requires next { to_commit self.old ≤ checkpoint.number }
        requires last { checkpoint.number < number_limit }
        ensures { self.new ≡ after_commit self.old checkpoint }
    {
        let _staged = self.image.stage(checkpoint);
        self.image.commit();
        end_filling(&mut self.generation);
    }

    /// It goes on in the place of the primary, which has stopped: from the last committed state, in the next generation, without a standby.
    /// The frames which its image keeps are let go, and none of them is let out.
    ///
    /// # Errors
    /// In this order: [`Refusal::NoImage`] where no full checkpoint is committed; [`Refusal::Exhausted`] where there is no next generation;
    /// [`Refusal::NoMemory`]. It is handed back as it was.
    pub fn go_live(self) -> Result<PrimaryNode, (StandbyNode, Refusal)>
        ensures free { OnOk result (IsFree (live_rows self)) }
        ensures done { IfOk result (λ p. p ≡ begun_primary (live_of self)) }
        ensures why { IfErr result (λ refused. IsWhyOrMemory (live_rows self) refused.1) }
        ensures err { IfErr result (λ refused. refused.0 ≡ self) }
    {
        if self.is_empty() {
            return Err((self, Refusal::NoImage));
        }
        if self.generation.number() + 1 >= GENERATION_LIMIT {
            return Err((self, Refusal::Exhausted));
        }
        match lone_room(self.alloc) {
            Ok((gate, texts)) => Ok(self.live(gate, texts)),
            Err(wanted) => Err((self, Refusal::NoMemory(wanted))),
        }
    }

    /// The primary that goes on from its image, over an empty gate and room for texts.
    fn live(self, gate: Gate, texts: Vec<Vec<u8>>) -> PrimaryNode
        requires free { IsFree (live_rows self) }
        requires texts { texts.items ≡ [] }
        requires room { most_pending ≤ vec_capacity texts }
        ensures { result ≡ begun_primary (live_of self) }
    {
        let to_cut = self.to_commit();
        let StandbyNode {
            alloc,
            generation,
            image,
            reader,
        } = self;
        drop(reader);
        let shape = image.shape();
        let generation = gone_live(generation);
        let Some(Resumed { machine, kept }) = image.resume().ok() else {
            unreachable!();
        };
        has_records(&machine);
        let mut gate = gate;
        gate.begin(kept.sent());
        drop(kept);
        PrimaryNode::lone(alloc, shape, machine, generation, to_cut, gate, texts)
    }
}

/// What a machine's devices keep meets the rules of their records.
fn has_records(machine: &Machine)
    ensures { HasDeviceRecords machine.now.guest }
{
    machine.net();
    machine.disk();
}

/// An empty gate, and room for the texts of four checkpoints.
fn lone_room(alloc: Global) -> Result<(Gate, Vec<Vec<u8>>), MemoryWanted>
    ensures none { IfOk result (λ made. made.1.items ≡ []) }
    ensures room { IfOk result (λ made. most_pending ≤ vec_capacity made.1) }
{
    let gate = match Gate::new(alloc) {
        Ok(gate) => gate,
        Err(GateError::NoMemory(wanted)) => return Err(wanted),
    };
    match room(alloc) {
        Ok(texts) => Ok((gate, texts)),
        Err(wanted) => Err(wanted),
    }
}
