//! A primary's cut, and the texts of its pending checkpoints, which are fetched part by part.
ghost use Rattle.std.specs.Prelude.{◌≡◌, ◌≤◌, ◌<◌, IfOk, IfErr, OnErr, OnOk, Ok, Err, true, length};
ghost use Rattle.frame_ports.specs.Limits.{number_limit};
ghost use Rattle.pair_record.specs.Limits.{most_pending, last_frame};
ghost use Rattle.checkpoint_stream.specs.Bounds.{most_text};
ghost use Rattle.pair_nodes.specs.Flagged.{unwritten};
ghost use Rattle.pair_nodes.specs.PrimaryCalls.{cut_refusals, IsSealed, text_part};
ghost use Rattle.pair_nodes.specs.Refusing.{IsWhyOrMemory};
ghost use Rattle.pair_nodes.specs.Sides.{after_cut, IsDelta};
ghost use Rattle.std.specs.Borrow.{sem};
ghost use Rattle.pair_nodes.specs.Lending.{IsAsItWas};

use super::{LAST_FRAME, PrimaryNode, few_frames};
use crate::texts::MOST_PENDING;
use checkpoint_stream::encode;
use epoch_cuts::cut_delta;
use memory_wanted::MemoryWanted;
use pair_core::Refusal;

/// Numbers stay below 2^62.
const NUMBER_LIMIT: u64 = 4611686018427387904;

impl PrimaryNode {
    /// The epoch ends: its checkpoint's text is kept until it is acknowledged, and its frames are held. Answers how many bytes the text has.
    ///
    /// # Errors
    /// In this order: [`Refusal::NotPaired`] where it is alone; [`Refusal::Behind`] at four pending checkpoints; [`Refusal::Exhausted`]
    /// where the checkpoint has no number below 2^62, or too few are left for frames; [`Refusal::NoMemory`]. Nothing changes then.
    pub fn cut(&mut self) -> Result<usize, Refusal>
        ensures done { IfOk result (λ count. IsSealed self.old.primary count self.new.primary) }
        ensures flags { OnOk result (self.new.flags ≡ unwritten self.old.flags) }
        ensures why { IfErr result (IsWhyOrMemory (cut_refusals self.old.primary)) }
        ensures err { OnErr result (self.new ≡ self.old) }
    {
        if !self.is_backed() {
            return Err(Refusal::NotPaired);
        }
        if self.kept.count() >= MOST_PENDING {
            return Err(Refusal::Behind);
        }
        if self.to_cut >= NUMBER_LIMIT || self.gate.next() > LAST_FRAME {
            return Err(Refusal::Exhausted);
        }
        let text = match self.delta() {
            Ok(text) => text,
            Err(wanted) => return Err(Refusal::NoMemory(wanted)),
        };
        let count = text.len();
        few_frames(self.kept.machine());
        match self.seal(text) {
            Ok(()) => Ok(count),
            Err(wanted) => Err(Refusal::NoMemory(wanted)),
        }
    }

    /// The epoch ends with a checkpoint of this text. What of a full checkpoint's text is still to be made of the memory that the machine gives up
    /// now is kept.
    ///
    /// # Errors
    /// The growth that was really refused. Nothing changes then.
    fn seal(&mut self, text: Vec<u8>) -> Result<(), MemoryWanted>
        requires backed { self.old.primary.backed ≡ true }
        requires few { length self.old.primary.pending < most_pending }
        requires number { self.old.primary.to_cut < number_limit }
        requires frames { self.old.primary.next_frame ≤ last_frame }
        requires short { length text.items ≤ most_text self.old.primary.shape }
        ensures done { OnOk result (self.new.primary ≡ after_cut self.old.primary text.items) }
        ensures flags { OnOk result (self.new.flags ≡ unwritten self.old.flags) }
        ensures err { OnErr result (self.new ≡ self.old) }
    {
        self.kept.keep()?;
        self.gate.hold(self.to_cut, self.kept.machine().outbox());
        self.kept.settle_with(text);
        self.to_cut += 1;
        Ok(())
    }

    /// The text of the checkpoint that a cut would make.
    fn delta(&self) -> Result<Vec<u8>, MemoryWanted>
        requires { self.now.primary.to_cut < number_limit }
        ensures text { IfOk result (λ text. IsDelta self.now.primary text.items) }
        ensures short { IfOk result (λ text. length text.items ≤ most_text self.now.primary.shape) }
    {
        let generation = self.generation.number();
        let checkpoint = cut_delta(self.alloc, self.kept.machine(), generation, self.to_cut)?;
        let text = encode(self.alloc, &checkpoint);
        drop(checkpoint);
        text
    }

    /// Of the pending checkpoint's text the bytes from place `from` on, `count` of them or as many as there are. Where it is a full checkpoint's,
    /// they are made now, unless they were made before. It takes no memory.
    ///
    /// # Errors
    /// [`Refusal::NotPaired`] where it is alone; [`Refusal::Gap`] where no checkpoint of that number is pending.
    pub fn text(&mut self, number: u64, from: u64, count: u64) -> Result<&[u8], Refusal>
        ensures* same { sem 𝓛 (IsAsItWas self.entry) }
        ensures part { IfOk result (λ part. text_part self.old.primary number from count ≡ Ok part.now) }
        ensures why { IfErr result (λ why. text_part self.old.primary number from count ≡ Err why) }
    {
        if !self.is_backed() {
            return Err(Refusal::NotPaired);
        }
        let first = self.to_cut - self.kept.count() as u64;
        if number < first || number >= self.to_cut {
            return Err(Refusal::Gap);
        }
        self.kept.make(from, count);
        Ok(self.kept.part((number - first) as usize, from, count))
    }
}
