//! The full checkpoint of a primary's guest, for a new standby.
ghost use Rattle.std.specs.Prelude.{◌≡◌, ◌≤◌, ◌<◌, ◌+◌, IfOk, IfErr, OnOk, length};
ghost use Rattle.failover.specs.Generations.{generation_limit};
ghost use Rattle.checkpoint_stream.specs.Bounds.{most_text};
ghost use Rattle.full_text.specs.Full.{IsMost, SearchFits, found_of, most, whole};
ghost use Rattle.pair_nodes.specs.Flagged.{unwritten};
ghost use Rattle.pair_nodes.specs.PrimaryCalls.{protect_rows, IsProtected};
ghost use Rattle.pair_nodes.specs.Refusing.{IsFree, IsWhyOrMemory};
ghost use Rattle.pair_nodes.specs.Sides.{IsFull, after_protect};

use super::PrimaryNode;
use crate::generations::protected;
use failover::GENERATION_LIMIT;
use full_text::PageSearch;
use memory_wanted::MemoryWanted;
use pair_core::Refusal;

impl PrimaryNode {
    /// A new standby is to come, in the next generation, whose full checkpoint is number 0, and pending. The guest's frames are numbered
    /// anew, and what it sent is let go: whoever lets that out has done so. Answers how many bytes the full checkpoint's text has at most: what it
    /// takes of the guest's memory isn't looked at before its bytes are asked for.
    ///
    /// # Errors
    /// In this order: [`Refusal::AlreadyPaired`] where it has a standby; [`Refusal::Exhausted`] where there is no next generation;
    /// [`Refusal::NoMemory`]. It is handed back as it was.
    pub fn protect(self) -> Result<(PrimaryNode, usize), (PrimaryNode, Refusal)>
        ensures done { IfOk result (λ made. IsProtected self.primary made.1 made.0.primary) }
        ensures flags { IfOk result (λ made. made.0.flags ≡ unwritten self.flags) }
        ensures why { IfErr result (λ refused. IsWhyOrMemory (protect_rows self.primary) refused.1) }
        ensures err { IfErr result (λ refused. refused.0 ≡ self) }
    {
        match self.full() {
            Err(why) => Err((self, why)),
            Ok(full) => {
                let most = full.most();
                Ok((self.protected(full), most))
            }
        }
    }

    /// The text of the full checkpoint of its guest, in the next generation. Of memory nothing is looked at.
    fn full(&self) -> Result<PageSearch, Refusal>
        ensures free { OnOk result (IsFree (protect_rows self.now.primary)) }
        ensures text { let ram = self.now.primary.live.guest.ram in IfOk result (λ full. IsFull self.now.primary (whole ram (found_of ram full))) }
        ensures short { let ram = self.now.primary.live.guest.ram in IfOk result (λ full. length (whole ram (found_of ram full)) ≤ most_text self.now.primary.shape) }
        ensures most { let ram = self.now.primary.live.guest.ram in IfOk result (λ full. IsMost (most full) (whole ram (found_of ram full)) ram) }
        ensures fits { IfOk result (SearchFits self.now.primary.live.guest.ram) }
        ensures why { IfErr result (IsWhyOrMemory (protect_rows self.now.primary)) }
    {
        if self.is_backed() {
            return Err(Refusal::AlreadyPaired);
        }
        let generation = self.generation.number();
        if generation + 1 >= GENERATION_LIMIT {
            return Err(Refusal::Exhausted);
        }
        match self.full_text() {
            Ok(full) => Ok(full),
            Err(wanted) => Err(Refusal::NoMemory(wanted)),
        }
    }

    /// That text, where there is a next generation.
    fn full_text(&self) -> Result<PageSearch, MemoryWanted>
        requires { self.now.primary.generation + 1 < generation_limit }
        ensures text { let ram = self.now.primary.live.guest.ram in IfOk result (λ full. IsFull self.now.primary (whole ram (found_of ram full))) }
        ensures short { let ram = self.now.primary.live.guest.ram in IfOk result (λ full. length (whole ram (found_of ram full)) ≤ most_text self.now.primary.shape) }
        ensures most { let ram = self.now.primary.live.guest.ram in IfOk result (λ full. IsMost (most full) (whole ram (found_of ram full)) ram) }
        ensures fits { IfOk result (SearchFits self.now.primary.live.guest.ram) }
    {
        let generation = self.generation.number();
        PageSearch::new(self.alloc, self.kept.machine(), generation + 1)
    }

    /// Its standby is to be filled by the full checkpoint of this text, which is pending.
    fn protected(self, full: PageSearch) -> PrimaryNode
        requires free { IsFree (protect_rows self.primary) }
        requires short { let ram = self.primary.live.guest.ram in length (whole ram (found_of ram full)) ≤ most_text self.primary.shape }
        requires fits { SearchFits self.primary.live.guest.ram full }
        ensures { let ram = self.primary.live.guest.ram in result ≡ record {
          primary = after_protect self.primary (whole ram (found_of ram full));
          flags = unwritten self.flags;
        } }
    {
        let PrimaryNode {
            alloc,
            shape,
            mut kept,
            generation,
            to_cut: _,
            mut gate,
        } = self;
        let generation = protected(generation);
        kept.settle_at(full);
        gate.begin(0);
        gate.hold(0, &[]);
        PrimaryNode {
            alloc,
            shape,
            kept,
            generation,
            to_cut: 1,
            gate,
        }
    }
}
