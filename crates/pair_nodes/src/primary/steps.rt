//! What a primary's guest does: frames arrive at it, and it makes steps.
ghost use Rattle.std.specs.Prelude.{◌≡◌, ◌≤◌, ◌+◌, IfErr, OnErr, OnOk, length};
ghost use Rattle.guest_rules.specs.Flags.{KeepsFlags};
ghost use Rattle.pair_record.specs.Limits.{last_frame};
ghost use Rattle.pair_nodes.specs.PrimaryCalls.{arrive_rows, IsRun, IsSteps};
ghost use Rattle.pair_nodes.specs.Refusing.{IsFree, IsWhy};
ghost use Rattle.pair_nodes.specs.Sides.{after_arrival};

use super::{LAST_FRAME, PrimaryNode, few_frames};
use arrayvec::ArrayVec;
use pair_core::{Frame, Refusal};

/// The outbox has 256 places.
const OUTBOX_FRAMES: u64 = 256;

/// A frame has 14 to 1514 bytes.
const LEAST_FRAME: usize = 14;

const MOST_FRAME: usize = 1514;

impl PrimaryNode {
    /// A frame of these bytes, 14 to 1514 of them, arrives at the guest. It takes no memory.
    ///
    /// # Errors
    /// [`Refusal::BadFrame`] for fewer or more bytes.
    pub fn arrive(&mut self, bytes: &[u8]) -> Result<(), Refusal>
        ensures free { OnOk result (IsFree (arrive_rows (length bytes.now))) }
        ensures done { OnOk result (self.new.primary ≡ after_arrival (record { items = bytes.now }) self.old.primary) }
        ensures flags { OnOk result (KeepsFlags self.old.flags self.new.flags) }
        ensures why { IfErr result (IsWhy (arrive_rows (length bytes.now))) }
        ensures err { OnErr result (self.new ≡ self.old) }
    {
        if bytes.len() < LEAST_FRAME || bytes.len() > MOST_FRAME {
            return Err(Refusal::BadFrame);
        }
        let frame = frame_of(bytes);
        let _taken = self.kept.arrive(&frame);
        Ok(())
    }

    /// The guest makes `count` steps, or as many as the outbox has room for. What a primary that is alone sends is to be let out from
    /// [`outbox`](PrimaryNode::outbox), and then let go by [`release`](PrimaryNode::release). Answers how many steps it made: all of them,
    /// where it has a standby. It takes no memory.
    ///
    /// # Errors
    /// [`Refusal::CutNeeded`] where it has a standby and the outbox has no room for a step: those before it stay.
    /// [`Refusal::Exhausted`] where it is alone and too few numbers are left for the guest's frames: nothing changes.
    pub fn step(&mut self, count: u64) -> Result<u64, Refusal>
        ensures steps { IsSteps count self.old.primary result self.new.primary }
        ensures flags { KeepsFlags self.old.flags self.new.flags }
    {
        let backed = self.is_backed();
        if !backed && self.gate.next() + OUTBOX_FRAMES > LAST_FRAME {
            return Err(Refusal::Exhausted);
        }
        let made = self.run(count);
        if backed && made < count {
            return Err(Refusal::CutNeeded);
        }
        Ok(made)
    }

    /// The guest makes steps, as many as the outbox has room for and `count` at most.
    fn run(&mut self, count: u64) -> u64
        requires { self.old.primary.next_frame ≤ last_frame + 256 }
        ensures run { IsRun count result self.old.primary self.new.primary }
        ensures flags { KeepsFlags self.old.flags self.new.flags }
    {
        let made = self.kept.run(count);
        few_frames(self.kept.machine());
        made
    }
}

/// The frame of these bytes.
fn frame_of(bytes: &[u8]) -> Frame
    requires { length bytes.now ≤ 1514 }
    ensures { result ≡ record { items = bytes.now } }
{
    let mut frame = ArrayVec::new();
    match frame.try_extend_from_slice(bytes) {
        Ok(()) => frame,
        Err(_) => unreachable!(),
    }
}
