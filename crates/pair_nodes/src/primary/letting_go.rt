//! What a primary lets out and lets go: what it sent while it is alone, what an acknowledgement covers, and all where its standby has
//! stopped.
ghost use Rattle.std.specs.Prelude.{◌≡◌, ◌<◌, All, IfOk, IfErr, OnErr, OnOk, true, false};
ghost use Rattle.frame_ports.specs.Addresses.{IsFrame};
ghost use Rattle.pair_nodes.specs.Flagged.{with_primary};
ghost use Rattle.pair_nodes.specs.PrimaryCalls.{ack_rows, alone_rows, after_release};
ghost use Rattle.pair_nodes.specs.Refusing.{IsFree, IsWhy};
ghost use Rattle.pair_nodes.specs.Sides.{after_ack, let_out, after_alone};

use super::PrimaryNode;
use crate::generations::{end_filling, left_alone};
use pair_core::{Frame, Packet, Refusal};

impl PrimaryNode {
    /// Lets go of what the guest of a primary that is alone has sent: whoever lets it out has done so from
    /// [`outbox`](PrimaryNode::outbox).
    pub fn release(&mut self)
        requires { self.old.primary.backed ≡ false }
        ensures { self.new ≡ with_primary self.old (after_release self.old.primary) }
    {
        let sent = self.gate.next() - 1 + self.kept.machine().outbox().len() as u64;
        self.gate.begin(sent);
        self.kept.clear_outbox();
    }

    /// The frames that this acknowledgement lets out, in the order sent: those of the pending checkpoints up to its number.
    ///
    /// # Errors
    /// Why [`acknowledge`](PrimaryNode::acknowledge) refuses it.
    pub fn let_out(&self, ack: Packet) -> Result<&[Frame], Refusal>
        ensures free { OnOk result (IsFree (ack_rows self.now.primary ack)) }
        ensures frames { IfOk result (λ frames. frames.now ≡ let_out self.now.primary ack.number) }
        ensures each { IfOk result (λ frames. All IsFrame frames.now) }
        ensures why { IfErr result (IsWhy (ack_rows self.now.primary ack)) }
    {
        if !self.is_backed() {
            return Err(Refusal::NotPaired);
        }
        if ack.generation != self.generation.number() {
            return Err(Refusal::Stale);
        }
        if ack.number >= self.to_cut {
            return Err(Refusal::Gap);
        }
        Ok(self.gate.held(ack.number))
    }

    /// The standby has committed all checkpoints of its generation up to this number: their frames, which were let out from
    /// [`let_out`](PrimaryNode::let_out), and their texts are let go. The acknowledgement of the full checkpoint ends the filling. It takes
    /// no memory.
    ///
    /// # Errors
    /// In this order: [`Refusal::NotPaired`] where it is alone; [`Refusal::Stale`] for another generation; [`Refusal::Gap`] for a number
    /// that was never cut. Nothing changes then.
    pub fn acknowledge(&mut self, ack: Packet) -> Result<(), Refusal>
        ensures free { OnOk result (IsFree (ack_rows self.old.primary ack)) }
        ensures done { OnOk result (self.new ≡ with_primary self.old (after_ack self.old.primary ack.number)) }
        ensures why { IfErr result (IsWhy (ack_rows self.old.primary ack)) }
        ensures err { OnErr result (self.new ≡ self.old) }
    {
        match self.let_out(ack) {
            Ok(_) => {}
            Err(why) => return Err(why),
        }
        self.let_go(ack.number);
        Ok(())
    }

    /// The pending checkpoints up to this number, which was cut, are let go.
    fn let_go(&mut self, number: u64)
        requires backed { self.old.primary.backed ≡ true }
        requires cut { number < self.old.primary.to_cut }
        ensures { self.new ≡ with_primary self.old (after_ack self.old.primary number) }
    {
        let first = self.to_cut - self.kept.count() as u64;
        let count = (number + 1).saturating_sub(first);
        let _frames = self.gate.let_go(number);
        self.kept.drop_first(count as usize);
        end_filling(&mut self.generation);
    }

    /// Its standby has stopped, and it goes on alone: what was held, and then what the running epoch has sent, which were let out from
    /// [`held`](PrimaryNode::held) and [`outbox`](PrimaryNode::outbox), and the texts are let go. It takes no memory.
    ///
    /// # Errors
    /// [`Refusal::NotPaired`] where it is alone. It is handed back as it was.
    pub fn alone(self) -> Result<PrimaryNode, (PrimaryNode, Refusal)>
        ensures free { OnOk result (IsFree (alone_rows self.primary)) }
        ensures done { IfOk result (λ p. p ≡ with_primary self (after_alone self.primary)) }
        ensures why { IfErr result (λ refused. IsWhy (alone_rows self.primary) refused.1) }
        ensures err { IfErr result (λ refused. refused.0 ≡ self) }
    {
        if !self.is_backed() {
            return Err((self, Refusal::NotPaired));
        }
        let PrimaryNode {
            alloc,
            shape,
            mut kept,
            generation,
            to_cut,
            mut gate,
        } = self;
        kept.clear();
        let sent = gate.next() - 1 + kept.machine().outbox().len() as u64;
        gate.begin(sent);
        kept.clear_outbox();
        let generation = left_alone(generation);
        Ok(PrimaryNode {
            alloc,
            shape,
            kept,
            generation,
            to_cut,
            gate,
        })
    }
}
