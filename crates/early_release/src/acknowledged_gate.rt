//! The contract that gives output commit.
ghost use Rattle.std.specs.Prelude.{◌≡◌, ◌+◌, ◌<◌, ◌≤◌, [], ◌∷◌, ◌++◌, length, All};
ghost use Rattle.frame_ports.specs.Addresses.{IsFrame};
ghost use Rattle.frame_ports.specs.Limits.{number_limit};
ghost use Rattle.output_gate.specs.Epochs.{epoch, frames_to, after_number};
ghost use Rattle.output_gate.specs.Gate.{GateState, first_held};
ghost use Rattle.output_gate.specs.Landings.{ports_after};
ghost use Rattle.output_gate.specs.Limits.{max_epochs, max_frames};

use frame_ports::Ports;
use output_gate::{Frame, Landed};

/// An output gate whose frames land at the acknowledgement of their checkpoint, and no sooner. Its `hold` is lent the
/// ports, so that a body which lands frames there can be written: the contract refuses it.
pub(crate) trait AcknowledgedGate {
    /// The epochs held, and the number that the next frame gets.
    ghost held: { Self → GateState };

    /// Holds the frames of the epoch that the checkpoint `number` ends. Nothing lands.
    fn hold(&mut self, number: u64, frames: &[Frame], ports: &mut Ports) -> Landed
        requires room { length (held self.old).epochs < max_epochs }
        requires above { All (λ e. e.number < number) (held self.old).epochs }
        requires few { length frames.now ≤ max_frames }
        requires frames { All IsFrame frames.now }
        requires numbers { (held self.old).next + length frames.now ≤ number_limit }
        ensures held { held self.new ≡ record { next = (held self.old).next + length frames.now; epochs = (held self.old).epochs ++ epoch number frames.now ∷ [] } }
        ensures ports { ports.new ≡ ports.old };

    /// Takes the acknowledgement of the checkpoints up to `number`: their frames land under their numbers, in order, and
    /// the others stay held.
    fn ack(&mut self, number: u64, ports: &mut Ports) -> Landed
        ensures held { held self.new ≡ record (held self.old) { epochs = after_number number (held self.old).epochs } }
        ensures ports { ports.new ≡ ports_after ports.old (first_held (held self.old)) (frames_to number (held self.old).epochs) };
}
