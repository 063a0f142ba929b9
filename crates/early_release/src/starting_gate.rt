//! The contract that says only that nothing is made up.
ghost use Rattle.std.specs.Prelude.{ℕ, ◌+◌, ◌<◌, ◌≤◌, ◌++◌, length, All};
ghost use Rattle.frame_ports.specs.Addresses.{IsFrame};
ghost use Rattle.frame_ports.specs.Limits.{number_limit};
ghost use Rattle.output_gate.specs.Gate.{GateState, held_frames};
ghost use Rattle.output_gate.specs.Limits.{max_epochs, max_frames};
ghost use Rattle.early_release.specs.Weak.{OnlyLands};

use frame_ports::Ports;
use output_gate::{Frame, Landed};

/// An output gate of which only this is known: what lands was held, so that the guest produced it. When it lands,
/// whether all of it lands, and what stays held isn't said.
pub(crate) trait StartingGate {
    /// The epochs held, and the number that the next frame gets.
    ghost held: { Self → GateState };

    /// Holds the frames of the epoch that the checkpoint `number` ends.
    fn hold(&mut self, number: u64, frames: &[Frame], ports: &mut Ports) -> Landed
        requires room { length (held self.old).epochs < max_epochs }
        requires above { All (λ e. e.number < number) (held self.old).epochs }
        requires few { length frames.now ≤ max_frames }
        requires frames { All IsFrame frames.now }
        requires numbers { (held self.old).next + length frames.now ≤ number_limit }
        ensures { OnlyLands (held_frames (held self.old) ++ frames.now) ports.old ports.new };

    /// Takes the acknowledgement of the checkpoints up to `number`.
    fn ack(&mut self, number: u64, ports: &mut Ports) -> Landed
        ensures { OnlyLands (held_frames (held self.old)) ports.old ports.new };
}
