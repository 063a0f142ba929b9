//! Two gates that meet the starting contract.
ghost use Rattle.std.specs.Prelude.{◌≡◌, ◌++◌, ◌∷◌, []};

use crate::acknowledged_gate::AcknowledgedGate;
use crate::starting_gate::StartingGate;
use frame_ports::Ports;
use output_gate::{Frame, Gate, Landed};

/// The gate as it should be: what it holds lands at the acknowledgement.
#[derive(Drop)]
pub(crate) struct HoldsUntilAcknowledged {
    pub(crate) gate: Gate,
}

impl AcknowledgedGate for HoldsUntilAcknowledged {
    ghost held = { λ g. g.gate };

    fn hold(&mut self, number: u64, frames: &[Frame], _ports: &mut Ports) -> Landed {
        self.gate.hold(number, frames);
        Landed {
            landed: 0,
            dropped: 0,
        }
    }

    fn ack(&mut self, number: u64, ports: &mut Ports) -> Landed {
        self.gate.ack(number, ports)
    }
}

/// It meets the starting contract by the stronger one.
impl StartingGate for HoldsUntilAcknowledged {
    ghost held = { λ g. g.gate };

    fn hold(&mut self, number: u64, frames: &[Frame], ports: &mut Ports) -> Landed {
        AcknowledgedGate::hold(self, number, frames, ports)
    }

    fn ack(&mut self, number: u64, ports: &mut Ports) -> Landed {
        AcknowledgedGate::ack(self, number, ports)
    }
}

/// The wrong gate: what it is given to hold lands at once. Only the starting contract lets it through.
#[derive(Drop)]
pub(crate) struct LandsAtOnce {
    pub(crate) gate: Gate,
}

impl StartingGate for LandsAtOnce {
    ghost held = { λ g. g.gate };

    fn hold(&mut self, number: u64, frames: &[Frame], ports: &mut Ports) -> Landed {
        self.gate.hold(number, frames);
        self.gate.open_all(ports)
    }

    fn ack(&mut self, number: u64, ports: &mut Ports) -> Landed {
        self.gate.ack(number, ports)
    }
}
