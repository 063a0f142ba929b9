//! To whom a frame goes, as a list.
ghost use Rattle.std.specs.Prelude.{◌≡◌, ◌≤◌, All, length};
ghost use Rattle.frame_ports.specs.Ports.{IsClient};
ghost use Rattle.output_gate.specs.Landings.{clients_for};

use arrayvec::ArrayVec;
use frame_ports::Ports;

/// Clients, of whom there are at most 16.
pub type Receivers = ArrayVec<u64, 16>;

/// The clients to whom the frame of these bytes goes, rising.
pub fn receivers_of(ports: &Ports, frame: &[u8]) -> Receivers
    ensures clients { result.items ≡ clients_for ports.now (record { items = frame.now }) }
    ensures known { All (IsClient ports.now) result.items }
    ensures few { length result.items ≤ 16 }
    // What is true of all ports.
    ensures ports { length ports.now.boxes ≤ 16 }
{
    let targets = ports.route(frame);
    let clients = ports.clients();
    let mut found = ArrayVec::new();
    let (first, end) = targets.span(clients);
    for client in first..end {
        if targets.contains(client) {
            found.push(client);
        }
    }
    found
}
