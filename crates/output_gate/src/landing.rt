//! Frames land under their numbers in the boxes of their clients, and whoever listens hears what becomes of each.
ghost use Rattle.std.specs.Prelude.{◌≡◌, ◌+◌, ◌^◌, ◌<◌, ◌≤◌, length, All};
ghost use Rattle.frame_ports.specs.Addresses.{IsFrame};
ghost use Rattle.frame_ports.specs.Limits.{number_limit};
ghost use Rattle.frame_ports.specs.Ports.{IsClient};
ghost use Rattle.output_gate.specs.Landings.{ports_after, landed_count, dropped_count, clients_for, landed_for, landed_of, dropped_of};
ghost use Rattle.output_gate.specs.Landings.{puts, drops, told_of, told_after};
ghost use Rattle.output_gate.specs.Limits.{max_held};

use crate::limits::Frame;
use crate::listener::{Listener, NoListener};
use crate::routes::receivers_of;
use frame_ports::{Landing, Ports};

/// What became of frames that landed, counted for each client that a frame goes to. A frame that goes nowhere
/// doesn't count, nor one that came for that client before.
#[derive(Clone, Copy)]
pub struct Landed {
    /// How many were put into boxes.
    pub landed: u64,
    /// How many were dropped, since the box was full.
    pub dropped: u64,
}

impl Landed {
    /// Nothing landed.
    const NONE: Landed = Landed {
        landed: 0,
        dropped: 0,
    };

    /// One landing more.
    fn count(&mut self, landing: Landing)
        requires { self.old.landed + self.old.dropped + 1 < 2 ^ 64 }
        ensures landed { self.new.landed ≡ self.old.landed + puts landing }
        ensures dropped { self.new.dropped ≡ self.old.dropped + drops landing }
    {
        match landing {
            Landing::In => self.landed += 1,
            Landing::Dropped => self.dropped += 1,
            Landing::Old => {}
        }
    }
}

/// Lands the frame of these bytes, under its number, for each of these clients in turn.
fn land_for<L: Listener>(
    ports: &mut Ports,
    clients: &[u64],
    number: u64,
    frame: &[u8],
    listener: &mut L,
) -> Landed
    requires known { All (IsClient ports.old) clients.now }
    requires few { length clients.now ≤ 16 }
    requires frame { IsFrame (record { items = frame.now }) }
    requires room { landed_of ports.old clients.now number (record { items = frame.now })
        + dropped_of ports.old clients.now number (record { items = frame.now }) ≤ L.room listener.old }
    ensures ports { ports.new ≡ landed_for ports.old clients.now number (record { items = frame.now }) }
    ensures landed { result.landed ≡ landed_of ports.old clients.now number (record { items = frame.now }) }
    ensures dropped { result.dropped ≡ dropped_of ports.old clients.now number (record { items = frame.now }) }
    ensures bound { result.landed + result.dropped ≤ 16 }
    ensures known { L.known listener.new
        ≡ told_of L.told (L.known listener.old) ports.old clients.now number (record { items = frame.now }) }
    ensures room { L.room listener.old ≤ L.room listener.new + (result.landed + result.dropped) }
{
    let mut total = Landed::NONE;
    for client in clients {
        let landing = ports.land(*client, number, frame);
        listener.hear(*client, landing);
        total.count(landing);
    }
    total
}

/// Lands the frame of these bytes, under its number, in the boxes of its clients, in rising order, and tells the listener of each. For a
/// client for whom it came before nothing changes, and it doesn't count.
pub fn land_frame<L: Listener>(
    ports: &mut Ports,
    number: u64,
    frame: &[u8],
    listener: &mut L,
) -> Landed
    requires frame { IsFrame (record { items = frame.now }) }
    requires room { landed_of ports.old (clients_for ports.old (record { items = frame.now })) number (record { items = frame.now })
        + dropped_of ports.old (clients_for ports.old (record { items = frame.now })) number (record { items = frame.now })
        ≤ L.room listener.old }
    ensures ports { ports.new
        ≡ landed_for ports.old (clients_for ports.old (record { items = frame.now })) number (record { items = frame.now }) }
    ensures landed { result.landed
        ≡ landed_of ports.old (clients_for ports.old (record { items = frame.now })) number (record { items = frame.now }) }
    ensures dropped { result.dropped
        ≡ dropped_of ports.old (clients_for ports.old (record { items = frame.now })) number (record { items = frame.now }) }
    ensures bound { result.landed + result.dropped ≤ 16 }
    ensures known { L.known listener.new
        ≡ told_of L.told (L.known listener.old) ports.old (clients_for ports.old (record { items = frame.now })) number
        (record { items = frame.now }) }
    ensures room { L.room listener.old ≤ L.room listener.new + (result.landed + result.dropped) }
{
    let clients = receivers_of(ports, frame);
    land_for(ports, clients.as_slice(), number, frame, listener)
}

/// Lands these frames in order, each in the boxes of its clients, in rising order, and tells the listener of each. The first one has the
/// number `first`, and each of the others the number after the one before. A frame that came for a client before changes nothing there,
/// and doesn't count.
pub fn land_telling<L: Listener>(
    ports: &mut Ports,
    first: u64,
    frames: &[Frame],
    listener: &mut L,
) -> Landed
    requires frames { All IsFrame frames.now }
    requires few { length frames.now ≤ max_held }
    requires numbers { first + length frames.now ≤ number_limit }
    requires room { landed_count ports.old first frames.now + dropped_count ports.old first frames.now ≤ L.room listener.old }
    ensures ports { ports.new ≡ ports_after ports.old first frames.now }
    ensures landed { result.landed ≡ landed_count ports.old first frames.now }
    ensures dropped { result.dropped ≡ dropped_count ports.old first frames.now }
    ensures known { L.known listener.new ≡ told_after L.told (L.known listener.old) ports.old first frames.now }
{
    let mut total = Landed::NONE;
    let mut number = first;
    for frame in frames {
        let one = land_frame(ports, number, frame.as_slice(), listener);
        total.landed += one.landed;
        total.dropped += one.dropped;
        number += 1;
    }
    total
}

/// The same, where nobody listens.
pub fn land_numbered(ports: &mut Ports, first: u64, frames: &[Frame]) -> Landed
    requires frames { All IsFrame frames.now }
    requires few { length frames.now ≤ max_held }
    requires numbers { first + length frames.now ≤ number_limit }
    ensures ports { ports.new ≡ ports_after ports.old first frames.now }
    ensures landed { result.landed ≡ landed_count ports.old first frames.now }
    ensures dropped { result.dropped ≡ dropped_count ports.old first frames.now }
{
    // There are at most 16.
    let _clients = ports.clients();
    land_telling(ports, first, frames, &mut NoListener)
}
