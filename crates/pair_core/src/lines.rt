//! The two lines between the nodes: each packet that was ever sent.
ghost use Rattle.std.specs.Prelude.{◌≡◌, ◌+◌, ◌-◌, ◌≤◌, ◌<◌, ◌++◌, map, OnOk, OnErr, Some, None, slice_get, slice_index_or};
ghost use Rattle.pair_core.specs.Lines.{packet, packets_from, no_packets, with_forward, with_back};

use lossy_line::{Line, LineError};
use memory_wanted::MemoryWanted;
use pair_record::Packet;
use std::alloc::Global;
use std::marker::Model;

/// What was sent to the backup, and what was sent back. Contracts see them as `Carried` lines of the specs.
#[derive(Drop)]
pub struct Lines {
    forward: Line<Packet>,
    back: Line<Packet>,
}

impl Model for Lines {
    ghost use Rattle.pair_core.specs.Lines.{Carried};

    ghost Value = { Carried };

    ghost use Rattle.pair_core.specs.internal.LinesFields.{carried, AreFields};

    ghost view = { carried };

    ghost invariant = { AreFields };
}

/// The packet of this number, counted from 0 in the order sent.
fn packet_at(line: &Line<Packet>, k: u64) -> Option<Packet>
    ensures { result ≡ slice_index_or line.now.packets k None }
{
    line.get(k).copied()
}

/// Sends one packet for each of these numbers, rising.
fn send_all(
    line: &mut Line<Packet>,
    generation: u64,
    first: u64,
    end: u64,
) -> Result<(), MemoryWanted>
    requires { first ≤ end }
    ensures ok { OnOk result (line.new.packets ≡ line.old.packets ++ map Some (packets_from generation first (end - first))) }
    ensures err { OnErr result (line.new ≡ line.old) }
    ensures none { OnErr result (first < end) }
{
    if let Err(LineError::NoMemory(wanted)) = line.reserve((end - first) as usize) {
        return Err(wanted);
    }
    for number in first..end {
        line.send(Packet { generation, number }).unwrap();
    }
    Ok(())
}

impl Lines {
    /// Lines on which nothing was sent.
    pub(crate) fn new(alloc: Global) -> Lines
        ensures { result.lines ≡ no_packets }
    {
        Lines {
            forward: Line::new(alloc),
            back: Line::new(alloc),
        }
    }

    /// The packet of this number on the line to the backup.
    pub(crate) fn packet(&self, k: u64) -> Option<Packet>
        ensures { result ≡ slice_get self.now.lines.forward k }
    {
        packet_at(&self.forward, k)
    }

    /// The packet of this number on the line back.
    pub(crate) fn acknowledgement(&self, k: u64) -> Option<Packet>
        ensures { result ≡ slice_get self.now.lines.back k }
    {
        packet_at(&self.back, k)
    }

    /// Sends the backup one packet for each of these numbers, rising.
    pub(crate) fn send(&mut self, generation: u64, first: u64, end: u64) -> Result<(), MemoryWanted>
        requires { first ≤ end }
        ensures ok { OnOk result (self.new.lines ≡ with_forward self.old.lines (packets_from generation first (end - first))) }
        ensures err { OnErr result (self.new.lines ≡ self.old.lines) }
        ensures none { OnErr result (first < end) }
    {
        send_all(&mut self.forward, generation, first, end)
    }

    /// Makes room for one more packet on the line back.
    pub(crate) fn reserve_acknowledgement(&mut self) -> Result<(), MemoryWanted>
        ensures lines { self.new.lines ≡ self.old.lines }
        ensures room { OnOk result (0 < self.new.room) }
    {
        match self.back.reserve(1) {
            Ok(()) => Ok(()),
            Err(LineError::NoMemory(wanted)) => Err(wanted),
        }
    }

    /// Sends one packet back, in the room that was reserved.
    pub(crate) fn acknowledge(&mut self, generation: u64, number: u64)
        requires { 0 < self.old.room }
        ensures { self.new.lines ≡ with_back self.old.lines (packet generation number) }
    {
        self.back.send(Packet { generation, number }).unwrap();
    }
}
