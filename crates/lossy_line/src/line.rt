//! The packets of one line.
ghost use Rattle.std.specs.Prelude.{◌≡◌, ◌==◌, ◌+◌, ◌<◌, ◌≤◌, [], ◌∷◌, ◌++◌, length, slice_set, slice_index_or};
ghost use Rattle.std.specs.Prelude.{IfOk, OnOk, OnErr, IsOk, Some, None, option_copied};

use crate::errors::LineError;
use memory_wanted::reserve;
use std::alloc::Global;
use std::marker::Model;

/// Each packet that was sent, numbered from 0 in the order sent, unless it was dropped.
#[derive(Drop)]
pub struct Line<P: Drop> {
    packets: Vec<Option<P>>,
}

impl<P: Drop> Model for Line<P> {
    ghost use Rattle.lossy_line.specs.Lines.{Packets, packets_code};

    ghost Value = { Packets P };

    ghost coded = { packets_code P.code };

    ghost use Rattle.lossy_line.specs.internal.Fields.{packets_kept};

    ghost view = { λ l. packets_kept l.packets };
}

impl<P: Drop> Line<P> {
    /// A line on which nothing was sent. It takes no memory yet.
    pub fn new(alloc: Global) -> Line<P>
        ensures { result.packets ≡ [] }
    {
        Line {
            packets: Vec::new(alloc),
        }
    }

    /// How many packets were sent, those that were dropped among them: the number of the next one.
    pub fn len(&self) -> u64
        ensures { result ≡ length self.now.packets }
    {
        self.packets.len() as u64
    }

    /// Whether nothing was sent.
    pub fn is_empty(&self) -> bool
        ensures { result ≡ (length self.now.packets == 0) }
    {
        self.packets.is_empty()
    }

    /// Makes room for `count` packets: so many sends are not refused from now on.
    ///
    /// # Errors
    ///
    /// [`LineError::NoMemory`] if that room was missing and can't be had. The line is as before.
    pub fn reserve(&mut self, count: usize) -> Result<(), LineError>
        ensures packets { self.new.packets ≡ self.old.packets }
        ensures room { OnOk result (count ≤ self.new.room) }
        ensures kept { self.old.room ≤ self.new.room }
        ensures enough { count ≤ self.old.room → IsOk result }
        ensures err { OnErr result (self.new ≡ self.old) }
    {
        reserve(&mut self.packets, count)?;
        Ok(())
    }

    /// Sends a packet, and gives the number that it is kept under.
    ///
    /// # Errors
    ///
    /// [`LineError::NoMemory`] if there was no room for it, and none can be had. The line is as before, and the
    /// packet is dropped.
    pub fn send(&mut self, packet: P) -> Result<u64, LineError>
        ensures number { IfOk result (λ k. k ≡ length self.old.packets) }
        ensures packets { OnOk result (self.new.packets ≡ self.old.packets ++ Some packet ∷ []) }
        ensures room { OnOk result (self.old.room ≤ self.new.room + 1) }
        ensures enough { 0 < self.old.room → IsOk result }
        ensures err { OnErr result (self.new ≡ self.old) }
    {
        let number = self.len();
        reserve(&mut self.packets, 1)?;
        match self.packets.push(Some(packet)) {
            Ok(()) => Ok(number),
            Err(_) => unreachable!(),
        }
    }

    /// Packet `number`, as it was sent, however often it is asked for and in whatever order. `None` if it was dropped
    /// or never sent.
    pub fn get(&self, number: u64) -> Option<&P>
        ensures { option_copied result ≡ slice_index_or self.now.packets number None }
    {
        self.packets.get(number as usize)?.as_ref()
    }

    /// Lets go what packet `number` holds. Its number stays taken, the others stay, and it is never got again. A
    /// number under which nothing was sent changes nothing.
    pub fn drop(&mut self, number: u64)
        ensures packets { self.new.packets ≡ slice_set self.old.packets number None }
        ensures room { self.new.room ≡ self.old.room }
    {
        let index = number as usize;
        if index < self.packets.len() {
            self.packets[index] = None;
        }
    }
}
