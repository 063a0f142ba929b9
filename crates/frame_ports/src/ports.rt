//! The inboxes and boxes of all clients.
ghost use Rattle.std.specs.Prelude.{
  ◌≡◌,
  ℕ,
  ◌≤◌,
  ◌<◌,
  ◌+◌,
  length,
  drop,
  remove,
  map,
  All,
  Option,
  IfOk,
  IfErr,
  IfSome,
  OnOk,
  OnErr,
  option_map,
  slice_get,
  nat_lt,
};
ghost use Rattle.frame_ports.specs.Limits.{max_clients, inbox_frames, box_frames, number_limit};
ghost use Rattle.frame_ports.specs.Addresses.{IsFrame};
ghost use Rattle.frame_ports.specs.Numbers.{is_new, landing, after_landing, renumbered};
ghost use Rattle.frame_ports.specs.Ports.{
  is_client,
  IsClient,
  IsPorts,
  empty_ports,
  delivery,
  after_delivery,
  for_client,
  inbox_of,
  box_of,
  with_inbox,
  with_box,
};
ghost use Rattle.frame_ports.specs.Targets.{AreTargets};
ghost use Rattle.frame_ports.specs.declared.errors.PortError.TheVariants.{NoMemory};
ghost use Rattle.memory_wanted.specs.Wanted.{wanted};

use crate::errors::PortError;
use crate::landing::Landing;
use crate::limits::{
    BOX_FRAMES, Frame, INBOX_FRAMES, MAX_CLIENTS, MAX_FRAME, MIN_FRAME, NUMBER_LIMIT,
};
use crate::numbers::{Numbers, raise, zeros};
use crate::rings::{frame_of, put_frame, put_last, remove_at, rings};
use crate::targets::Targets;
use circular_buffer::HeapCircularBuffer;
use std::alloc::Global;
use std::marker::Model;

/// For each client, numbered from 1, an inbox of numbered frames for the guest, a box of frames that landed, and
/// the number of the last frame of the guest that came for it.
///
/// A call changes only the list that it names and, in [`Ports::deliver`] and [`Ports::put`], the next frame number. Only
/// [`Ports::land`] and [`Ports::renumber`] change the number of a client. After a refusal nothing has changed. Only
/// [`Ports::new`] takes memory.
#[derive(Drop)]
pub struct Ports {
    /// The number that the next delivered frame gets, from 1.
    next: u64,
    /// The inbox of client c has the place c - 1.
    inboxes: Vec<HeapCircularBuffer<(u64, Frame)>>,
    /// The box of client c has the place c - 1.
    boxes: Vec<HeapCircularBuffer<Frame>>,
    /// The number of the last frame that came for client c has the place c - 1. It is 0 at first.
    numbers: Numbers,
}

impl Model for Ports {
    ghost use Rattle.frame_ports.specs.Ports.{PortsState};

    ghost Value = { PortsState };

    ghost use Rattle.frame_ports.specs.internal.Fields.{ports_state, AreFields};

    ghost view = { ports_state };

    ghost invariant = { AreFields };
}

impl Ports {
    /// Ports for the clients 1 to `clients`, with nothing delivered and nothing landed. All room is reserved here.
    ///
    /// # Errors
    ///
    /// [`PortError::NoMemory`] if that room can't be had.
    pub fn new(alloc: Global, clients: u64) -> Result<Ports, PortError>
        requires some { 1 ≤ clients }
        requires few { clients ≤ max_clients }
        ensures ok { IfOk result (λ p. p ≡ empty_ports clients) }
        ensures err { IfErr result (λ e. e ≡ NoMemory wanted) }
    {
        let inboxes = rings(alloc, clients as usize, INBOX_FRAMES)?;
        let boxes = rings(alloc, clients as usize, BOX_FRAMES)?;
        Ok(Ports {
            next: 1,
            inboxes,
            boxes,
            numbers: zeros(clients as usize),
        })
    }

    /// How many clients there are, 1 to 16.
    pub fn clients(&self) -> u64
        ensures count { result ≡ length self.now.boxes }
        // What is true of all ports.
        ensures ports { IsPorts self.now }
    {
        self.boxes.len() as u64
    }

    /// The number that the next delivered frame gets, from 1.
    pub fn next_number(&self) -> u64
        ensures { result ≡ self.now.next }
    {
        self.next
    }

    /// Whether this is a client's number, 1 to the count of clients.
    fn is_client(&self, client: u64) -> bool
        ensures { result ≡ is_client self.now client }
    {
        client >= 1 && client <= self.clients()
    }

    /// Puts the frame of these bytes last in the client's inbox, under the next frame number, which it gives.
    ///
    /// # Errors
    ///
    /// In this order: [`PortError::NoClient`], [`PortError::BadFrame`] for fewer than 14 or more than 1514 bytes,
    /// [`PortError::Full`] exactly where the inbox holds 64 frames, [`PortError::Exhausted`] where the number
    /// would reach 2^62.
    pub fn deliver(&mut self, client: u64, bytes: &[u8]) -> Result<u64, PortError>
        ensures answer { result ≡ delivery self.old client bytes.now }
        ensures delivered { OnOk result (self.new ≡ after_delivery self.old client bytes.now) }
        ensures refused { OnErr result (self.new ≡ self.old) }
    {
        if !self.is_client(client) {
            return Err(PortError::NoClient);
        }
        if bytes.len() < MIN_FRAME || bytes.len() > MAX_FRAME {
            return Err(PortError::BadFrame);
        }
        if self.inbox_len(client) >= INBOX_FRAMES {
            return Err(PortError::Full);
        }
        if self.next >= NUMBER_LIMIT {
            return Err(PortError::Exhausted);
        }
        Ok(self.put(client, bytes))
    }

    /// As [`Ports::deliver`], for a caller that has made its tests.
    pub fn put(&mut self, client: u64, bytes: &[u8]) -> u64
        requires client { IsClient self.old client }
        requires frame { IsFrame (record { items = bytes.now }) }
        requires room { length (inbox_of self.old client) < inbox_frames }
        requires numbers { self.old.next < number_limit }
        ensures number { result ≡ self.old.next }
        ensures ports { self.new ≡ after_delivery self.old client bytes.now }
    {
        let number = self.next;
        let inbox = &mut self.inboxes[(client - 1) as usize];
        put_last(inbox, (number, frame_of(bytes)));
        self.next = number + 1;
        number
    }

    /// Takes the first frame out of the client's inbox, with its number; `None` where the inbox is empty.
    ///
    /// # Errors
    ///
    /// [`PortError::NoClient`].
    pub fn admit(&mut self, client: u64) -> Result<Option<(u64, Frame)>, PortError>
        ensures answer { result ≡ for_client self.old client (slice_get (inbox_of self.old client) 0) }
        ensures rest { OnOk result (self.new ≡ with_inbox self.old client (drop 1 (inbox_of self.old client))) }
        ensures refused { OnErr result (self.new ≡ self.old) }
        ensures frame { IfOk result (λ o. IfSome o (λ x. IsFrame x.1)) }
    {
        if !self.is_client(client) {
            return Err(PortError::NoClient);
        }
        let inbox = &mut self.inboxes[(client - 1) as usize];
        let arrived = inbox.pop_front();
        Ok(arrived)
    }

    /// Takes the first frame out of the client's box; `None` where the box is empty.
    ///
    /// # Errors
    ///
    /// [`PortError::NoClient`].
    pub fn take(&mut self, client: u64) -> Result<Option<Frame>, PortError>
        ensures answer { result ≡ for_client self.old client (slice_get (box_of self.old client) 0) }
        ensures rest { OnOk result (self.new ≡ with_box self.old client (drop 1 (box_of self.old client))) }
        ensures refused { OnErr result (self.new ≡ self.old) }
        ensures frame { IfOk result (λ o. IfSome o IsFrame) }
    {
        if !self.is_client(client) {
            return Err(PortError::NoClient);
        }
        let landed = &mut self.boxes[(client - 1) as usize];
        let taken = landed.pop_front();
        Ok(taken)
    }

    /// To which clients a frame of the guest goes: the one that its first six bytes name, all of them if these
    /// are 0xff, else none. A frame that is too short to name one goes nowhere.
    pub fn route(&self, frame: &[u8]) -> Targets
        ensures { AreTargets (length self.now.boxes) frame.now result }
    {
        Targets::of_frame(self.clients(), frame)
    }

    /// How many frames wait in the client's inbox, at most 64.
    pub fn inbox_len(&self, client: u64) -> usize
        requires { IsClient self.now client }
        ensures len { result ≡ length (inbox_of self.now client) }
        ensures bound { result ≤ inbox_frames }
    {
        self.inboxes[(client - 1) as usize].len()
    }

    /// How many frames lie in the client's box, at most 256.
    pub fn box_len(&self, client: u64) -> usize
        requires { IsClient self.now client }
        ensures len { result ≡ length (box_of self.now client) }
        ensures bound { result ≤ box_frames }
    {
        self.boxes[(client - 1) as usize].len()
    }

    /// Whether the guest's frame of that number hasn't come for the client yet, so that [`Ports::land`] would land it.
    pub fn is_new(&self, client: u64, number: u64) -> bool
        requires { IsClient self.now client }
        ensures { result ≡ is_new self.now client number }
    {
        self.numbers[(client - 1) as usize] < number
    }

    /// Lands the guest's frame of that number for a client: it goes last in the client's box. A box of 256 frames
    /// drops it, and its number is the client's all the same. A frame whose number isn't above the client's came
    /// before, and changes nothing.
    pub fn land(&mut self, client: u64, number: u64, frame: &[u8]) -> Landing
        requires client { IsClient self.old client }
        requires frame { IsFrame (record { items = frame.now }) }
        ensures answer { result ≡ landing self.old client number }
        ensures ports { self.new ≡ after_landing self.old client number (record { items = frame.now }) }
    {
        let place = (client - 1) as usize;
        if !raise(&mut self.numbers, place, number) {
            return Landing::Old;
        }
        let landed = &mut self.boxes[place];
        if landed.len() >= BOX_FRAMES {
            return Landing::Dropped;
        }
        put_frame(landed, frame);
        Landing::In
    }

    /// Makes the number of each client 0, so that frames that the guest numbers from 1 anew land.
    pub fn renumber(&mut self)
        ensures { self.new ≡ renumbered self.old }
    {
        self.numbers = zeros(self.boxes.len());
    }

    /// Drops the frame at `place`, from 0, of the client's inbox, and answers its number; `None` where no frame
    /// is there.
    ///
    /// # Errors
    ///
    /// [`PortError::NoClient`].
    pub fn lose_in(&mut self, client: u64, place: u64) -> Result<Option<u64>, PortError>
        ensures answer { result ≡ for_client self.old client (option_map (λ x. x.0) (slice_get (inbox_of self.old client) place)) }
        ensures rest { OnOk result (self.new ≡ with_inbox self.old client (remove (inbox_of self.old client) place)) }
        ensures refused { OnErr result (self.new ≡ self.old) }
    {
        if !self.is_client(client) {
            return Err(PortError::NoClient);
        }
        let inbox = &mut self.inboxes[(client - 1) as usize];
        match remove_at(inbox, place as usize) {
            Some((number, _frame)) => Ok(Some(number)),
            None => Ok(None),
        }
    }

    /// Drops the frame at `place`, from 0, of the client's box, and answers whether one was there.
    ///
    /// # Errors
    ///
    /// [`PortError::NoClient`].
    pub fn lose_landed(&mut self, client: u64, place: u64) -> Result<bool, PortError>
        ensures answer { result ≡ for_client self.old client (nat_lt place (length (box_of self.old client))) }
        ensures rest { OnOk result (self.new ≡ with_box self.old client (remove (box_of self.old client) place)) }
        ensures refused { OnErr result (self.new ≡ self.old) }
    {
        if !self.is_client(client) {
            return Err(PortError::NoClient);
        }
        let landed = &mut self.boxes[(client - 1) as usize];
        Ok(remove_at(landed, place as usize).is_some())
    }
}
