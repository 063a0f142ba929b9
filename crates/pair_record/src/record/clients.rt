//! What clients do, at the pair's record.
ghost use Rattle.std.specs.Prelude.{◌≡◌, ◌<◌, ◌≤◌, length, IfOk, OnOk, IfErr, OnErr, IfSome, IsSome, ⊤, None, Some, false};
ghost use Rattle.std.specs.Prelude.{slice_get};
ghost use Rattle.frame_ports.specs.Addresses.{IsFrame};
ghost use Rattle.frame_ports.specs.Limits.{box_frames, max_clients};
ghost use Rattle.frame_ports.specs.Ports.{IsClient, inbox_of, box_of, after_delivery};
ghost use Rattle.pair_record.specs.declared.event.Reply.TheVariants as replies;
ghost use Rattle.pair_record.specs.Protocol.{exhausts, first_refusal, Refuses, admit_refusals, admit_of, arrival_done};
ghost use Rattle.pair_record.specs.Protocol.{deliver_refusals, RefusesDelivery, delivery_refused, deliver_done, take_refusals, take_done};
ghost use Rattle.pair_record.specs.Protocol.{loss_refusals, loss_of, loss_reply, lost_in, lost_out};
ghost use Rattle.pair_record.specs.Record.{IsAsBefore, given, ports_after_admit, ports_if_came, ports_after_take};
ghost use Rattle.pair_record.specs.Record.{ports_after_lose_in, ports_after_lose_out, ports_if_lost};

use super::PairRecord;
use crate::event::Refusal;
use crate::modes::{is_alone, is_stopped};
use frame_ports::{INBOX_FRAMES, MAX_FRAME, MIN_FRAME, NUMBER_LIMIT};
use memory_wanted::MemoryWanted;
use pair_history::{Entry, Frame};

impl PairRecord {
    /// How many clients there are, at most 16.
    pub fn clients(&self) -> u64
        ensures count { result ≡ length self.now.ports.boxes }
        ensures few { result ≤ max_clients }
    {
        self.ports.clients()
    }

    /// The first frame of this client's inbox leaves it for the guest. Answers it with its number; where none waits, nothing happens.
    ///
    /// # Errors
    ///
    /// In this order: [`Refusal::NoClient`]; [`Refusal::Stopped`] where the primary has stopped; where a frame waits,
    /// [`Refusal::Exhausted`] where the history would reach 2^62, and [`Refusal::NoMemory`] where the room for its arrival can't be had.
    pub fn admit(&mut self, client: u64) -> Result<Option<(u64, Frame)>, Refusal>
        ensures first { IfOk result (λ first. first ≡ slice_get (inbox_of self.old.ports client) 0) }
        ensures frame { IfOk result (λ first. IfSome first (λ x. IsFrame x.1)) }
        ensures protocol { IfOk result (λ first. self.new.protocol ≡ (admit_of self.old.protocol first).1) }
        ensures ports { IfOk result (λ first. self.new.ports
            ≡ ports_if_came first (ports_after_admit self.old.ports client) self.old.ports) }
        ensures free { OnOk result (first_refusal (admit_refusals (length self.old.ports.boxes) self.old.protocol client
            (slice_get (inbox_of self.old.ports client) 0)) ≡ None) }
        ensures why { IfErr result (Refuses (admit_refusals (length self.old.ports.boxes) self.old.protocol client
            (slice_get (inbox_of self.old.ports client) 0)) (IsSome (slice_get (inbox_of self.old.ports client) 0))) }
        ensures refused { OnErr result (IsAsBefore self.old self.new) }
    {
        if !self.is_client(client) {
            return Err(Refusal::NoClient);
        }
        if is_stopped(self.mode) {
            return Err(Refusal::Stopped);
        }
        if self.ports.inbox_len(client) == 0 {
            return Ok(None);
        }
        if self.is_exhausted_by(1) {
            return Err(Refusal::Exhausted);
        }
        let first = self.arrive(client, is_alone(self.mode))?;
        Ok(Some(first))
    }

    /// The first frame of this client's inbox leaves it, with its number, and that goes at once into the history, or it runs.
    fn arrive(&mut self, client: u64, at_once: bool) -> Result<(u64, Frame), MemoryWanted>
        requires free { exhausts self.old.protocol 1 ≡ false }
        requires client { IsClient self.old.ports client }
        requires some { 0 < length (inbox_of self.old.ports client) }
        ensures first { IfOk result (λ x. slice_get (inbox_of self.old.ports client) 0 ≡ Some x) }
        ensures frame { IfOk result (λ x. IsFrame x.1) }
        ensures protocol { IfOk result (λ x. self.new.protocol ≡ (arrival_done at_once self.old.protocol x.0).1) }
        ensures ports { OnOk result (self.new.ports ≡ ports_after_admit self.old.ports client) }
        ensures err { OnErr result (IsAsBefore self.old self.new) }
    {
        self.journal.reserve_arrival()?;
        let Ok(Some((number, frame))) = self.ports.admit(client) else {
            unreachable!();
        };
        if at_once {
            self.journal.add(Entry::Arrive(number));
        } else {
            self.journal.arrive(number);
        }
        Ok((number, frame))
    }

    /// The client delivers a frame of these bytes, which waits for the guest. Answers its number.
    ///
    /// # Errors
    ///
    /// In this order: [`Refusal::NoClient`]; [`Refusal::BadFrame`] for fewer than 14 or more than 1514 bytes; [`Refusal::Exhausted`] where
    /// the history would reach 2^62, and where the word that counts the caller's steps is full; [`Refusal::Full`] where 64 frames of the
    /// client wait, which an entry of the history tells; [`Refusal::Exhausted`] where the frame's number would reach 2^62.
    /// [`Refusal::NoMemory`] where the room for the entry can't be had, in place of the number or of `Full`.
    pub fn deliver(&mut self, client: u64, bytes: &[u8], word_full: bool) -> Result<u64, Refusal>
        ensures done { IfOk result (λ n. (replies.Delivered n, self.new.protocol)
            ≡ deliver_done self.old.protocol client (record { items = bytes.now }) self.old.ports.next) }
        ensures ports { OnOk result (self.new.ports ≡ after_delivery self.old.ports client bytes.now) }
        ensures free { OnOk result (first_refusal (deliver_refusals word_full (length self.old.ports.boxes)
            (inbox_of self.old.ports client) self.old.ports.next self.old.protocol client bytes.now) ≡ None) }
        ensures why { IfErr result (RefusesDelivery (deliver_refusals word_full (length self.old.ports.boxes)
            (inbox_of self.old.ports client) self.old.ports.next self.old.protocol client bytes.now)) }
        ensures refused { IfErr result (λ why. (replies.Refused why, self.new.protocol)
            ≡ delivery_refused self.old.protocol client (record { items = bytes.now }) why) }
        ensures same { OnErr result (self.new.ports ≡ self.old.ports) }
    {
        if !self.is_client(client) {
            return Err(Refusal::NoClient);
        }
        if bytes.len() < MIN_FRAME || bytes.len() > MAX_FRAME {
            return Err(Refusal::BadFrame);
        }
        if self.is_exhausted_by(1) || word_full {
            return Err(Refusal::Exhausted);
        }
        if self.ports.inbox_len(client) >= INBOX_FRAMES {
            self.journal.reserve_frame(bytes.len())?;
            self.journal.add(Entry::Refused(client, bytes));
            return Err(Refusal::Full);
        }
        if self.ports.next_number() >= NUMBER_LIMIT {
            return Err(Refusal::Exhausted);
        }
        self.journal.reserve_frame(bytes.len())?;
        let number = self.ports.put(client, bytes);
        self.journal.add(Entry::Delivered(client, bytes, number));
        Ok(number)
    }

    /// Why a client's take is refused, other than for want of memory: asked before a place for the frame is had.
    pub fn take_refusal(&self, client: u64, word_full: bool) -> Option<Refusal>
        ensures { result ≡ first_refusal (take_refusals word_full (length self.now.ports.boxes) self.now.protocol client) }
    {
        if !self.is_client(client) {
            Some(Refusal::NoClient)
        } else if self.is_exhausted_by(1) || word_full {
            Some(Refusal::Exhausted)
        } else {
            None
        }
    }

    /// The client takes the first frame of its box, which is put into `into`, or finds none. Answers whether there was one; else, and after
    /// a refusal, `into` is as before.
    ///
    /// # Errors
    ///
    /// In this order: [`Refusal::NoClient`]; [`Refusal::Exhausted`] where the history would reach 2^62, and where the word that counts the
    /// caller's steps is full; [`Refusal::NoMemory`] where the room for the entry that tells the call can't be had.
    pub fn take(&mut self, client: u64, into: &mut Frame, word_full: bool) -> Result<bool, Refusal>
        ensures done { IfOk result (λ is_some. (replies.Took (given is_some into.new), self.new.protocol)
            ≡ take_done self.old.ports.boxes self.old.protocol client) }
        ensures ports { OnOk result (self.new.ports ≡ ports_after_take self.old.ports client) }
        ensures stays { IfOk result (λ is_some. is_some ≡ false → into.new ≡ into.old) }
        ensures free { OnOk result (first_refusal (take_refusals word_full (length self.old.ports.boxes) self.old.protocol client) ≡ None) }
        ensures why { IfErr result (Refuses (take_refusals word_full (length self.old.ports.boxes) self.old.protocol client) ⊤) }
        ensures refused { OnErr result (IsAsBefore self.old self.new × (into.new ≡ into.old)) }
    {
        if !self.is_client(client) {
            return Err(Refusal::NoClient);
        }
        if self.is_exhausted_by(1) || word_full {
            return Err(Refusal::Exhausted);
        }
        // An answer with a frame in it would have a place of 1.5 KB, also where there is none, and be copied from call to call.
        self.journal.reserve_frame(MAX_FRAME)?;
        match self.ports.take(client) {
            Ok(Some(frame)) => {
                *into = frame;
                self.journal.add(Entry::Took(client, Some(into.as_slice())));
                Ok(true)
            }
            Ok(None) => {
                self.journal.add(Entry::Took(client, None));
                Ok(false)
            }
            Err(_) => unreachable!(),
        }
    }

    /// The line drops the frame at this place, from 0, of the client's inbox. Answers whether one was there; where none was, nothing
    /// happens.
    ///
    /// # Errors
    ///
    /// [`Refusal::NoClient`]; where a frame is there, as those of [`PairRecord::take`].
    pub fn lose_in(&mut self, client: u64, place: u64, word_full: bool) -> Result<bool, Refusal>
        ensures done { IfOk result (λ is_there. (loss_reply is_there, self.new.protocol)
            ≡ loss_of self.old.protocol (lost_in (inbox_of self.old.ports client) place)) }
        ensures ports { IfOk result (λ is_there. self.new.ports
            ≡ ports_if_lost is_there (ports_after_lose_in self.old.ports client place) self.old.ports) }
        ensures free { OnOk result (first_refusal (loss_refusals word_full (length self.old.ports.boxes) self.old.protocol client
            (lost_in (inbox_of self.old.ports client) place)) ≡ None) }
        ensures why { IfErr result (Refuses (loss_refusals word_full (length self.old.ports.boxes) self.old.protocol client
            (lost_in (inbox_of self.old.ports client) place)) (IsSome (lost_in (inbox_of self.old.ports client) place))) }
        ensures refused { OnErr result (IsAsBefore self.old self.new) }
    {
        if !self.is_client(client) {
            return Err(Refusal::NoClient);
        }
        if place >= self.ports.inbox_len(client) as u64 {
            return Ok(false);
        }
        if self.is_exhausted_by(1) || word_full {
            return Err(Refusal::Exhausted);
        }
        self.journal.reserve(1)?;
        let Ok(Some(number)) = self.ports.lose_in(client, place) else {
            unreachable!();
        };
        self.journal.add(Entry::DropIn(number));
        Ok(true)
    }

    /// The line drops the frame at this place, from 0, of the client's box. Answers whether one was there; where none was, nothing happens.
    ///
    /// # Errors
    ///
    /// As those of [`PairRecord::lose_in`].
    pub fn lose_out(&mut self, client: u64, place: u64, word_full: bool) -> Result<bool, Refusal>
        ensures done { IfOk result (λ is_there. (loss_reply is_there, self.new.protocol)
            ≡ loss_of self.old.protocol (lost_out client (box_of self.old.ports client) place)) }
        ensures ports { IfOk result (λ is_there. self.new.ports
            ≡ ports_if_lost is_there (ports_after_lose_out self.old.ports client place) self.old.ports) }
        ensures free { OnOk result (first_refusal (loss_refusals word_full (length self.old.ports.boxes) self.old.protocol client
            (lost_out client (box_of self.old.ports client) place)) ≡ None) }
        ensures why { IfErr result (Refuses (loss_refusals word_full (length self.old.ports.boxes) self.old.protocol client
            (lost_out client (box_of self.old.ports client) place)) (IsSome (lost_out client (box_of self.old.ports client) place))) }
        ensures refused { OnErr result (IsAsBefore self.old self.new) }
        ensures few { OnOk result (length (box_of self.old.ports client) ≤ box_frames) }
    {
        if !self.is_client(client) {
            return Err(Refusal::NoClient);
        }
        if place >= self.ports.box_len(client) as u64 {
            return Ok(false);
        }
        if self.is_exhausted_by(1) || word_full {
            return Err(Refusal::Exhausted);
        }
        self.journal.reserve(1)?;
        let Ok(true) = self.ports.lose_landed(client, place) else {
            unreachable!();
        };
        self.journal.add(Entry::DropOut { client, place });
        Ok(true)
    }
}
