//! A machine, and the texts of its checkpoints that are pending.
ghost use Rattle.std.specs.Prelude.{◌≡◌, ◌≤◌, ◌<◌, ◌+◌, ◌∷◌, ◌++◌, ℕ, List, [], None, Option, IfSome, OnOk, drop, length, max, slice_index_or, vec_capacity};
ghost use Rattle.net_device.specs.Receive.{received};
ghost use Rattle.guest_rules.specs.Flags.{KeepsFlags};
ghost use Rattle.guest_rules.specs.Limits.{stepping_frames};
ghost use Rattle.guest_rules.specs.Runs.{HaveRoom, after_steps, marked_in, sent_in};
ghost use Rattle.guest_rules.specs.Step.{arrived};
ghost use Rattle.full_text.specs.Full.{SearchFits, found_of, most_record, part_of, whole};
ghost use Rattle.full_text.specs.MachineTexts.{HaveGoneOn, ahead, made_bytes, most_texts, settled_at};
ghost use Rattle.full_text.specs.Stages.{IsKept, IsReadyTo};
ghost use Rattle.full_text.specs.internal.TextFields.{FullFits, full_count, texts_of};
ghost use Rattle.full_text.specs.declared.stage.FullStage.{FullStage};

use crate::rows::{part_of, put_last};
use crate::search::PageSearch;
use crate::stage::FullStage;
use guest_machine::{Frame, Machine};
use memory_wanted::MemoryWanted;
use std::marker::Model;

/// A machine, and at most four texts of its checkpoints. Contracts see each text whole. The first may be that of a full checkpoint, which is made
/// as it is asked for: of the memory that the machine had at its last settle, and of what is kept of what it had before.
#[derive(Drop)]
pub struct MachineTexts {
    machine: Machine,
    full: Option<FullStage>,
    /// The texts behind the full one.
    texts: Vec<Vec<u8>>,
}

impl Model for MachineTexts {
    ghost use Rattle.full_text.specs.MachineTexts.{Texts};

    ghost Value = { Texts };

    ghost use Rattle.full_text.specs.internal.TextFields.{texts_state, AreTexts};

    ghost view = { texts_state };

    ghost invariant = { AreTexts };
}

impl MachineTexts {
    /// A machine, and no text, with room for four of them.
    pub fn new(machine: Machine, texts: Vec<Vec<u8>>) -> MachineTexts
        requires none { texts.items ≡ [] }
        requires room { most_texts ≤ vec_capacity texts }
        ensures { result ≡ record { machine = machine; texts = []; full = None } }
    {
        MachineTexts {
            machine,
            full: None,
            texts,
        }
    }

    /// The machine.
    pub fn machine(&self) -> &Machine
        ensures { result.now ≡ self.now.machine }
    {
        &self.machine
    }

    /// How many texts there are.
    pub fn count(&self) -> usize
        ensures { result ≡ length self.now.texts }
    {
        match &self.full {
            None => self.texts.len(),
            Some(_) => 1 + self.texts.len(),
        }
    }

    /// The guest makes steps, as `run` of the machine has it.
    pub fn run(&mut self, count: u64) -> u64
        ensures most { result ≤ count }
        ensures guest { self.new.machine.guest ≡ after_steps result self.old.machine.guest }
        ensures outbox { self.new.machine.outbox ≡ self.old.machine.outbox ++ sent_in result self.old.machine.guest }
        ensures dirty { self.new.machine.dirty ≡ marked_in result self.old.machine.guest self.old.machine.dirty }
        ensures settled { self.new.machine.settled ≡ self.old.machine.settled }
        ensures flags { KeepsFlags self.old.machine.written self.new.machine.written }
        ensures room { HaveRoom result self.old.machine.guest self.old.machine.outbox }
        ensures cut_needed { result < count → stepping_frames < length self.new.machine.outbox }
        ensures texts { self.new.texts ≡ self.old.texts }
    {
        self.machine.run(count)
    }

    /// A frame arrives, as `arrive` of the machine has it.
    pub fn arrive(&mut self, frame: &Frame) -> bool
        requires long { 14 ≤ length frame.now.items }
        ensures guest { self.new.machine.guest ≡ arrived self.old.machine.guest frame.now }
        ensures taken { result ≡ (received self.old.machine.guest.ram self.old.machine.guest.net frame.now).taken }
        ensures outbox { self.new.machine.outbox ≡ self.old.machine.outbox }
        ensures dirty { self.new.machine.dirty ≡ self.old.machine.dirty }
        ensures settled { self.new.machine.settled ≡ self.old.machine.settled }
        ensures flags { KeepsFlags self.old.machine.written self.new.machine.written }
        ensures texts { self.new.texts ≡ self.old.texts }
    {
        self.machine.arrive(frame)
    }

    /// Empties the machine's outbox.
    pub fn clear_outbox(&mut self)
        ensures machine { self.new.machine ≡ record self.old.machine { outbox = [] } }
        ensures texts { self.new.texts ≡ self.old.texts }
    {
        self.machine.clear_outbox();
    }

    /// Keeps what of the full text is still to be made and the machine gives up where it is settled: the pages that were written since its last
    /// settle, if their records aren't made.
    ///
    /// # Errors
    /// The growth that was really refused. The machine and the texts are the same.
    pub fn keep(&mut self) -> Result<(), MemoryWanted>
        ensures machine { self.new.machine ≡ self.old.machine }
        ensures texts { self.new.texts ≡ self.old.texts }
        ensures kept { OnOk result (IfSome self.new.full (IsKept self.new.machine)) }
    {
        keep(&self.machine, &mut self.full)
    }

    /// The machine is settled, and this text is the last one. What is left of a full text is [kept](MachineTexts::keep), as the caller knows.
    pub fn settle_with(&mut self, text: Vec<u8>)
        requires room { length self.old.texts < most_texts }
        requires kept { IfSome self.old.full (IsKept self.old.machine) }
        ensures machine { self.new.machine ≡ settled_at self.old.machine }
        ensures texts { self.new.texts ≡ self.old.texts ++ text.items ∷ [] }
    {
        settle(&mut self.machine, &self.full);
        put_last(&mut self.texts, text);
    }

    /// The machine is settled, and the text of its full checkpoint, of the memory that it has now, is the only one.
    pub fn settle_at(&mut self, full: PageSearch)
        requires fits { SearchFits self.old.machine.guest.ram full }
        ensures machine { self.new.machine ≡ settled_at self.old.machine }
        ensures texts { let ram = self.old.machine.guest.ram in self.new.texts ≡ whole ram (found_of ram full) ∷ [] }
    {
        self.texts.clear();
        self.machine.settle();
        self.full = Some(FullStage::Search(full));
    }

    /// Lets go of the first `count` texts.
    pub fn drop_first(&mut self, count: usize)
        requires { count ≤ length self.old.texts }
        ensures machine { self.new.machine ≡ self.old.machine }
        ensures texts { self.new.texts ≡ drop count self.old.texts }
    {
        if count > 0 {
            let behind = count - take_full(&mut self.full);
            self.texts.drain(..behind);
        }
    }

    /// Lets go of all texts.
    pub fn clear(&mut self)
        ensures machine { self.new.machine ≡ self.old.machine }
        ensures texts { self.new.texts ≡ [] }
    {
        self.full = None;
        self.texts.clear();
    }

    /// Makes more of the full text, if one is made in part: up to `count` bytes from place `from` on at least, or all of it. While its pages are
    /// searched for, it looks at 1024 pages more, and at all that are left where bytes behind the head are wanted. Then it makes a mebibyte
    /// more or so far, whichever is further, and less than a page's record beside. It takes no memory.
    pub fn make(&mut self, from: u64, count: u64)
        ensures machine { self.new.machine ≡ self.old.machine }
        ensures texts { self.new.texts ≡ self.old.texts }
        ensures made { IfSome self.new.full (IsReadyTo (from + count)) }
        ensures further { HaveGoneOn (from + count) self.old.full self.new.full }
        ensures no_further { made_bytes self.new.full < max (made_bytes self.old.full + ahead) (from + count) + most_record }
    {
        make_ahead(&self.machine, &mut self.full);
        make_to(&self.machine, &mut self.full, from, count);
    }

    /// Of the text at a place the bytes from place `from` on, `count` of them or as many as there are. A full text is made as far, as the
    /// caller knows.
    pub fn part(&self, place: usize, from: u64, count: u64) -> &[u8]
        requires place { place < length self.now.texts }
        requires made { IfSome self.now.full (IsReadyTo (from + count)) }
        ensures { result.now ≡ part_of from count (slice_index_or self.now.texts place []) }
    {
        match &self.full {
            None => part_of(&self.texts[place], from, count),
            Some(full) if place == 0 => full.part(from, count),
            Some(_) => part_of(&self.texts[place - 1], from, count),
        }
    }
}

/// Lets go of the full text, if there is one. Answers how many that is.
fn take_full(full: &mut Option<FullStage>) -> usize
    ensures none { full.new ≡ None }
    ensures value { result ≡ full_count full.old }
{
    match full.take() {
        None => 0,
        Some(_) => 1,
    }
}

/// Keeps what of the full text is still to be made and the machine gives up where it is settled.
fn keep(machine: &Machine, full: &mut Option<FullStage>) -> Result<(), MemoryWanted>
    requires { FullFits machine.now full.old }
    ensures fits { FullFits machine.now full.new }
    ensures same { (texts : List (List ℕ)) → texts_of machine.now.settled full.new texts ≡ texts_of machine.now.settled full.old texts }
    ensures kept { OnOk result (IfSome full.new (IsKept machine.now)) }
{
    let _shape = machine.shape();
    match full {
        None => Ok(()),
        Some(full) => full.keep(machine),
    }
}

/// The machine is settled, and the full text is the same: what is left of it is kept.
fn settle(machine: &mut Machine, full: &Option<FullStage>)
    requires fits { FullFits machine.old full.now }
    requires kept { IfSome full.now (IsKept machine.old) }
    ensures machine { machine.new ≡ settled_at machine.old }
    ensures fits { FullFits machine.new full.now }
    ensures same { (texts : List (List ℕ)) → texts_of machine.new.settled full.now texts ≡ texts_of machine.old.settled full.now texts }
{
    let _shape = machine.shape();
    machine.settle();
}

/// Looks at the next pages for the full text, or makes its next bytes.
fn make_ahead(machine: &Machine, full: &mut Option<FullStage>)
    requires { FullFits machine.now full.old }
    ensures fits { FullFits machine.now full.new }
    ensures same { (texts : List (List ℕ)) → texts_of machine.now.settled full.new texts ≡ texts_of machine.now.settled full.old texts }
    ensures further { HaveGoneOn 0 full.old full.new }
    ensures no_further { made_bytes full.new < made_bytes full.old + ahead + most_record }
{
    *full = match full.take() {
        None => None,
        Some(full) => Some(full.on(machine)),
    };
}

/// Makes the full text up to `count` bytes from place `from` on, or all of it.
fn make_to(machine: &Machine, full: &mut Option<FullStage>, from: u64, count: u64)
    requires { FullFits machine.now full.old }
    ensures fits { FullFits machine.now full.new }
    ensures same { (texts : List (List ℕ)) → texts_of machine.now.settled full.new texts ≡ texts_of machine.now.settled full.old texts }
    ensures made { IfSome full.new (IsReadyTo (from + count)) }
    ensures further { (before : Option FullStage) → HaveGoneOn 0 before full.old → HaveGoneOn (from + count) before full.new }
    ensures no_further { made_bytes full.old < made_bytes full.new → made_bytes full.new < from + count + most_record }
{
    *full = match full.take() {
        None => None,
        Some(full) => Some(full.on_to(machine, from, count)),
    };
}
