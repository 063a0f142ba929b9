//! Acknowledgements, failures, and what follows them: steps that are no member's.
ghost use Rattle.std.specs.Prelude.{◌≡◌, ◌<◌, ◌+◌, ◌++◌, ◌∷◌, [], None, Some, IfOk, OnOk, IfErr, OnErr};
ghost use Rattle.pair_history.specs.Landings.{landings};
ghost use Rattle.growing_history.specs.Steps.{PrimaryFailed, BackupFailed, Protected, step};
ghost use Rattle.pair_record.specs.EpochActs.{fail_within_done};
ghost use Rattle.pair_record.specs.declared.event.Reply.TheVariants as replies;
ghost use Rattle.pair_record.specs.Protocol.{let_go, ack_done, fail_primary_done, begin_done};
ghost use Rattle.pair_record.specs.Record.{ports_after_ack, ports_after_all};
ghost use Rattle.pair_book.specs.Calls.{IsWhy};
ghost use Rattle.pair_book.specs.Packets.{no_texts};
ghost use Rattle.pair_book.specs.Texts.{texts_above};
ghost use Rattle.pair_book.specs.Failures.{MakesAlone, AddsAlone, fail_primary_why, fail_backup_why, protect_why, ack_why, leaving_at};

use crate::book::Book;
use crate::gained::tell_alone;
use growing_history::{BackupSeat, Clock, Pair, What};
use pair_record::{Event, Packet, Refusal, Reply, mode_refusal};

/// That the backup has committed the checkpoint of this generation and number, and all before it in that generation.
#[derive(Clone, Copy)]
pub struct Ack {
    pub generation: u64,
    pub number: u64,
}

/// What landed where frames left the gate.
#[derive(Clone, Copy, PartialEq, Eq)]
pub struct LandedCount {
    /// How many frames, each counted for each client whose box took it.
    pub count: u64,
}

impl<P: Pair> Book<P> {
    /// The backup has committed all checkpoints of the generation up to the acknowledged one: they are no longer pending, with their texts,
    /// and their frames land. Answers what landed.
    ///
    /// # Errors
    ///
    /// In this order: [`Refusal::Stopped`] where the primary has stopped; [`Refusal::NotPaired`] where a node is alone; [`Refusal::Stale`]
    /// for another generation; [`Refusal::Gap`] beyond the last commit; [`Refusal::Exhausted`] where the history, or the word, would reach
    /// 2^62. [`Refusal::NoMemory`] where the room for the landings in the history can't be had.
    pub fn acked(&mut self, clock: &Clock<P>, ack: Ack) -> Result<LandedCount, Refusal>
        ensures done { IfOk result (λ landed. (replies.Acked ack.generation ack.number landed.count, self.new.protocol)
            ≡ ack_done self.old.ports.boxes self.old.protocol ack.number) }
        ensures ports { OnOk result (self.new.ports ≡ ports_after_ack self.old.ports self.old.protocol ack.number) }
        ensures texts { OnOk result (self.new.texts ≡ texts_above ack.number self.old.texts) }
        ensures step { OnOk result (AddsAlone (landings self.old.ports.boxes (let_go self.old.ports.boxes self.old.protocol ack.number))
            self.old self.new) }
        ensures free { OnOk result (ack_why self.old ack ≡ None) }
        ensures why { IfErr result (IsWhy (ack_why self.old ack)) }
        // Memory is wanted only where frames leave.
        ensures memory { OnErr result (ack_why self.old ack ≡ None → 0 < leaving_at self.old ack.number) }
        ensures refused { OnErr result (self.new ≡ self.old) }
    {
        if let Some(why) = mode_refusal(self.record.mode(), Event::AckGet(0)) {
            return Err(why);
        }
        self.record.keep();
        let before = self.record.history().len();
        let packet = Packet {
            generation: ack.generation,
            number: ack.number,
        };
        let word_full = self.is_word_full();
        let count = self.record.acknowledge(packet, word_full)?;
        self.texts.drop_to(ack.number);
        if self.record.history().len() > before {
            tell_alone(&self.record, before, &mut self.seats, clock);
        }
        Ok(LandedCount { count })
    }

    /// The primary stops: nothing else changes.
    ///
    /// # Errors
    ///
    /// [`Refusal::Stopped`] where it has stopped already; [`Refusal::NoImage`] where a node is alone, or its backup has no image yet;
    /// [`Refusal::Exhausted`] where the word would reach 2^62.
    pub fn fail_primary(&mut self, clock: &Clock<P>) -> Result<(), Refusal>
        ensures done { OnOk result ((replies.Stopped, self.new.protocol) ≡ fail_primary_done self.old.protocol) }
        ensures ports { OnOk result (self.new.ports ≡ self.old.ports) }
        ensures texts { self.new.texts ≡ self.old.texts }
        ensures step { OnOk result (MakesAlone PrimaryFailed self.old self.new) }
        ensures free { OnOk result (fail_primary_why self.old ≡ None) }
        ensures why { IfErr result (λ why. fail_primary_why self.old ≡ Some why) }
        ensures refused { OnErr result (self.new ≡ self.old) }
    {
        let word_full = self.is_word_full();
        self.record.fail_primary(word_full)?;
        self.seats.step_alone(clock, &What::PrimaryFailed);
        Ok(())
    }

    /// The backup stops, and the primary goes on alone: sealed epochs enter the history, and what is held lands. What was handed out to
    /// the runner stays with it. Answers what landed.
    ///
    /// # Errors
    ///
    /// In this order: [`Refusal::Stopped`] where the primary has stopped; [`Refusal::NotPaired`] where a node is alone;
    /// [`Refusal::Exhausted`] where the history with what is kept, or the word, would reach 2^62. [`Refusal::NoMemory`] where the room in
    /// the history can't be had.
    pub fn fail_backup(&mut self, clock: &Clock<P>) -> Result<LandedCount, Refusal>
        ensures done { IfOk result (λ landed. (replies.Alone self.old.protocol.generation landed.count, self.new.protocol)
            ≡ fail_within_done self.old.ports.boxes self.old.protocol) }
        ensures ports { OnOk result (self.new.ports ≡ ports_after_all self.old.ports [] self.old.protocol) }
        ensures texts { OnOk result (self.new.texts ≡ no_texts) }
        ensures step { OnOk result (MakesAlone BackupFailed self.old self.new) }
        ensures free { OnOk result (fail_backup_why self.old ≡ None) }
        ensures why { IfErr result (IsWhy (fail_backup_why self.old)) }
        ensures refused { OnErr result (self.new ≡ self.old) }
    {
        if let Some(why) = mode_refusal(self.record.mode(), Event::FailBackup) {
            return Err(why);
        }
        self.record.keep();
        let word_full = self.is_word_full();
        let reply = self.record.fail_backup_within(word_full)?;
        let Reply::Alone { landed, .. } = reply else {
            unreachable!();
        };
        self.texts.clear();
        self.seats.step_alone(clock, &What::BackupFailed);
        Ok(LandedCount { count: landed })
    }

    /// Why a node can't get a new backup.
    fn protect_refusal(&self) -> Option<Refusal>
        ensures { result ≡ protect_why self.now }
    {
        if let Some(why) = mode_refusal(self.record.mode(), Event::Protect) {
            return Some(why);
        }
        if let Some(why) = self.record.protect_refusal() {
            return Some(why);
        }
        if self.is_word_full() {
            return Some(Refusal::Exhausted);
        }
        None
    }

    /// The node that is alone gets a new backup, whose seat is answered: in the next generation, whose first checkpoint is a full one.
    ///
    /// # Errors
    ///
    /// In this order: [`Refusal::Stopped`] where the primary has stopped; [`Refusal::AlreadyPaired`] where there is a backup;
    /// [`Refusal::Exhausted`] where the generation's number, or the word, would reach 2^62.
    pub fn protect(&mut self, clock: &Clock<P>) -> Result<BackupSeat<P>, Refusal>
        ensures done { OnOk result ((replies.Protecting (self.old.protocol.generation + 1), self.new.protocol)
            ≡ begin_done self.old.protocol) }
        ensures ports { OnOk result (self.new.ports ≡ self.old.ports) }
        ensures texts { OnOk result (self.new.texts ≡ no_texts) }
        ensures step { OnOk result (self.new.steps ≡ self.old.steps ++ step 0 (Protected (self.old.enrolled + 1)) ∷ []) }
        ensures enrolled { OnOk result (self.new.enrolled ≡ self.old.enrolled + 1) }
        ensures seat { IfOk result (λ seat. seat ≡ record { number = self.new.enrolled; steps = self.new.steps }) }
        ensures free { OnOk result (protect_why self.old ≡ None) }
        ensures why { IfErr result (λ why. protect_why self.old ≡ Some why) }
        ensures refused { OnErr result (self.new ≡ self.old) }
    {
        if let Some(why) = self.protect_refusal() {
            return Err(why);
        }
        let _new = self.seats.next();
        self.record.keep();
        self.record.begin_protect();
        self.texts.clear();
        Ok(self.seats.protect(clock))
    }
}
