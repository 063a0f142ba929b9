//! The pair's record: all of a pair but its machines.
ghost use Rattle.std.specs.Prelude.{◌≡◌, ◌+◌, ◌-◌, ◌≤◌, ◌<◌, length, replicate, All, IfOk, IfErr, OnOk, OnErr};
ghost use Rattle.std.specs.Prelude.{None, Some, false};
ghost use Rattle.frame_ports.specs.Addresses.{IsFrame};
ghost use Rattle.frame_ports.specs.Ports.{empty_ports};
ghost use Rattle.frame_ports.specs.Limits.{max_clients, number_limit};
ghost use Rattle.pair_history.specs.Entries.{Ran};
ghost use Rattle.pair_history.specs.Journal.{all_entries, with_running};
ghost use Rattle.pair_record.specs.Modes.{is_stopped as stopped, is_alone as alone};
ghost use Rattle.pair_record.specs.Protocol.{exhausts, frames_run_out as runs_out, is_among, first_refusal};
ghost use Rattle.pair_record.specs.Protocol.{step_refusals, cut_refusals, cut_done};
ghost use Rattle.pair_record.specs.Protocol.{backup_refusals, commit_done, acknowledge_refusals, ack_done, let_go};
ghost use Rattle.pair_record.specs.Protocol.{Refuses, fail_primary_refusal, fail_primary_done};
ghost use Rattle.pair_record.specs.declared.event.Reply.TheVariants as replies;
ghost use Rattle.pair_record.specs.Record.{IsRecord, IsAsBefore, AreNumbered, start_record, ports_after_ack};

mod alone;
mod clients;
mod epochs;
mod full;
mod live;
mod protect;

use crate::event::{Packet, Refusal, Reply};
use crate::limits::{FIRST_GENERATION, LAST_FRAME, MOST_PENDING, STEP_ROOM};
use crate::modes::{change_refusal, filled, is_alone, is_stopped, step_room};
use crate::window::Window;
use failover::{Change, Mode};
use frame_ports::{NUMBER_LIMIT, PortError, Ports};
use memory_wanted::MemoryWanted;
use output_gate::{Gate, GateError};
use pair_history::{Frame, History, Journal, count_landings};
use std::alloc::Global;
use std::marker::Model;

/// The mode and the generation, the journal, the window of checkpoints, the gate and the clients' ports: no machine, page, image
/// or packet. Contracts see it as a `RecordState` of the specs.
///
/// What a client or its line does is one call, refused by the first row of its table of refusals that applies, or done; so are an
/// acknowledgement, the backup's failure, and the primary's, which looks at the mode too. Where a machine's part comes between, a
/// `.._refusal` answers that row, and the event itself asks that none applies; [`PairRecord::take_refusal`] answers it before the call,
/// which looks at it again.
///
/// A call that answers a [`MemoryWanted`] was refused a growth; the record and the ports are as they were then.
#[derive(Drop)]
pub struct PairRecord {
    mode: Mode,
    generation: u64,
    journal: Journal,
    window: Window,
    gate: Gate,
    ports: Ports,
}

impl Model for PairRecord {
    ghost use Rattle.pair_record.specs.Record.{RecordState};

    ghost Value = { RecordState };

    ghost use Rattle.pair_record.specs.internal.RecordFields.{record_state, AreFields};

    ghost view = { record_state };

    ghost invariant = { AreFields };
}

impl PairRecord {
    /// A record of so many clients in which nothing happened yet.
    pub fn new(alloc: Global, clients: u64) -> Result<PairRecord, MemoryWanted>
        requires some { 1 ≤ clients }
        requires few { clients ≤ max_clients }
        ensures protocol { IfOk result (λ r. r.protocol ≡ start_record) }
        ensures ports { IfOk result (λ r. r.ports ≡ empty_ports clients) }
    {
        let ports = match Ports::new(alloc, clients) {
            Ok(ports) => ports,
            Err(PortError::NoMemory(wanted)) => return Err(wanted),
            Err(_) => unreachable!(),
        };
        let gate = match Gate::new(alloc) {
            Ok(gate) => gate,
            Err(GateError::NoMemory(wanted)) => return Err(wanted),
        };
        Ok(PairRecord {
            mode: Mode::Paired,
            generation: FIRST_GENERATION,
            journal: Journal::new(alloc),
            window: Window::new(),
            gate,
            ports,
        })
    }

    /// The state of the pair.
    pub fn mode(&self) -> Mode
        ensures { result ≡ self.now.protocol.mode }
    {
        self.mode
    }

    /// The primary stops: nothing else changes.
    ///
    /// # Errors
    ///
    /// [`Refusal::Stopped`] where it has stopped already; [`Refusal::NoImage`] where a node is alone, or its backup has no image yet;
    /// [`Refusal::Exhausted`] where the word that counts the caller's steps is full.
    pub fn fail_primary(&mut self, word_full: bool) -> Result<Reply, Refusal>
        ensures done { IfOk result (λ reply. (reply, self.new.protocol) ≡ fail_primary_done self.old.protocol) }
        ensures ports { OnOk result (self.new.ports ≡ self.old.ports) }
        ensures free { OnOk result (fail_primary_refusal word_full self.old.protocol ≡ None) }
        ensures why { IfErr result (λ why. fail_primary_refusal word_full self.old.protocol ≡ Some why) }
        ensures refused { OnErr result (IsAsBefore self.old self.new) }
    {
        if let Some(why) = change_refusal(Change::FailPrimary, self.mode) {
            return Err(why);
        }
        if word_full {
            return Err(Refusal::Exhausted);
        }
        self.mode = Mode::Stopped;
        Ok(Reply::Stopped)
    }

    /// The generation, from 1.
    pub fn generation(&self) -> u64
        ensures { result ≡ self.now.protocol.generation }
    {
        self.generation
    }

    /// What is true of every record is true of this one.
    pub fn keep(&self)
        ensures record { IsRecord self.now.protocol }
        ensures numbers { AreNumbered self.now.protocol self.now.ports }
        ensures clients { length self.now.ports.numbers ≡ length self.now.ports.boxes }
    {
        let _clients = self.ports.clients();
    }

    /// The history.
    pub fn history(&self) -> &History
        ensures { result.now.entries ≡ self.now.protocol.journal.history }
    {
        self.journal.history()
    }

    /// How many checkpoints are pending.
    pub fn pending(&self) -> u64
        ensures { result ≡ length self.now.protocol.pending }
    {
        self.window.to_cut - self.window.to_acknowledge
    }

    /// The numbers of the next checkpoint to be cut, to be committed and to be acknowledged.
    pub fn window(&self) -> Window
        ensures { result ≡ self.now.protocol.window }
    {
        self.window
    }

    /// How many of these steps the history has numbers for: none where the primary has stopped.
    pub fn steps_left(&self, count: u64) -> u64
        ensures most { result ≤ count }
        ensures runs { 0 < result → stopped self.now.protocol.mode ≡ false }
        ensures fits { length (all_entries self.now.protocol.journal) + result < number_limit }
        ensures fewer { result < count → stopped self.now.protocol.mode ≡ false
            → number_limit ≤ length (all_entries self.now.protocol.journal) + result + 1 }
    {
        let left = self.journal.entries_left();
        if is_stopped(self.mode) {
            0
        } else {
            count.min(left)
        }
    }

    /// Whether so many more entries would be too many for the history.
    pub fn is_exhausted_by(&self, more: u64) -> bool
        ensures { result ≡ exhausts self.now.protocol more }
    {
        more > self.journal.entries_left()
    }

    /// Whether too few numbers are left for the frames that the guest may send.
    fn frames_run_out(&self) -> bool
        ensures { result ≡ runs_out self.now.protocol }
    {
        self.gate.next() > LAST_FRAME
    }

    /// Whether a client has this number.
    fn is_client(&self, client: u64) -> bool
        ensures { result ≡ is_among client (length self.now.ports.boxes) }
    {
        client >= 1 && client <= self.ports.clients()
    }

    /// Why a step is refused where the guest's outbox holds so many frames.
    pub fn step_refusal(&self, outbox: &[Frame]) -> Option<Refusal>
        ensures { result ≡ first_refusal (step_refusals outbox.now self.now.protocol) }
    {
        if is_stopped(self.mode) {
            Some(Refusal::Stopped)
        } else if outbox.len() > STEP_ROOM {
            Some(Refusal::CutNeeded)
        } else if self.is_exhausted_by(step_room(self.mode))
            || is_alone(self.mode) && self.frames_run_out()
        {
            Some(Refusal::Exhausted)
        } else {
            None
        }
    }

    /// The guest made so many steps.
    pub fn run(&mut self, steps: u64)
        requires pair { alone self.old.protocol.mode ≡ false }
        requires fits { length (all_entries self.old.protocol.journal) + steps < number_limit }
        ensures protocol { self.new.protocol ≡ record self.old.protocol {
          journal = with_running self.old.protocol.journal (replicate steps Ran);
        } }
        ensures ports { self.new.ports ≡ self.old.ports }
    {
        self.journal.run(steps);
    }

    /// Why a cut is refused.
    pub fn cut_refusal(&self) -> Option<Refusal>
        ensures refusal { result ≡ first_refusal (cut_refusals self.now.protocol) }
        // What is true of every record.
        ensures record { IsRecord self.now.protocol }
    {
        if self.pending() >= MOST_PENDING {
            Some(Refusal::Behind)
        } else if self.window.to_cut >= NUMBER_LIMIT || self.frames_run_out() {
            Some(Refusal::Exhausted)
        } else {
            None
        }
    }

    /// The running epoch, along which the guest sent these frames, is sealed, and they go to the gate.
    pub fn cut(&mut self, frames: &[Frame]) -> Result<Reply, MemoryWanted>
        requires pair { alone self.old.protocol.mode ≡ false }
        requires free { first_refusal (cut_refusals self.old.protocol) ≡ None }
        requires few { length frames.now ≤ 256 }
        requires frames { All IsFrame frames.now }
        ensures ok { IfOk result (λ reply. (reply, self.new.protocol) ≡ cut_done frames.now self.old.protocol) }
        ensures ports { self.new.ports ≡ self.old.ports }
        ensures err { OnErr result (IsAsBefore self.old self.new) }
    {
        self.journal.seal()?;
        let number = self.window.to_cut;
        self.gate.hold(number, frames);
        self.window.cut();
        Ok(Reply::Cut {
            generation: self.generation,
            number,
        })
    }

    /// Why the backup refuses a packet.
    pub fn backup_refusal(&self, packet: Packet) -> Option<Refusal>
        ensures refusal { result ≡ first_refusal (backup_refusals self.now.protocol packet) }
        // What is true of every record.
        ensures record { IsRecord self.now.protocol }
    {
        if packet.generation != self.generation {
            Some(Refusal::Stale)
        } else if packet.number > self.window.to_commit {
            Some(Refusal::Gap)
        } else {
            None
        }
    }

    /// The next checkpoint is committed: its epoch moves to the history.
    pub fn commit(&mut self) -> Result<Reply, MemoryWanted>
        requires { self.old.protocol.window.to_commit < self.old.protocol.window.to_cut }
        ensures ok { IfOk result (λ reply. (reply, self.new.protocol) ≡ commit_done self.old.protocol) }
        ensures ports { self.new.ports ≡ self.old.ports }
        ensures err { OnErr result (IsAsBefore self.old self.new) }
    {
        let number = self.window.to_commit;
        self.journal.commit()?;
        self.window.commit();
        self.mode = filled(self.mode);
        Ok(Reply::Committed {
            generation: self.generation,
            number,
        })
    }

    /// How many frames leave the gate where the checkpoints up to this number are acknowledged, each counted for each of its clients.
    fn leaving(&self, number: u64) -> u64
        ensures { result ≡ length (let_go self.now.ports.boxes self.now.protocol number) }
    {
        count_landings(&self.ports, self.gate.held(number))
    }

    /// The checkpoints up to this packet's are no longer pending, and their frames land. Answers how many landed, each counted for each
    /// client whose box took it.
    ///
    /// # Errors
    ///
    /// In this order: [`Refusal::Stale`] for another generation; [`Refusal::Gap`] beyond the last commit; [`Refusal::Exhausted`] where the
    /// history would reach 2^62, and where frames leave and the word that counts the caller's steps is full. [`Refusal::NoMemory`] where
    /// frames leave and the room for their entries can't be had.
    pub fn acknowledge(&mut self, packet: Packet, word_full: bool) -> Result<u64, Refusal>
        ensures done { IfOk result (λ landed. (replies.Acked packet.generation packet.number landed, self.new.protocol)
            ≡ ack_done self.old.ports.boxes self.old.protocol packet.number) }
        ensures ports { OnOk result (self.new.ports ≡ ports_after_ack self.old.ports self.old.protocol packet.number) }
        ensures free { OnOk result (first_refusal (acknowledge_refusals word_full self.old.ports.boxes self.old.protocol packet) ≡ None) }
        ensures why { IfErr result (Refuses (acknowledge_refusals word_full self.old.ports.boxes self.old.protocol packet)
            (0 < length (let_go self.old.ports.boxes self.old.protocol packet.number))) }
        ensures refused { OnErr result (IsAsBefore self.old self.new) }
    {
        if packet.generation != self.generation {
            return Err(Refusal::Stale);
        }
        let number = packet.number;
        if number >= self.window.to_commit {
            return Err(Refusal::Gap);
        }
        let count = self.leaving(number);
        if self.is_exhausted_by(count) || count > 0 && word_full {
            return Err(Refusal::Exhausted);
        }
        self.journal.reserve(count as usize)?;
        let landed = self
            .journal
            .land(&mut self.ports, self.gate.first(), self.gate.held(number));
        self.gate.let_go(number);
        self.window.acknowledge(number);
        Ok(landed.landed)
    }
}
