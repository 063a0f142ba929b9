//! The pair as one value, and what each event does to it.
ghost use Rattle.std.specs.Prelude.{◌≡◌, ◌*◌, ◌≤◌, ◌<◌, length, IfOk, IfErr, OnErr, None, false, slice_get, ◌≢◌};
ghost use Rattle.memory_wanted.specs.Wanted.{wanted};

mod clients;
mod failures;
mod losses;
mod steps;

use crate::lines::Lines;
use crate::nodes::Nodes;
use guest_machine::{SECTOR_BYTES, Shape};
use memory_wanted::{MemoryWanted, from_slice, with_capacity};
use pair_record::{Event, History, PairRecord, Refusal, Reply, Show, is_stopped, mode_refusal};
use std::alloc::Global;
use std::marker::Model;

/// No word counts what happens to a world: there is none that could be full.
const WORD_FULL: bool = false;

/// A protected pair: its record, the lines between its two nodes, and their machines. Contracts see it as a `Pair` of the specs.
pub struct World {
    alloc: Global,
    boot_image: Vec<u8>,
    shape: Shape,
    clients: u64,
    record: PairRecord,
    lines: Lines,
    nodes: Nodes,
}

// Proved here, and not in each crate above that keeps one in a `Box` or an `Option`.
impl Drop for World {
    fn drop(self) {
        let World {
            alloc: _,
            boot_image: _,
            shape: _,
            clients: _,
            record: _,
            lines: _,
            nodes: _,
        } = self;
    }
}

impl Model for World {
    ghost use Rattle.pair_core.specs.Pair.{Pair};

    ghost Value = { Pair };

    ghost use Rattle.pair_core.specs.internal.WorldFields.{pair_of, AreFields};

    ghost view = { pair_of };

    ghost invariant = { AreFields };
}

impl World {
    ghost use Rattle.std.specs.Prelude.{option_map};
    ghost use Rattle.guest_rules.specs.Guest.{sector_in};
    ghost use Rattle.guest_rules.specs.Limits.{page_bytes};
    ghost use Rattle.frame_ports.specs.Limits.{max_clients};
    ghost use Rattle.pair_history.specs.Entries.{Begins};
    ghost use Rattle.pair_history.specs.HistoryState.{start_state};
    ghost use Rattle.pair_record.specs.Modes.{mode_refusal};
    ghost use Rattle.pair_record.specs.Protocol.{outcome};
    ghost use Rattle.pair_core.specs.Answering.{AnswersEvent};
    ghost use Rattle.pair_core.specs.Done.{Does, DoesAllowed};
    ghost use Rattle.pair_core.specs.Pair.{Pair, OnRefused, IsConsistent};
    ghost use Rattle.pair_core.specs.Lines.{Protocol, start_protocol, got};
    ghost use Rattle.pair_core.specs.Along.{Along};
    ghost use Rattle.pair_core.specs.Runs.{Run};
    ghost use Rattle.pair_core.specs.Drops.{Drops};
    ghost use Rattle.pair_core.specs.Replication.{Replicates, Leads};
    ghost use Rattle.pair_record.specs.declared.event.Event.{Event};
    ghost use Rattle.pair_record.specs.declared.event.Reply.{Reply};
    ghost use Rattle.pair_core.specs.Service.{HasServed, Serves, moment};
    ghost use Rattle.pair_core.specs.Start.{shown, shown_sector, serving_guest, serving_state};

    /// A pair at its start: both nodes were given this boot image, which counts as checkpoint 0, committed and
    /// acknowledged.
    ///
    /// # Errors
    ///
    /// [`Refusal::NoMemory`] where memory was asked for and refused.
    pub fn boot(alloc: Global, shape: Shape, clients: u64, image: &[u8]) -> Result<World, Refusal>
        requires some { 1 ≤ clients }
        requires few { clients ≤ max_clients }
        requires fits { length image.now ≤ page_bytes * shape.pages }
        ensures start { IfOk result (λ w. w.start ≡ start_state shape.pages shape.sectors image.now clients) }
        ensures protocol { IfOk result (λ w. w.protocol ≡ start_protocol) }
        ensures consistent { IfOk result IsConsistent }
        ensures err { IfErr result (λ e. e ≡ Refusal.NoMemory wanted) }
    {
        let boot_image = from_slice(alloc, image)?;
        let record = PairRecord::new(alloc, clients)?;
        let lines = Lines::new(alloc);
        let nodes = match Nodes::boot(alloc, shape, image) {
            Ok(nodes) => nodes,
            Err(wanted) => {
                drop(record);
                drop(lines);
                drop(boot_image);
                return Err(Refusal::NoMemory(wanted));
            }
        };
        let world = World {
            alloc,
            boot_image,
            shape,
            clients,
            record,
            lines,
            nodes,
        };
        world.keep_consistent();
        Ok(world)
    }

    /// Does one event and answers it, as the pair protocol says. A refusal leaves everything as it was, but that the
    /// history tells of a refusal [`Refusal::Full`]. [`Refusal::NoMemory`] may come in place of an answer that takes memory, where
    /// memory was asked for and refused; a step of a pair, and an event that changes nothing, takes none.
    pub fn apply(&mut self, event: Event<'_>) -> Reply
        // The reply and the next record are the protocol's.
        ensures answers { AnswersEvent self.old.start self.old.protocol event.entry result self.new.protocol }
        ensures start { self.new.start ≡ self.old.start }
        ensures refused { OnRefused result self.old self.new }

        // The history is that of a guest that never fails, and begins with the history before.
        ensures grows { Begins self.old.protocol.state.journal.history self.new.protocol.state.journal.history }
        ensures consistent { IsConsistent self.new }

        // Why a frame was dropped: a loss that was asked for drops that frame, an acknowledgement what finds a box full.
        ensures drops { Drops self.old.start self.old.protocol event.entry result self.new.protocol }

        // A cut puts the live guest last among those that the image will be, a commit makes the image the first of them, and
        // nothing else touches either.
        ensures replicates { Replicates event.entry result self.old.nodes self.new.nodes }

        // What the event is to the clients: one guest that never fails, behind a line that may lose frames.
        ensures serves { Serves self.old.start (moment self.old) event.entry result (moment self.new) }
    {
        self.keep_consistent();
        self.keep_drops();
        let outcome = self.act(event);
        self.keep_consistent();
        answered(outcome)
    }

    /// Does one event, or finds no memory for it.
    fn act(&mut self, event: Event<'_>) -> Result<Reply, MemoryWanted>
        ensures { Does (outcome self.old.start self.old.protocol.state (got self.old.protocol.lines event.entry) event.entry) event.entry result
            self.old self.new }
    {
        if let Some(why) = mode_refusal(self.record.mode(), event) {
            return Ok(Reply::Refused(why));
        }
        self.act_allowed(event)
    }

    /// Does one event that its mode doesn't refuse, or finds no memory for it.
    #[inline(always)]
    fn act_allowed(&mut self, event: Event<'_>) -> Result<Reply, MemoryWanted>
        requires { mode_refusal self.old.protocol.state.mode event ≡ None }
        ensures { DoesAllowed (got self.old.protocol.lines event.entry) event.entry result self.old self.new }
    {
        match event {
            Event::Step => self.stepped(),
            Event::Cut => self.cut(),
            Event::Send => self.send(),
            Event::BackupGet(k) => self.backup_get(k),
            Event::AckGet(k) => self.ack_get(k),
            Event::Admit(client) => self.admit(client),
            Event::Deliver(client, bytes) => self.deliver(client, bytes),
            Event::Take(client) => self.take(client),
            Event::LoseIn(client, place) => self.lose_in(client, place),
            Event::LoseOut(client, place) => self.lose_out(client, place),
            Event::FailPrimary => Ok(self.fail_primary()),
            Event::FailBackup => self.fail_backup(),
            Event::GoLive => self.go_live(),
            Event::Protect => self.protect(),
        }
    }

    /// What holds between events holds of every world.
    fn keep_consistent(&self)
        ensures { IsConsistent self.now }
    {
        self.record.keep();
    }

    /// What each event may drop is known before it happens.
    fn keep_drops(&self)
        ensures { (event : Event) (reply : Reply) (new : Protocol) → AnswersEvent self.now.start self.now.protocol event reply new
            → Drops self.now.start self.now.protocol event reply new }
    {
        self.record.keep();
    }

    /// Does these events in order, and gives their replies.
    ///
    /// # Errors
    ///
    /// [`Refusal::NoMemory`] where the list of replies can't be had. Nothing was done then.
    pub fn run(&mut self, events: &[Event<'_>]) -> Result<Vec<Reply>, Refusal>
        ensures replies { IfOk result (λ replies. Run self.old.start self.old.protocol events.now replies.items self.new.protocol) }
        ensures start { self.new.start ≡ self.old.start }
        ensures grows { Begins self.old.protocol.state.journal.history self.new.protocol.state.journal.history }
        ensures consistent { IsConsistent self.new }
        // Why a frame was dropped, event by event.
        ensures drops { IfOk result (λ replies. Along (Drops self.old.start) self.old.protocol events.now replies.items self.new.protocol) }
        // What the run is to its clients: see `clients_have_one_guest_that_never_fails`.
        ensures served { IfOk result (λ replies. HasServed self.old.start (moment self.old) events.now replies.items (moment self.new)) }
        // What the image is after each commit: see `committed_guests_are_those_cut`.
        ensures leads { IfOk result (λ replies. Leads self.old events.now replies.items self.new) }
        ensures err { IfErr result (λ e. (e ≡ Refusal.NoMemory wanted) × (self.new ≡ self.old)) }
    {
        self.keep_consistent();
        let mut replies = with_capacity(self.alloc, events.len())?;
        for event in events {
            let reply = self.apply(*event);
            replies.push(reply).unwrap();
        }
        Ok(replies)
    }

    /// The history so far.
    pub fn history(&self) -> &History
        ensures { result.now.entries ≡ self.now.protocol.state.journal.history }
    {
        self.record.history()
    }

    /// The state of the pair. The steps are the live guest's; where the primary has stopped they are the image's.
    pub fn show(&self) -> Show
        ensures { result ≡ shown self.now }
    {
        Show {
            mode: self.record.mode(),
            generation: self.record.generation(),
            pending: self.record.pending(),
            steps: self.steps(),
            entries: self.record.history().len(),
        }
    }

    /// The step count of the guest that goes on.
    fn steps(&self) -> u64
        ensures { result ≡ (serving_guest self.now).steps }
    {
        self.keep_consistent();
        if is_stopped(self.record.mode()) {
            self.nodes.image_steps()
        } else {
            self.nodes.steps()
        }
    }

    /// The 512 bytes of a sector, counted from 0, of the live guest's disk, where the primary has stopped of the image's; `None` beyond
    /// the disk.
    pub fn sector(&self, sector: u32) -> Option<&[u8; SECTOR_BYTES]>
        ensures value { option_map (λ bytes. bytes.now) result ≡ shown_sector self.now sector }

        // They are those of the guest of the history followed by what is kept, where the primary has stopped of the history's guest.
        ensures history { option_map (λ bytes. bytes.now) result ≡ sector_in (serving_state self.now).guest.sectors sector }
    {
        self.keep_consistent();
        if is_stopped(self.record.mode()) {
            self.nodes.image_sector(sector)
        } else {
            self.nodes.sector(sector)
        }
    }
}

/// A refusal of an event's table; that for want of memory is an error by itself.
fn by_table(why: Refusal) -> Result<Refusal, MemoryWanted>
    ensures same { IfOk result (λ refusal. refusal ≡ why) }
    ensures other { IfOk result (λ refusal. (m : MemoryWanted) → why ≢ Refusal.NoMemory m) }
    ensures memory { IfErr result (λ m. why ≡ Refusal.NoMemory m) }
{
    match why {
        Refusal::NoMemory(wanted) => Err(wanted),
        why => Ok(why),
    }
}

/// Want of memory is a refusal like the others.
fn answered(outcome: Result<Reply, MemoryWanted>) -> Reply
    ensures ok { IfOk outcome (λ reply. result ≡ reply) }
    ensures err { OnErr outcome (result ≡ Reply.Refused (Refusal.NoMemory wanted)) }
{
    match outcome {
        Ok(reply) => reply,
        Err(wanted) => Reply::Refused(Refusal::NoMemory(wanted)),
    }
}

impl World {
    ghost use Rattle.pair_record.specs.declared.event.Event.TheVariants as events;
    ghost use Rattle.pair_record.specs.Modes.{mode_refusal};
    ghost use Rattle.pair_record.specs.Protocol.{refused};
    ghost use Rattle.pair_core.specs.Done.{DoesAllowed};
    ghost use Rattle.pair_core.specs.Pair.{Pair};

    /// The running epoch ends: its checkpoint is sealed as a text, and its frames go to the gate.
    fn cut(&mut self) -> Result<Reply, MemoryWanted>
        requires { mode_refusal self.old.protocol.state.mode events.Cut ≡ None }
        ensures { DoesAllowed None events.Cut result self.old self.new }
    {
        self.record.keep();
        if let Some(why) = self.record.cut_refusal() {
            return Ok(Reply::Refused(why));
        }
        let text = self
            .nodes
            .checkpoint(self.record.generation(), self.record.window().to_cut)?;
        let reply = self.record.cut(self.nodes.outbox())?;
        self.nodes.seal(text);
        Ok(reply)
    }

    /// One packet for each pending checkpoint is sent.
    fn send(&mut self) -> Result<Reply, MemoryWanted>
        requires { mode_refusal self.old.protocol.state.mode events.Send ≡ None }
        ensures { DoesAllowed None events.Send result self.old self.new }
    {
        self.record.keep();
        let window = self.record.window();
        self.lines.send(
            self.record.generation(),
            window.to_acknowledge,
            window.to_cut,
        )?;
        Ok(Reply::Sent(self.record.pending()))
    }

    /// The backup gets a packet.
    fn backup_get(&mut self, k: u64) -> Result<Reply, MemoryWanted>
        requires { mode_refusal self.old.protocol.state.mode (events.BackupGet k) ≡ None }
        ensures { DoesAllowed (slice_get self.old.protocol.lines.forward k) (events.BackupGet k) result self.old self.new }
    {
        let Some(packet) = self.lines.packet(k) else {
            return Ok(Reply::Lost);
        };
        self.record.keep();
        if let Some(why) = self.record.backup_refusal(packet) {
            return Ok(Reply::Refused(why));
        }
        let generation = self.record.generation();
        let number = self.record.window().to_commit;
        self.lines.reserve_acknowledgement()?;
        if packet.number < number {
            let last = number - 1;
            self.lines.acknowledge(generation, last);
            return Ok(Reply::Again {
                generation,
                number: last,
            });
        }
        let checkpoint = self.nodes.oldest()?;
        let reply = match self.record.commit() {
            Ok(reply) => reply,
            Err(wanted) => {
                drop(checkpoint);
                return Err(wanted);
            }
        };
        self.lines.acknowledge(generation, number);
        self.nodes.commit(checkpoint);
        Ok(reply)
    }

    /// The primary gets an acknowledgement.
    fn ack_get(&mut self, k: u64) -> Result<Reply, MemoryWanted>
        requires { mode_refusal self.old.protocol.state.mode (events.AckGet k) ≡ None }
        ensures { DoesAllowed (slice_get self.old.protocol.lines.back k) (events.AckGet k) result self.old self.new }
    {
        let Some(packet) = self.lines.acknowledgement(k) else {
            return Ok(Reply::Lost);
        };
        self.record.keep();
        let why = match self.record.acknowledge(packet, WORD_FULL) {
            Ok(landed) => {
                return Ok(Reply::Acked {
                    generation: packet.generation,
                    number: packet.number,
                    landed,
                });
            }
            Err(why) => by_table(why)?,
        };
        Ok(Reply::Refused(why))
    }
}
