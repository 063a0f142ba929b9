//! What is prepared of a machine that was settled and has made no step since: the guest after its epoch is its guest, and has sent nothing.
ghost use Rattle.std.specs.Prelude.{◌≡◌, ℕ, ◌≤◌, ◌<◌, ◌^◌, [], IfOk, IfSome};
ghost use Rattle.guest_rules.specs.Guest.{boot_guest};
ghost use Rattle.pair_history.specs.HistoryState.{HistoryState};
ghost use Rattle.growing_history.specs.SealedTexts.{Makes};
ghost use Rattle.pair_book.specs.Made.{Reads, carried};
ghost use Rattle.book_tests.specs.Machines.{IsLike, Repeats};

use checkpoint_stream::Reader;
use epoch_cuts::{cut_delta, cut_full};
use epoch_snapshot::Checkpoint;
use frame_ports::NUMBER_LIMIT;
use guest_machine::{Machine, Shape};
use memory_wanted::{MemoryWanted, from_slice};
use pair_book::TextPacket;
use std::alloc::Global;
use std::marker::Model;
use std::test::Fail;

pub(crate) const SHAPE: Shape = Shape {
    pages: 1,
    sectors: 1,
};

/// A machine that was settled and has made no step since. Contracts see its guest.
#[derive(Drop)]
pub(crate) struct SettledMachine {
    machine: Box<Machine>,
}

impl Model for SettledMachine {
    ghost use Rattle.std.specs.Prelude.{◌≡◌, []};
    ghost use Rattle.guest_rules.specs.Guest.{Guest};

    ghost Value = { Guest };

    ghost view = { λ m. m.machine.value.guest };

    ghost invariant = { λ m. (m.machine.value.outbox ≡ []) × (m.machine.value.settled ≡ m.machine.value.guest.ram) };
}

impl SettledMachine {
    /// This machine, which is settled now.
    pub(crate) fn of(mut machine: Box<Machine>) -> SettledMachine
        ensures { result ≡ machine.value.guest }
    {
        machine.settle();
        SettledMachine { machine }
    }

    /// That of a guest which makes no step, at boot.
    pub(crate) fn still(alloc: Global) -> Result<SettledMachine, Fail>
        ensures { IfOk result (λ m. m ≡ boot_guest 1 1 []) }
    {
        let machine = Box::new(alloc, Machine::boot(alloc, SHAPE, &[])?)?;
        Ok(SettledMachine::of(machine))
    }

    /// Its delta of this generation and number.
    fn delta(&self, alloc: Global, generation: u64, number: u64) -> Result<Checkpoint, MemoryWanted>
        requires generations { (1 ≤ generation) × (generation < 2 ^ 62) }
        requires numbers { (1 ≤ number) × (number < 2 ^ 62) }
        ensures { IfOk result (Repeats self.now) }
    {
        let checkpoint = cut_delta(alloc, &*self.machine, generation, number)?;
        Ok(checkpoint)
    }

    /// Its full checkpoint of this generation.
    fn full(&self, alloc: Global, generation: u64) -> Result<Checkpoint, MemoryWanted>
        requires generations { (1 ≤ generation) × (generation < 2 ^ 62) }
        ensures { IfOk result (Repeats self.now) }
    {
        let checkpoint = cut_full(alloc, &*self.machine, generation)?;
        Ok(checkpoint)
    }

    /// Its checkpoint of this generation and number: under number 0 the full one.
    fn cut(&self, alloc: Global, generation: u64, number: u64) -> Result<Checkpoint, MemoryWanted>
        requires generations { (1 ≤ generation) × (generation < 2 ^ 62) }
        requires numbers { number < 2 ^ 62 }
        ensures { IfOk result (Repeats self.now) }
    {
        if number == 0 {
            self.full(alloc, generation)
        } else {
            self.delta(alloc, generation, number)
        }
    }

    /// The same; none where memory is refused, and beyond the numbers that there are.
    pub(crate) fn checkpoint(
        &self,
        alloc: Global,
        generation: u64,
        number: u64,
    ) -> Option<Box<Checkpoint>>
        ensures { IfSome result (λ c. Repeats self.now c.value) }
    {
        if generation == 0 || generation >= NUMBER_LIMIT || number >= NUMBER_LIMIT {
            return None;
        }
        let Ok(checkpoint) = self.cut(alloc, generation, number) else {
            return None;
        };
        match Box::new(alloc, checkpoint) {
            Ok(checkpoint) => Some(checkpoint),
            Err(_) => None,
        }
    }

    /// That checkpoint's text.
    pub(crate) fn packet(&self, alloc: Global, generation: u64, number: u64) -> Option<TextPacket>
        ensures { IfSome result (λ p. (start : HistoryState) → IsLike start self.now
            → Makes (Reads start) p.number p.text (carried p.number []) self.now self.now) }
    {
        let checkpoint = self.checkpoint(alloc, generation, number)?;
        match TextPacket::new(alloc, &*checkpoint) {
            Ok(packet) => Some(packet),
            Err(_) => None,
        }
    }

    /// Its first delta of generation 1, in version 1.
    pub(crate) fn old_delta(&self, alloc: Global) -> Option<Box<Checkpoint>> {
        let packet = self.packet(alloc, 1, 1)?;
        let old = read_as_old(alloc, self.machine.shape(), packet.bytes())?;
        Box::new(alloc, old).ok()
    }
}

/// What the whole of a text is read back as.
pub(crate) fn read_back(alloc: Global, shape: Shape, text: &[u8]) -> Option<Checkpoint> {
    let mut reader = Reader::new(alloc, shape);
    match reader.feed(text) {
        Ok(taken) if taken == text.len() => reader.next(),
        _ => None,
    }
}

/// What this text of a delta is read as in version 1: without the count of its frames, the last four bytes.
fn read_as_old(alloc: Global, shape: Shape, text: &[u8]) -> Option<Checkpoint> {
    let kept = text.len().saturating_sub(4);
    let mut old = from_slice(alloc, &text[..kept]).ok()?;
    if old.len() > 3 {
        old[3] = b'1';
    }
    read_back(alloc, shape, old.as_slice())
}
