//! What happens at the record where a node that is alone gets a new backup.
ghost use Rattle.std.specs.Prelude.{◌≡◌, IfOk, OnOk, OnErr, None, true};
ghost use Rattle.frame_ports.specs.Numbers.{renumbered};
ghost use Rattle.pair_record.specs.Modes.{is_alone};
ghost use Rattle.pair_record.specs.Protocol.{first_refusal, protect_refusals, protect_done};
ghost use Rattle.pair_record.specs.Record.{IsAsBefore};

use super::PairRecord;
use crate::event::{Refusal, Reply};
use crate::limits::FULL_CHECKPOINT;
use crate::window::Window;
use failover::Mode;
use frame_ports::NUMBER_LIMIT;
use memory_wanted::MemoryWanted;

impl PairRecord {
    /// Why a node can't get a new backup.
    pub fn protect_refusal(&self) -> Option<Refusal>
        ensures refusal { result ≡ first_refusal (protect_refusals self.now.protocol) }
    {
        if self.generation >= NUMBER_LIMIT - 1 {
            Some(Refusal::Exhausted)
        } else {
            None
        }
    }

    /// The node that is alone gets a new backup, in the next generation: its full checkpoint, which no frame waits for, is pending.
    pub fn protect(&mut self) -> Result<Reply, MemoryWanted>
        requires free { first_refusal (protect_refusals self.old.protocol) ≡ None }
        requires alone { is_alone self.old.protocol.mode ≡ true }
        ensures ok { IfOk result (λ reply. (reply, self.new.protocol) ≡ protect_done self.old.protocol) }
        ensures ports { OnOk result (self.new.ports ≡ renumbered self.old.ports) }
        ensures err { OnErr result (IsAsBefore self.old self.new) }
    {
        self.journal.seal_empty()?;
        self.gate.begin(0);
        self.ports.renumber();
        self.gate.hold(FULL_CHECKPOINT, &[]);
        self.window = Window::none_pending(FULL_CHECKPOINT);
        self.window.cut();
        self.mode = Mode::Filling;
        self.generation += 1;
        Ok(Reply::Protecting(self.generation))
    }
}
