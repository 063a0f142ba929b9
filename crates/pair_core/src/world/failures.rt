//! What happens when a node fails, at the world.
ghost use Rattle.std.specs.Prelude.{◌≡◌, None};
ghost use Rattle.pair_record.specs.declared.event.Event.TheVariants as events;
ghost use Rattle.pair_record.specs.Modes.{mode_refusal};
ghost use Rattle.pair_record.specs.Protocol.{outcome};
ghost use Rattle.pair_core.specs.Done.{DoesAllowed};
ghost use Rattle.pair_core.specs.Leaves.{Leaves};

use super::{WORD_FULL, World, by_table};
use memory_wanted::MemoryWanted;
use pair_record::Reply;

impl World {
    /// The primary stops, or the mode refuses that.
    pub(super) fn fail_primary(&mut self) -> Reply
        ensures outcome { (result, self.new.protocol.state) ≡ outcome self.old.start self.old.protocol.state None events.FailPrimary }
        ensures leaves { Leaves events.FailPrimary result self.old self.new }
    {
        match self.record.fail_primary(WORD_FULL) {
            Ok(reply) => reply,
            Err(why) => Reply::Refused(why),
        }
    }

    /// The backup stops, and the primary goes on alone.
    pub(super) fn fail_backup(&mut self) -> Result<Reply, MemoryWanted>
        requires { mode_refusal self.old.protocol.state.mode events.FailBackup ≡ None }
        ensures { DoesAllowed None events.FailBackup result self.old self.new }
    {
        self.record.keep();
        let why = match self.record.fail_backup(self.nodes.outbox()) {
            Ok(reply) => {
                self.nodes.leave_alone();
                return Ok(reply);
            }
            Err(why) => by_table(why)?,
        };
        Ok(Reply::Refused(why))
    }

    /// The backup goes live in the place of the stopped primary.
    pub(super) fn go_live(&mut self) -> Result<Reply, MemoryWanted>
        requires { mode_refusal self.old.protocol.state.mode events.GoLive ≡ None }
        ensures { DoesAllowed None events.GoLive result self.old self.new }
    {
        self.record.keep();
        let kept = self.nodes.kept();
        let first = kept.first();
        let frames = kept.epochs();
        if let Some(why) = self.record.go_live_refusal(first, frames) {
            return Ok(Reply::Refused(why));
        }
        let steps = self.nodes.image_steps();
        let reply = self.record.go_live(steps, first, frames)?;
        self.nodes.go_live();
        Ok(reply)
    }

    /// The node that is alone gets a new backup.
    pub(super) fn protect(&mut self) -> Result<Reply, MemoryWanted>
        requires { mode_refusal self.old.protocol.state.mode events.Protect ≡ None }
        ensures { DoesAllowed None events.Protect result self.old self.new }
    {
        self.record.keep();
        if let Some(why) = self.record.protect_refusal() {
            return Ok(Reply::Refused(why));
        }
        let generation = self.record.generation() + 1;
        let (image, text) = self.nodes.full_checkpoint(generation)?;
        let reply = match self.record.protect() {
            Ok(reply) => reply,
            Err(wanted) => {
                drop(image);
                drop(text);
                return Err(wanted);
            }
        };
        self.nodes.protect(image, text);
        Ok(reply)
    }
}
