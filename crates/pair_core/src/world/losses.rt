//! The losses that are asked for, at the world.
ghost use Rattle.std.specs.Prelude.{◌≡◌, None};
ghost use Rattle.pair_record.specs.declared.event.Event.TheVariants as events;
ghost use Rattle.pair_record.specs.Protocol.{loss_reply};
ghost use Rattle.pair_core.specs.Done.{DoesAllowed};

use super::{WORD_FULL, World, by_table};
use memory_wanted::MemoryWanted;
use pair_record::Reply;

impl World {
    /// The line drops a frame of a client's inbox.
    pub(super) fn lose_in(&mut self, client: u64, place: u64) -> Result<Reply, MemoryWanted>
        ensures { DoesAllowed None (events.LoseIn client place) result self.old self.new }
    {
        let why = match self.record.lose_in(client, place, WORD_FULL) {
            Ok(is_there) => return Ok(lost(is_there)),
            Err(why) => by_table(why)?,
        };
        Ok(Reply::Refused(why))
    }

    /// The line drops a frame of a client's box.
    pub(super) fn lose_out(&mut self, client: u64, place: u64) -> Result<Reply, MemoryWanted>
        ensures { DoesAllowed None (events.LoseOut client place) result self.old self.new }
    {
        let why = match self.record.lose_out(client, place, WORD_FULL) {
            Ok(is_there) => return Ok(lost(is_there)),
            Err(why) => by_table(why)?,
        };
        Ok(Reply::Refused(why))
    }
}

/// What is answered to a loss, where a frame was there or none was.
fn lost(is_there: bool) -> Reply
    ensures { result ≡ loss_reply is_there }
{
    if is_there {
        Reply::Dropped
    } else {
        Reply::Empty
    }
}
