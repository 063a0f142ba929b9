//! What clients and their lines do, at the world.
ghost use Rattle.std.specs.Prelude.{◌≡◌, None};
ghost use Rattle.pair_record.specs.declared.event.Event.TheVariants as events;
ghost use Rattle.pair_core.specs.Done.{DoesAllowed};

use super::{WORD_FULL, World, by_table};
use memory_wanted::{MemoryWanted, boxed};
use pair_record::{Frame, Reply, TakenFrame};

impl World {
    /// The first frame of a client's inbox arrives at the guest.
    pub(super) fn admit(&mut self, client: u64) -> Result<Reply, MemoryWanted>
        ensures { DoesAllowed None (events.Admit client) result self.old self.new }
    {
        self.record.keep();
        let why = match self.record.admit(client) {
            Ok(Some((number, frame))) => {
                self.nodes.arrive(&frame);
                return Ok(Reply::Admitted(number));
            }
            Ok(None) => return Ok(Reply::Empty),
            Err(why) => by_table(why)?,
        };
        Ok(Reply::Refused(why))
    }

    /// A client delivers a frame of these bytes.
    pub(super) fn deliver(&mut self, client: u64, bytes: &[u8]) -> Result<Reply, MemoryWanted>
        ensures { DoesAllowed None (events.Deliver client bytes.entry) result self.old self.new }
    {
        let why = match self.record.deliver(client, bytes, WORD_FULL) {
            Ok(number) => return Ok(Reply::Delivered(number)),
            Err(why) => by_table(why)?,
        };
        Ok(Reply::Refused(why))
    }

    /// A client takes the first frame of its box.
    pub(super) fn take(&mut self, client: u64) -> Result<Reply, MemoryWanted>
        ensures { DoesAllowed None (events.Take client) result self.old self.new }
    {
        if let Some(why) = self.record.take_refusal(client, WORD_FULL) {
            return Ok(Reply::Refused(why));
        }
        let mut place = boxed(self.alloc, Frame::new())?;
        let why = match self.record.take(client, &mut *place, WORD_FULL) {
            Ok(is_some) => return Ok(Reply::Took(TakenFrame::given(is_some, place))),
            Err(why) => by_table(why)?,
        };
        Ok(Reply::Refused(why))
    }
}
