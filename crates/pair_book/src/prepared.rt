//! What a runner prepares beside an epoch.
ghost use Rattle.std.specs.Prelude.{◌≡◌, IfOk};

use crate::packet::TextPacket;
use memory_wanted::MemoryWanted;

/// What was prepared for the end of an epoch.
#[derive(Drop)]
pub enum Prepared {
    /// No checkpoint: the node is alone.
    Nothing,
    Checkpoint(TextPacket),
}

impl Prepared {
    /// The same, with one more handle to the text.
    ///
    /// # Errors
    ///
    /// [`MemoryWanted`] as in [`TextPacket::share`].
    pub(crate) fn share(&self) -> Result<Prepared, MemoryWanted>
        ensures { IfOk result (λ p. p ≡ self.now) }
    {
        match self {
            Prepared::Nothing => Ok(Prepared::Nothing),
            Prepared::Checkpoint(packet) => Ok(Prepared::Checkpoint(packet.share()?)),
        }
    }
}
