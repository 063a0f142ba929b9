//! Why a call of an outbox is refused.
ghost use Rattle.std.specs.Prelude.{◌≡◌, codes};
ghost use Rattle.memory_wanted.specs.Wanted.{wanted};
ghost use Rattle.net_device.specs.Errors.{error_number, error_name};
ghost use Rattle.net_device.specs.declared.errors.OutboxError.TheVariants.{NoMemory};

use memory_wanted::MemoryWanted;
use thiserror::Error;

/// Why an outbox isn't made.
#[derive(Debug, Drop, PartialEq, Eq, Error)]
pub enum OutboxError {
    /// Memory was asked for and really refused.
    #[error("NoMemory")]
    NoMemory(MemoryWanted),
}

impl From<MemoryWanted> for OutboxError {
    ghost from_gives = { λ _ e. e ≡ NoMemory wanted };

    fn from(wanted: MemoryWanted) -> OutboxError {
        OutboxError::NoMemory(wanted)
    }
}

impl OutboxError {
    /// The number of this refusal in the table of all refusals.
    pub fn number(&self) -> u32
        ensures { result ≡ error_number self.now }
    {
        match self {
            OutboxError::NoMemory(_) => 12,
        }
    }

    /// Its name in that table, which is also what Display prints.
    pub fn name(&self) -> &'static str
        ensures { result.now ≡ error_name self.now }
    {
        match self {
            OutboxError::NoMemory(_) => "NoMemory",
        }
    }
}
