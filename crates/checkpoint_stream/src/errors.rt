//! The refusals of the stream.
ghost use Rattle.std.specs.Prelude.{◌≡◌};
ghost use Rattle.memory_wanted.specs.Wanted.{wanted};
ghost use Rattle.checkpoint_stream.specs.Refusals.{number_of, name_of};
ghost use Rattle.checkpoint_stream.specs.declared.errors.StreamError.TheVariants.{NoMemory};

use memory_wanted::MemoryWanted;
use thiserror::Error;

/// Why a checkpoint can't be read. Its `Display` text is its name, and where the bytes are malformed the offset.
#[derive(Debug, Drop, Error)]
pub enum StreamError {
    /// The unit at this offset, counted modulo 2^64 from where the reader began, breaks its rule.
    #[error("Malformed {0}")]
    Malformed(u64),
    /// A growth was really refused.
    #[error("NoMemory")]
    NoMemory(MemoryWanted),
}

impl From<MemoryWanted> for StreamError {
    ghost from_gives = { λ _ e. e ≡ NoMemory wanted };

    fn from(wanted: MemoryWanted) -> StreamError {
        StreamError::NoMemory(wanted)
    }
}

impl StreamError {
    /// The number of the refusal, in the project's table of refusals.
    pub fn number(&self) -> u8
        ensures { result ≡ number_of self.now }
    {
        match self {
            StreamError::Malformed(_) => 11,
            StreamError::NoMemory(_) => 12,
        }
    }

    /// The name of the refusal, in the project's table of refusals.
    pub fn name(&self) -> &'static str
        ensures { result.now ≡ name_of self.now }
    {
        match self {
            StreamError::Malformed(_) => "Malformed",
            StreamError::NoMemory(_) => "NoMemory",
        }
    }
}
