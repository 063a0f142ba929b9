//! The refusal of the line.
ghost use Rattle.std.specs.Prelude.{◌≡◌};
ghost use Rattle.memory_wanted.specs.Wanted.{wanted};
ghost use Rattle.lossy_line.specs.Refusals.{number_of, name_of};
ghost use Rattle.lossy_line.specs.declared.errors.LineError.TheVariants.{NoMemory};

use memory_wanted::MemoryWanted;
use thiserror::Error;

/// Why a packet can't be kept. Its `Display` text is its name.
#[derive(Debug, Drop, Error)]
pub enum LineError {
    /// A growth was really refused.
    #[error("NoMemory")]
    NoMemory(MemoryWanted),
}

impl From<MemoryWanted> for LineError {
    ghost from_gives = { λ _ e. e ≡ NoMemory wanted };

    fn from(wanted: MemoryWanted) -> LineError {
        LineError::NoMemory(wanted)
    }
}

impl LineError {
    /// The number of the refusal, in the project's table of refusals.
    pub fn number(&self) -> u8
        ensures { result ≡ number_of self.now }
    {
        match self {
            LineError::NoMemory(_) => 12,
        }
    }

    /// The name of the refusal, in the project's table of refusals.
    pub fn name(&self) -> &'static str
        ensures { result.now ≡ name_of self.now }
    {
        match self {
            LineError::NoMemory(_) => "NoMemory",
        }
    }
}
