//! The refusals of the ports.
ghost use Rattle.std.specs.Prelude.{◌≡◌};
ghost use Rattle.memory_wanted.specs.Wanted.{wanted};
ghost use Rattle.frame_ports.specs.Refusals.{number_of, name_of};
ghost use Rattle.frame_ports.specs.declared.errors.PortError.TheVariants.{NoMemory};

use memory_wanted::MemoryWanted;
use thiserror::Error;

/// Why a call of the ports is refused. Its `Display` text is its name.
#[derive(Debug, Drop, Error)]
pub enum PortError {
    /// The client's inbox holds 64 frames.
    #[error("Full")]
    Full,
    /// The bytes are fewer than 14 or more than 1514.
    #[error("BadFrame")]
    BadFrame,
    /// The client's number is 0 or above the count of clients.
    #[error("NoClient")]
    NoClient,
    /// A growth was really refused.
    #[error("NoMemory")]
    NoMemory(MemoryWanted),
    /// The frame's number would reach 2^62.
    #[error("Exhausted")]
    Exhausted,
}

impl From<MemoryWanted> for PortError {
    ghost from_gives = { λ _ e. e ≡ NoMemory wanted };

    fn from(wanted: MemoryWanted) -> PortError {
        PortError::NoMemory(wanted)
    }
}

impl PortError {
    /// The number of the refusal, in the project's table of refusals.
    pub fn number(&self) -> u8
        ensures { result ≡ number_of self.now }
    {
        match self {
            PortError::Full => 1,
            PortError::BadFrame => 2,
            PortError::NoClient => 3,
            PortError::NoMemory(_) => 12,
            PortError::Exhausted => 14,
        }
    }

    /// The name of the refusal, in the project's table of refusals.
    pub fn name(&self) -> &'static str
        ensures { result.now ≡ name_of self.now }
    {
        match self {
            PortError::Full => "Full",
            PortError::BadFrame => "BadFrame",
            PortError::NoClient => "NoClient",
            PortError::NoMemory(_) => "NoMemory",
            PortError::Exhausted => "Exhausted",
        }
    }
}
