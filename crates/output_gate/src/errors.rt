//! The refusal of the gate.
ghost use Rattle.std.specs.Prelude.{◌≡◌};
ghost use Rattle.memory_wanted.specs.Wanted.{wanted};
ghost use Rattle.output_gate.specs.Refusals.{number_of, name_of};
ghost use Rattle.output_gate.specs.declared.errors.GateError.TheVariants.{NoMemory};

use memory_wanted::MemoryWanted;
use thiserror::Error;

/// Why a gate can't be made. Its `Display` text is its name.
#[derive(Debug, Drop, Error)]
pub enum GateError {
    /// A growth was really refused.
    #[error("NoMemory")]
    NoMemory(MemoryWanted),
}

impl From<MemoryWanted> for GateError {
    ghost from_gives = { λ _ e. e ≡ NoMemory wanted };

    fn from(wanted: MemoryWanted) -> GateError {
        GateError::NoMemory(wanted)
    }
}

impl GateError {
    /// The number of the refusal, in the project's table of refusals.
    pub fn number(&self) -> u8
        ensures { result ≡ number_of self.now }
    {
        match self {
            GateError::NoMemory(_) => 12,
        }
    }

    /// The name of the refusal, in the project's table of refusals.
    pub fn name(&self) -> &'static str
        ensures { result.now ≡ name_of self.now }
    {
        match self {
            GateError::NoMemory(_) => "NoMemory",
        }
    }
}
