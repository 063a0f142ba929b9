//! Why a call of a machine is refused.
ghost use Rattle.std.specs.Prelude.{◌≡◌, codes};
ghost use Rattle.memory_wanted.specs.Wanted.{wanted};
ghost use Rattle.guest_machine.specs.Errors.{error_number, error_name};
ghost use Rattle.guest_machine.specs.declared.errors.MachineError.TheVariants.{NoMemory};

use block_device::DiskError;
use memory_wanted::MemoryWanted;
use net_device::OutboxError;
use thiserror::Error;

/// Why a call of a machine is refused. Nothing is changed then.
#[derive(Debug, Drop, PartialEq, Eq, Error)]
pub enum MachineError {
    /// Memory was asked for and really refused.
    #[error("NoMemory")]
    NoMemory(MemoryWanted),
    /// Fewer than 64 places of the outbox are free, so a step might not have room for its frames.
    #[error("CutNeeded")]
    CutNeeded,
}

impl From<MemoryWanted> for MachineError {
    ghost from_gives = { λ _ e. e ≡ NoMemory wanted };

    fn from(wanted: MemoryWanted) -> MachineError {
        MachineError::NoMemory(wanted)
    }
}

impl From<DiskError> for MachineError {
    ghost from_gives = { λ _ e. e ≡ NoMemory wanted };

    fn from(error: DiskError) -> MachineError {
        let DiskError::NoMemory(wanted) = error;
        MachineError::NoMemory(wanted)
    }
}

impl From<OutboxError> for MachineError {
    ghost from_gives = { λ _ e. e ≡ NoMemory wanted };

    fn from(error: OutboxError) -> MachineError {
        let OutboxError::NoMemory(wanted) = error;
        MachineError::NoMemory(wanted)
    }
}

impl MachineError {
    /// The number of this refusal in the table of all refusals.
    pub fn number(&self) -> u32
        ensures { result ≡ error_number self.now }
    {
        match self {
            MachineError::NoMemory(_) => 12,
            MachineError::CutNeeded => 13,
        }
    }

    /// Its name in that table, which is also what Display prints.
    pub fn name(&self) -> &'static str
        ensures { result.now ≡ error_name self.now }
    {
        match self {
            MachineError::NoMemory(_) => "NoMemory",
            MachineError::CutNeeded => "CutNeeded",
        }
    }
}
