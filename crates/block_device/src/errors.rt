//! Why a call of a disk is refused.
ghost use Rattle.std.specs.Prelude.{◌≡◌, codes};
ghost use Rattle.memory_wanted.specs.Wanted.{wanted};
ghost use Rattle.block_device.specs.Errors.{error_number, error_name};
ghost use Rattle.block_device.specs.declared.errors.DiskError.TheVariants.{NoMemory};

use memory_wanted::MemoryWanted;
use thiserror::Error;

/// Why a call of a disk is refused. Nothing is changed then. Its `Display` text is its name.
#[derive(Debug, Drop, PartialEq, Eq, Error)]
pub enum DiskError {
    /// Memory was asked for and really refused.
    #[error("NoMemory")]
    NoMemory(MemoryWanted),
}

impl From<MemoryWanted> for DiskError {
    ghost from_gives = { λ _ e. e ≡ NoMemory wanted };

    fn from(wanted: MemoryWanted) -> DiskError {
        DiskError::NoMemory(wanted)
    }
}

impl DiskError {
    /// The number of this refusal in the table of all refusals.
    pub fn number(&self) -> u32
        ensures { result ≡ error_number self.now }
    {
        match self {
            DiskError::NoMemory(_) => 12,
        }
    }

    /// Its name in that table, which is also what Display prints.
    pub fn name(&self) -> &'static str
        ensures { result.now ≡ error_name self.now }
    {
        match self {
            DiskError::NoMemory(_) => "NoMemory",
        }
    }
}
