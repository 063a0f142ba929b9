//! The refusals of an image.
ghost use Rattle.std.specs.Prelude.{◌≡◌};
ghost use Rattle.memory_wanted.specs.Wanted.{wanted};
ghost use Rattle.backup_image.specs.Refusals.{number_of, name_of};
ghost use Rattle.backup_image.specs.declared.errors.ImageError.TheVariants.{NoMemory};

use memory_wanted::MemoryWanted;
use thiserror::Error;

/// Why a call of an image is refused. Its `Display` text is its name.
#[derive(Debug, Drop, PartialEq, Eq, Error)]
pub enum ImageError {
    /// The image is empty: it holds no full checkpoint.
    #[error("NoImage")]
    NoImage,
    /// The checkpoint is of another generation.
    #[error("Stale")]
    Stale,
    /// The checkpoint's number is beyond the next one.
    #[error("Gap")]
    Gap,
    /// Memory was really refused.
    #[error("NoMemory")]
    NoMemory(MemoryWanted),
    /// The number of the checkpoint's last frame would reach 2^62.
    #[error("Exhausted")]
    Exhausted,
    /// The checkpoint is a delta of version 1, which doesn't say what its guest sent.
    #[error("OldVersion")]
    OldVersion,
}

impl From<MemoryWanted> for ImageError {
    ghost from_gives = { λ _ e. e ≡ NoMemory wanted };

    fn from(wanted: MemoryWanted) -> ImageError {
        ImageError::NoMemory(wanted)
    }
}

impl ImageError {
    /// The number of the refusal, in the project's table of refusals.
    pub fn number(&self) -> u32
        ensures { result ≡ number_of self.now }
    {
        match self {
            ImageError::NoImage => 8,
            ImageError::Stale => 9,
            ImageError::Gap => 10,
            ImageError::NoMemory(_) => 12,
            ImageError::Exhausted => 14,
            ImageError::OldVersion => 15,
        }
    }

    /// Its name in that table, which is also what Display prints.
    pub fn name(&self) -> &'static str
        ensures { result.now ≡ name_of self.now }
    {
        match self {
            ImageError::NoImage => "NoImage",
            ImageError::Stale => "Stale",
            ImageError::Gap => "Gap",
            ImageError::NoMemory(_) => "NoMemory",
            ImageError::Exhausted => "Exhausted",
            ImageError::OldVersion => "OldVersion",
        }
    }
}
