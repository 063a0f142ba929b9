//! The refusals of a change.
ghost use Rattle.std.specs.Prelude.{◌≡◌};
ghost use Rattle.failover.specs.Refusals.{number_of, name_of, generation_number_of, generation_name_of};

use thiserror::Error;

/// Why a change is refused. Its `Display` text is its name.
#[derive(Clone, Copy, Debug, PartialEq, Eq, Error)]
pub enum FailoverError {
    /// The node that would act has stopped.
    #[error("Stopped")]
    Stopped,
    /// The call needs a pair.
    #[error("NotPaired")]
    NotPaired,
    /// The call needs a node that is alone or stopped.
    #[error("AlreadyPaired")]
    AlreadyPaired,
    /// No backup holds a full checkpoint.
    #[error("NoImage")]
    NoImage,
}

impl FailoverError {
    /// The number of the refusal, in the project's table of refusals.
    pub fn number(&self) -> u8
        ensures { result ≡ number_of self.now }
    {
        match self {
            FailoverError::Stopped => 4,
            FailoverError::NotPaired => 6,
            FailoverError::AlreadyPaired => 7,
            FailoverError::NoImage => 8,
        }
    }

    /// The name of the refusal, in the project's table of refusals.
    pub fn name(&self) -> &'static str
        ensures { result.now ≡ name_of self.now }
    {
        match self {
            FailoverError::Stopped => "Stopped",
            FailoverError::NotPaired => "NotPaired",
            FailoverError::AlreadyPaired => "AlreadyPaired",
            FailoverError::NoImage => "NoImage",
        }
    }
}

/// Why a generation isn't spent. Its `Display` text is its name.
#[derive(Clone, Copy, Debug, PartialEq, Eq, Error)]
pub enum GenerationError {
    /// The state table refuses the change.
    #[error("{0}")]
    Refused(FailoverError),
    /// There is no number for the next generation.
    #[error("Exhausted")]
    Exhausted,
}

impl GenerationError {
    /// The number of the refusal, in the project's table of refusals.
    pub fn number(&self) -> u8
        ensures { result ≡ generation_number_of self.now }
    {
        match self {
            GenerationError::Refused(why) => why.number(),
            GenerationError::Exhausted => 14,
        }
    }

    /// The name of the refusal, in the project's table of refusals.
    pub fn name(&self) -> &'static str
        ensures { result.now ≡ generation_name_of self.now }
    {
        match self {
            GenerationError::Refused(why) => why.name(),
            GenerationError::Exhausted => "Exhausted",
        }
    }
}
