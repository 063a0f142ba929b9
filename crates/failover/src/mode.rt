//! The mode of a pair.
ghost use Rattle.std.specs.Prelude.{◌≡◌, Some};
ghost use Rattle.failover.specs.Changes.{row};
ghost use Rattle.failover.specs.Words.{word_of};

use crate::change::Change;
use crate::errors::FailoverError;
use std::fmt;

/// Who runs the guest, and whether the other node could go on in its place.
#[derive(Clone, Copy, PartialEq, Eq)]
pub enum Mode {
    /// The primary runs the guest, and the backup holds an image of it.
    Paired,
    /// The primary runs the guest, and the backup has no image of this generation yet.
    Filling,
    /// One node runs the guest, and there is no other.
    Alone,
    /// The primary has stopped, and the backup has not gone live.
    Stopped,
}

impl Mode {
    /// The mode after a change, and by how much the generation's number rises: the change's row of the state table.
    ///
    /// # Errors
    ///
    /// Why the change is refused. [`FailoverError::Stopped`] where the primary has stopped and can't act,
    /// [`FailoverError::NotPaired`] where a node is alone and the change needs a pair, [`FailoverError::AlreadyPaired`] where there is a
    /// pair and the change needs a node without one, [`FailoverError::NoImage`] where no backup could go on in the primary's place.
    pub fn after(self, change: Change) -> Result<(Mode, u64), FailoverError>
        ensures { result ≡ row change self }
    {
        match (change, self) {
            (Change::FailPrimary, Mode::Paired) => Ok((Mode::Stopped, 0)),
            (Change::FailBackup, Mode::Paired | Mode::Filling) => Ok((Mode::Alone, 0)),
            (Change::GoLive, Mode::Stopped) => Ok((Mode::Alone, 1)),
            (Change::Protect, Mode::Alone) => Ok((Mode::Filling, 1)),
            (Change::FailPrimary, Mode::Filling | Mode::Alone) => Err(FailoverError::NoImage),
            (Change::FailBackup | Change::GoLive, Mode::Alone) => Err(FailoverError::NotPaired),
            (Change::GoLive | Change::Protect, Mode::Paired | Mode::Filling) => {
                Err(FailoverError::AlreadyPaired)
            }
            (Change::FailPrimary | Change::FailBackup | Change::Protect, Mode::Stopped) => {
                Err(FailoverError::Stopped)
            }
        }
    }
}

/// The word that the programs print. A pair that fills is one already.
impl fmt::Display for Mode {
    ghost output = { λ mode. Some (word_of mode) };

    fn fmt<W: fmt::Write>(&self, f: &mut fmt::Formatter<W>) -> fmt::Result {
        match self {
            Mode::Paired | Mode::Filling => write!(f, "paired"),
            Mode::Alone => write!(f, "alone"),
            Mode::Stopped => write!(f, "stopped"),
        }
    }
}
