//! What a step of the keeper is.
ghost use Rattle.growing_history.specs.Steps as steps;

use pair_history::Entry;

/// What stands for a step of the keeper. A crate above has its own, which lend what it keeps (an epoch, a text, a checkpoint that was
/// read), so that nothing is copied to be announced.
pub trait Tells {
    ghost what: { Self → steps.What };
}

/// What a step of the keeper is, as the call that makes it says it. Nothing is stored.
#[derive(Drop)]
pub enum What<'a> {
    /// Entries of the clients' lines: what a client called, and what landed or was dropped.
    Added(&'a [Entry<'a>]),
    /// The live runner sealed an epoch, under this generation and number, with the text of its checkpoint.
    Sealed {
        generation: u64,
        number: u64,
        epoch: &'a [Entry<'a>],
        text: &'a [u8],
    },
    /// The live node ran alone.
    RanAlone(&'a [Entry<'a>]),
    /// The backup committed the epoch of this generation and number, of which it read this text.
    Committed {
        generation: u64,
        number: u64,
        text: &'a [u8],
    },
    PrimaryFailed,
    BackupFailed,
    /// The backup went live, with a runner of this number.
    WentLive(u64),
    /// The live node got a backup of this number.
    Protected(u64),
}

impl Tells for What<'_> {
    ghost use Rattle.growing_history.specs.Calls.{meaning};

    ghost what = { meaning };
}
