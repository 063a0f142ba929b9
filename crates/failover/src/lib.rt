//! The legal changes of mode: who runs the guest, and in which generation of the pair.
//!
//! A generation of the pair ends once: when its primary stops and the backup goes live, or when its backup stops and
//! the primary asks for another. No call takes memory.
//!
//! ```text
//!                 stop                      go live, number + 1
//!      Paired ------------> Stopped ----------------------------> Alone
//!      |    ^                                                     |   ^
//!      |    |   filled                   protect, number + 1      |   |
//!      |    +------------ Filling <-------------------------------+   |
//!      |                     |                                        |
//!      +---------------------+---------- backup stops ----------------+
//! ```
//!
//! Every other change is refused, and changes nothing. That a new backup is filled is no change that anybody asks for:
//! it is so once its full checkpoint is committed.
//!
//! [`Mode`] is that table. A [`Generation`] is a number with a mode, which can be neither copied nor let go: a node that holds one spends it
//! where it changes.
#![tactic(auto)]

mod change;
mod errors;
mod generation;
mod mode;

pub use change::Change;
pub use errors::{FailoverError, GenerationError};
pub use generation::{GENERATION_LIMIT, Generation};
pub use mode::Mode;
