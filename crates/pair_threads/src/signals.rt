//! What the threads of a run tell each other, beside their messages.

use std::sync::atomic::{AtomicBool, Ordering};

/// Two flags. Each is raised once, and stays so.
#[derive(Drop)]
pub(crate) struct Signals {
    has_runner_ended: AtomicBool,
    is_stopped: AtomicBool,
}

impl Signals {
    /// Neither is raised.
    pub(crate) fn new() -> Signals {
        Signals {
            has_runner_ended: AtomicBool::new(false),
            is_stopped: AtomicBool::new(false),
        }
    }

    /// The runner submits nothing more.
    pub(crate) fn end_runner(&self) {
        self.has_runner_ended.store(true, Ordering::SeqCst);
    }

    /// Whether the runner submits nothing more.
    pub(crate) fn has_runner_ended(&self) -> bool {
        self.has_runner_ended.load(Ordering::SeqCst)
    }

    /// Runner, sender and backup are to end, though not all is done.
    pub(crate) fn stop(&self) {
        self.is_stopped.store(true, Ordering::SeqCst);
    }

    /// Whether they are to end.
    pub(crate) fn is_stopped(&self) -> bool {
        self.is_stopped.load(Ordering::SeqCst)
    }
}
