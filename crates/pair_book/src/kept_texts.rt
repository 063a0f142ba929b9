//! Texts whose memory is given back later.
use crate::book::Book;
use crate::texts::MOST_PENDING;
use growing_history::Pair;
use std::alloc::Global;
use std::sync::Arc;

/// Handles to the texts of checkpoints that were pending: while it lives, none of their memory is given back. Who took it under a lock
/// lets go of it after the lock.
#[derive(Drop)]
pub struct KeptTexts {
    _handles: [Option<Arc<Vec<u8>, Global>>; MOST_PENDING],
}

impl<P: Pair> Book<P> {
    /// Handles to the texts of the pending checkpoints, so that a call after which they are no longer pending gives back none of their
    /// memory. No byte is copied, and no memory is taken. A text has no handle where the place for their count was refused, or where as many
    /// are out as can be counted.
    pub fn keep_texts(&self) -> KeptTexts {
        let mut handles = [None, None, None, None];
        for (place, packet) in handles.iter_mut().zip(self.texts.packets()) {
            *place = packet.handle();
        }
        KeptTexts { _handles: handles }
    }
}
