//! What the thread of a client does.

use crate::signals::Signals;
use std::sync::Wait;

/// What the thread of a client does. It has the client, and what came of it.
pub trait Session: Send + Drop {
    /// A session as its thread gets it, and as the thread leaves it.
    ghost served: { Self → Self → Type 0 };

    /// Does it, once. Answers false where the run is to end early.
    fn serve<R: Wait>(&mut self, rt: &R) -> bool
        ensures { served self.old self.new };
}

/// The thread of a client.
pub(crate) fn serve<S: Session, R: Wait>(rt: &R, mut session: S, signals: &Signals) -> S
    ensures { S.served session result }
{
    if !session.serve(rt) {
        signals.stop();
    }
    session
}
