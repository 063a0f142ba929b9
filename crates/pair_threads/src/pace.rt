//! How the guest is paced.

use crate::signals::Signals;
use guest_machine::Pace;
use std::sync::Arc;

/// Lets all steps by, until the run is to end.
#[derive(Drop)]
pub(crate) struct UntilStopped {
    pub(crate) signals: Arc<Signals>,
}

impl Pace for UntilStopped {
    ghost use Rattle.std.specs.Prelude.{◌≡◌};
    ghost use Rattle.std.proofs.Common.{rules};

    ghost STRETCH = { 1048576 };

    ghost answers = { λ before made yes after. after ≡ before };

    /// A hundredth of a second's, so that a run that is to end does so soon.
    const STRETCH: u64 = 1_048_576;

    fn go_on(&mut self, _made: u64) -> bool {
        !self.signals.is_stopped()
    }

    ghost some = { Prim.search rules };
}
