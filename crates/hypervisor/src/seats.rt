//! The seats of members.
ghost use Rattle.growing_history.specs.LogState.{LegalSteps};

use growing_history::{MemberSeat, Pair};

/// What is true of every member's seat is true of this one.
pub(crate) fn keep_seat<P: Pair>(seat: &MemberSeat<P>)
    ensures { LegalSteps P.start seat.now.steps }
{
    let _number = seat.number();
}
