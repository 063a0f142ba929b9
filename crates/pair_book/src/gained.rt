//! The step that tells what a call added to the history.
ghost use Rattle.std.specs.Prelude.{◌≡◌, ◌<◌, ◌++◌, ◌∷◌, [], drop, length};
ghost use Rattle.frame_ports.specs.Limits.{number_limit};
ghost use Rattle.growing_history.specs.Steps.{Added, step, Begins, steps_by};
ghost use Rattle.pair_book.specs.internal.Tie.{IsTied};
ghost use Rattle.pair_book.specs.internal.Committed.{KeepsCommitted};

use crate::seats::Seats;
use growing_history::{Clock, MemberSeat, Pair, Tells};
use pair_history::History;
use pair_record::PairRecord;

/// The entries that the history has beyond the first `before`: they are announced as they stand there, and nothing is copied.
#[derive(Drop)]
struct Gained<'a> {
    history: &'a History,
    before: u64,
}

impl Tells for Gained<'_> {
    ghost what = { λ g. Added (drop g.before g.history.now.entries) };
}

/// The keeper makes the step that adds what the record's history has gained since it had `before` entries, for the member whose seat is
/// lent; where that step leads, the record is.
pub(crate) fn tell<P: Pair>(
    pair: &PairRecord,
    before: u64,
    seats: &mut Seats<P>,
    clock: &Clock<P>,
    member: &mut MemberSeat<P>,
)
    requires tied { IsTied P.start (seats.old.steps
        ++ step member.old.number (Added (drop before pair.now.protocol.journal.history)) ∷ []) pair.now.protocol pair.now.ports }
    requires committed { KeepsCommitted P.start (seats.old.steps
        ++ step member.old.number (Added (drop before pair.now.protocol.journal.history)) ∷ []) pair.now.protocol pair.now.ports }
    requires room { length seats.old.steps < number_limit }
    ensures tied { IsTied P.start seats.new.steps pair.now.protocol pair.now.ports }
    ensures committed { KeepsCommitted P.start seats.new.steps pair.now.protocol pair.now.ports }
    ensures seats { seats.new ≡ record seats.old {
      steps = seats.old.steps ++ step member.old.number (Added (drop before pair.now.protocol.journal.history)) ∷ [];
    } }
    ensures member { member.new ≡ record { number = member.old.number; steps = seats.new.steps } }
    ensures before { Begins member.old.steps seats.old.steps }
    ensures own { steps_by member.old.number member.new.steps ≡ steps_by member.old.number member.old.steps
        ++ step member.old.number (Added (drop before pair.now.protocol.journal.history)) ∷ [] }
{
    let gained = Gained {
        history: pair.history(),
        before,
    };
    seats.step(clock, member, &gained);
}

/// The same where the step is no member's.
pub(crate) fn tell_alone<P: Pair>(
    pair: &PairRecord,
    before: u64,
    seats: &mut Seats<P>,
    clock: &Clock<P>,
)
    requires tied { IsTied P.start (seats.old.steps ++ step 0 (Added (drop before pair.now.protocol.journal.history)) ∷ [])
        pair.now.protocol pair.now.ports }
    requires committed { KeepsCommitted P.start (seats.old.steps
        ++ step 0 (Added (drop before pair.now.protocol.journal.history)) ∷ []) pair.now.protocol pair.now.ports }
    requires room { length seats.old.steps < number_limit }
    ensures tied { IsTied P.start seats.new.steps pair.now.protocol pair.now.ports }
    ensures committed { KeepsCommitted P.start seats.new.steps pair.now.protocol pair.now.ports }
    ensures seats { seats.new ≡ record seats.old {
      steps = seats.old.steps ++ step 0 (Added (drop before pair.now.protocol.journal.history)) ∷ [];
    } }
{
    let gained = Gained {
        history: pair.history(),
        before,
    };
    seats.step_alone(clock, &gained);
}
