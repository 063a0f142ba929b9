//! What a seat knows, the rule over all of it, and the moves that seats make.
ghost use Rattle.std.specs.Prelude.{◌≡◌};
ghost use Rattle.atomic_table.specs.Seated.{TableId};
ghost use Rattle.pair_history.specs.HistoryState.{HistoryState};
ghost use Rattle.growing_history.specs.Steps.{Step};
ghost use Rattle.growing_history.specs.Views.{View, unopened, nobody, Rule};
ghost use Rattle.growing_history.specs.Plays.{Opens, Met, Counted, Looks, one_more, newcomer, with_member, without_member, member_of};
ghost use Rattle.growing_history.specs.Plays.{badge_of, heard};

use atomic_table::{Join, Play, Split, TableRule};
use std::marker::{Brand, Model, PhantomData};

/// What a seat knows, for the proofs alone: no value of it is made.
pub struct Known(());

impl Model for Known {
    ghost Value = { View };

    ghost view = { λ _. unopened };
}

/// The word is the length of one legal list of steps, of which every seat has seen a beginning.
pub struct OneLog(());

impl TableRule<(), Known, ()> for OneLog {
    ghost holds = { λ _ s. Rule s };

    ghost first = { λ _. unopened };
}

/// Names one pair: its word, and the state at which its history starts. Each program picks it once.
pub trait Pair {
    ghost word: { TableId };

    ghost start: { HistoryState };
}

impl Pair for Brand {
    ghost use Rattle.growing_history.specs.Views.{no_table, no_start};

    ghost word = { no_table };

    ghost start = { no_start };
}

/// Names the step that a call makes. Each call picks it from its own arguments.
pub trait Announced {
    ghost step: { Step };
}

impl Announced for Brand {
    ghost use Rattle.growing_history.specs.Steps.{no_step};

    ghost step = { no_step };
}

/// The first seat gets to know where the history starts.
pub struct Opening<P>(PhantomData<P>);

impl<P: Pair> Play<(), Known> for Opening<P> {
    ghost then = { λ _ v n w. Opens P.start v.0 n w.0 × (w.1 ≡ v.1) };
}

/// The keeper looks.
pub struct Meeting(());

impl Play<(), Known> for Meeting {
    ghost then = { λ _ v n w. Met v.0 n w.0 × (w.1 ≡ v.1) };
}

/// The keeper makes the announced step.
pub struct Counting<S>(PhantomData<S>);

impl<S: Announced> Play<(), Known> for Counting<S> {
    ghost then = { λ _ v n w. Counted S.step v.0 n w.0 × (w.1 ≡ v.1) };
}

/// Another seat looks.
pub struct Looking(());

impl Play<(), Known> for Looking {
    ghost then = { λ _ v n w. Looks v.0 n w.0 × (w.1 ≡ v.1) };
}

/// The keeper gives out a number.
pub struct Enrolling(());

impl Split<Known> for Enrolling {
    ghost left = { one_more };

    ghost right = { newcomer };
}

/// A member's seat is joined into the keeper's, and split off again.
pub struct Lending(());

impl Join<Known> for Lending {
    ghost both = { with_member };

    ghost spent = { nobody };
}

impl Split<Known> for Lending {
    ghost left = { without_member };

    ghost right = { member_of };
}

/// A badge is split off a seat, and joined into another.
pub struct Telling(());

impl Split<Known> for Telling {
    ghost left = { λ v. v };

    ghost right = { badge_of };
}

impl Join<Known> for Telling {
    ghost both = { heard };

    ghost spent = { nobody };
}
