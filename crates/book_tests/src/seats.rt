//! What no clause says: that the word counts, that the calls succeed where there is memory, and that seats cross threads.
ghost use Rattle.std.specs.Prelude.{◌≡◌, [], ◌∷◌, ◌++◌, None};
ghost use Rattle.pair_history.specs.Entries as entries;
ghost use Rattle.growing_history.specs.Steps.{Added, Begins};
ghost use Rattle.growing_history.specs.Examples.{two_clients, found_empty};

use crate::asserts::same;
use growing_history::{
    BackupSeat, Badge, ClientSeat, Clock, KeeperSeat, MemberSeat, Opened, Pair, RunnerSeat, Tells,
    Texts, What, sealed_texts_make_their_guests,
};
use pair_history::Entry;
use std::marker::Brand;
use std::process::Abort;
use std::test::*;
use std::thread::{Threads, join};

#[test]
fn two_clients_tell_each_other(rt: HostRuntime) -> Result<(), Fail> {
    in_one_thread::<Brand, _>(&rt, Opened::new(rt.alloc())?)
}

#[test]
fn a_step_is_told_across_threads(rt: HostRuntime) -> Result<(), Fail> {
    in_two_threads::<Brand, _>(&rt, Opened::new(rt.alloc())?)
}

/// A format of which nobody says what its texts make.
struct Unread;

impl Texts for Unread {
    ghost reads = { λ text sent from to. Unit {0} };
}

#[test]
fn the_law_of_texts_holds_of_a_format() {
    sealed_texts_make_their_guests::<Unread>();
}

/// The seats of a pair of two clients, as they are given out at its start.
struct Members<P: Pair> {
    keeper: KeeperSeat<P>,
    runner: RunnerSeat<P>,
    backup: BackupSeat<P>,
    line: MemberSeat<P>,
    first: ClientSeat<P>,
    second: ClientSeat<P>,
}

fn enrolled<P: Pair>(clock: &Clock<P>, mut keeper: KeeperSeat<P>) -> Members<P>
    requires { keeper ≡ record { steps = []; enrolled = 0 } }
    ensures keeper { result.keeper ≡ record { steps = []; enrolled = 5 } }
    ensures members { (result.runner.number ≡ 1) × (result.backup.number ≡ 2) × (result.line.number ≡ 3) }
    ensures clients { (result.first ≡ record { number = 4; steps = [] }) × (result.second ≡ record { number = 5; steps = [] }) }
{
    let runner = keeper.enroll(clock);
    let backup = keeper.enroll(clock);
    let line = keeper.enroll(clock);
    let first = keeper.enroll(clock);
    let second = keeper.enroll(clock);
    Members {
        keeper,
        runner,
        backup,
        line,
        first,
        second,
    }
}

/// The first client finds its box empty.
fn call_first<P: Pair>(clock: &Clock<P>, keeper: &mut KeeperSeat<P>, first: &mut ClientSeat<P>)
    requires start { P.start ≡ two_clients }
    requires keeper { keeper.old.steps ≡ [] }
    requires first { first.old.number ≡ 4 }
    ensures keeper { keeper.new.steps ≡ found_empty 1 ∷ [] }
    ensures first { first.new ≡ record { number = 4; steps = found_empty 1 ∷ [] } }
{
    keeper.step(clock, first, &What::Added(&[Entry::Took(1, None)]));
}

/// That a client finds its box empty, told without a list of entries.
struct FoundEmpty {
    client: u64,
}

impl Tells for FoundEmpty {
    ghost what = { λ call. Added (entries.Took call.client None ∷ []) };
}

/// Then the second one does, which a type of its own announces.
fn call_second<P: Pair>(clock: &Clock<P>, keeper: &mut KeeperSeat<P>, second: &mut ClientSeat<P>)
    requires start { P.start ≡ two_clients }
    requires keeper { keeper.old.steps ≡ found_empty 1 ∷ [] }
    requires second { second.old.number ≡ 5 }
    ensures keeper { keeper.new.steps ≡ found_empty 1 ∷ found_empty 2 ∷ [] }
    ensures second { second.new ≡ record { number = 5; steps = found_empty 1 ∷ found_empty 2 ∷ [] } }
{
    keeper.step(clock, second, &FoundEmpty { client: 2 });
}

/// Each of the two clients calls, and tells the other one of it.
fn tell_each_other<P: Pair, R: Abort>(
    rt: &R,
    clock: &Clock<P>,
    keeper: &mut KeeperSeat<P>,
    first: &mut ClientSeat<P>,
    second: &mut ClientSeat<P>,
)
    requires start { P.start ≡ two_clients }
    requires keeper { keeper.old.steps ≡ [] }
    requires clients { (first.old.number ≡ 4) × (second.old.number ≡ 5) }
{
    call_first(clock, keeper, first);
    same(rt, "steps of one call", first.look(clock), 1);
    let mut badge = first.tell(clock);
    second.learn(clock, &mut badge);
    call_second(clock, keeper, second);
    same(rt, "steps of two calls", keeper.count(), 2);
    let mut badge = second.tell(clock);
    first.learn(clock, &mut badge);
    keeper.meet(clock, first);
    same(rt, "as many for the first client", first.look(clock), 2);
}

fn in_one_thread<P: Pair, R: Abort>(rt: &R, opened: Opened) -> Result<(), Fail>
    requires { (opened ≡ P.word) × (P.start ≡ two_clients) }
{
    let (clock, keeper) = opened.named::<P>();
    let Members {
        mut keeper,
        runner,
        backup,
        line,
        mut first,
        mut second,
    } = enrolled(&clock, keeper);
    same(rt, "steps", keeper.count(), 0);
    same(rt, "seats", keeper.enrolled(), 5);
    same(rt, "the runner", runner.number(), 1);
    same(rt, "the backup", backup.number(), 2);
    same(rt, "the line", line.number(), 3);
    same(rt, "the first client", first.number(), 4);
    same(rt, "the second client", second.number(), 5);
    tell_each_other(rt, &clock, &mut keeper, &mut first, &mut second);
    Ok(())
}

/// The first client calls, and tells of it.
fn call_and_tell<P: Pair>(
    clock: &Clock<P>,
    mut keeper: KeeperSeat<P>,
    mut first: ClientSeat<P>,
) -> Badge<P>
    requires start { P.start ≡ two_clients }
    requires keeper { keeper.steps ≡ [] }
    requires first { first.number ≡ 4 }
    ensures { result ≡ found_empty 1 ∷ [] }
{
    call_first(clock, &mut keeper, &mut first);
    first.tell(clock)
}

/// Meanwhile the second one looks.
fn look_once<P: Pair>(clock: &Clock<P>, mut second: ClientSeat<P>) -> ClientSeat<P> {
    second.look(clock);
    second
}

/// Whoever is told of a call in another thread has then seen it.
fn told_by_another<P: Pair + Send + Sync, R: Threads + Sync>(
    rt: &R,
    clock: &Clock<P>,
    keeper: KeeperSeat<P>,
    first: ClientSeat<P>,
    second: ClientSeat<P>,
) -> ClientSeat<P>
    requires start { P.start ≡ two_clients }
    requires keeper { keeper.steps ≡ [] }
    requires first { first.number ≡ 4 }
    ensures { Begins (found_empty 1 ∷ []) result.steps }
{
    let (mut badge, mut second) = join(
        rt,
        move || -> Badge<P>
            requires { (P.start ≡ two_clients) × (keeper.steps ≡ []) × (first.number ≡ 4) }
            ensures { result ≡ found_empty 1 ∷ [] }
        { call_and_tell(clock, keeper, first) },
        move || look_once(clock, second),
    );
    second.learn(clock, &mut badge);
    second
}

fn in_two_threads<P: Pair + Send + Sync, R: Threads + Abort + Sync>(
    rt: &R,
    opened: Opened,
) -> Result<(), Fail>
    requires { (opened ≡ P.word) × (P.start ≡ two_clients) }
{
    let (clock, keeper) = opened.named::<P>();
    let Members {
        keeper,
        runner: _,
        backup: _,
        line: _,
        first,
        second,
    } = enrolled(&clock, keeper);
    let mut second = told_by_another(rt, &clock, keeper, first, second);
    same(rt, "steps", second.look(&clock), 1);
    Ok(())
}
