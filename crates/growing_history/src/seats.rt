//! The keeper's seat, and those of its members.
ghost use Rattle.std.specs.Prelude.{◌≡◌, ◌+◌, ◌^◌, ◌<◌, ◌++◌, [], ◌∷◌, true, false, length, Some};
ghost use Rattle.growing_history.specs.Steps.{step, Begins, steps_by};
ghost use Rattle.growing_history.specs.LogState.{LegalSteps};
ghost use Rattle.growing_history.specs.Views.{View, unopened, only_view};
ghost use Rattle.growing_history.specs.Plays.{Meets, Looks, badge_of, heard, one_more, newcomer, with_member, without_member, member_of};
ghost use Rattle.growing_history.specs.Plays.{stepped};

use crate::boot::Clock;
use crate::known::{
    Announced, Counting, Enrolling, Known, Lending, Looking, Meeting, Opening, Pair, Telling,
};
use crate::what::Tells;
use atomic_table::{Badge as Resting, Seat};
use std::marker::{Brand, Model, PhantomData};
use std::mem;

/// The seat of the history's keeper. Contracts see the log of its steps, and how many numbers it has given out.
#[derive(Drop)]
pub struct KeeperSeat<P: Pair> {
    seat: Seat<(), Known>,
    count: u64,
    enrolled: u64,
    of: PhantomData<P>,
}

impl<P: Pair> Model for KeeperSeat<P> {
    ghost use Rattle.std.specs.Prelude.{◌≡◌, [], length};
    ghost use Rattle.growing_history.specs.Views.{Keeper, keeper_of, IsKeeper};

    ghost Value = { Keeper };

    ghost view = { λ k. keeper_of k.seat.me.0 };

    ghost invariant = { λ k. (k.seat.table_id ≡ P.word)
        × (k.seat.me.1 ≡ [])
        × IsKeeper P.start k.seat.me.0
        × (k.count ≡ length k.seat.me.0.steps)
        × (k.enrolled ≡ k.seat.me.0.enrolled) };
}

/// A member's seat. Contracts see its number, and the steps that it has seen.
#[derive(Drop)]
pub struct MemberSeat<P: Pair> {
    seat: Resting<Known>,
    number: u64,
    of: PhantomData<P>,
}

impl<P: Pair> Model for MemberSeat<P> {
    ghost use Rattle.std.specs.Prelude.{◌≡◌};
    ghost use Rattle.growing_history.specs.Views.{Member, member_in, only_view, IsMember};

    ghost Value = { Member };

    ghost view = { λ m. member_in m.seat.views };

    ghost invariant = { λ m. (m.seat.table_id ≡ P.word)
        × IsMember P.start m.seat.views
        × (m.number ≡ (only_view m.seat.views).number) };
}

/// What a member was told of another: contracts see the steps that the other had seen.
#[derive(Drop)]
pub struct Badge<P: Pair> {
    seat: Resting<Known>,
    of: PhantomData<P>,
}

impl<P: Pair> Model for Badge<P> {
    ghost use Rattle.std.specs.Prelude.{◌≡◌, List};
    ghost use Rattle.growing_history.specs.Steps.{Step};
    ghost use Rattle.growing_history.specs.Views.{only_view, IsBadge};

    ghost Value = { List Step };

    ghost view = { λ b. (only_view b.seat.views).steps };

    ghost invariant = { λ b. (b.seat.table_id ≡ P.word) × IsBadge P.start b.seat.views };
}

/// The member's seat is joined into the keeper's.
fn lend<P: Pair>(clock: &Clock<P>, keeper: &mut Seat<(), Known>, member: Resting<Known>)
    requires word { (keeper.old.table_id ≡ P.word) × (member.table_id ≡ P.word) }
    requires keeper { (keeper.old.me.0.keeps ≡ true) × (keeper.old.me.1 ≡ []) }
    requires member { (v : View) × (member.views ≡ v ∷ []) }
    ensures word { keeper.new.table_id ≡ P.word }
    ensures keeper { keeper.new.me ≡ (with_member keeper.old.me.0 (only_view member.views), []) }
{
    let seat = member.into_seat();
    clock.table.shared.join_seat::<Lending>(keeper, seat);
}

/// It is split off again.
fn take_back<P: Pair>(clock: &Clock<P>, keeper: &mut Seat<(), Known>) -> Resting<Known>
    requires word { keeper.old.table_id ≡ P.word }
    requires keeper { (keeper.old.me.0.keeps ≡ true) × (keeper.old.me.1 ≡ []) }
    ensures word { (keeper.new.table_id ≡ P.word) × (result.table_id ≡ P.word) }
    ensures keeper { keeper.new.me ≡ (without_member keeper.old.me.0, []) }
    ensures member { result.views ≡ member_of keeper.old.me.0 ∷ [] }
{
    clock
        .table
        .shared
        .split_seat::<Lending>(keeper)
        .into_badge()
}

/// The keeper gives out the next number.
fn give_out<P: Pair>(clock: &Clock<P>, keeper: &mut Seat<(), Known>) -> Resting<Known>
    requires word { keeper.old.table_id ≡ P.word }
    requires keeper { (keeper.old.me.0.keeps ≡ true) × (keeper.old.me.1 ≡ []) }
    ensures word { (keeper.new.table_id ≡ P.word) × (result.table_id ≡ P.word) }
    ensures keeper { keeper.new.me ≡ (one_more keeper.old.me.0, []) }
    ensures member { result.views ≡ newcomer keeper.old.me.0 ∷ [] }
{
    clock
        .table
        .shared
        .split_seat::<Enrolling>(keeper)
        .into_badge()
}

/// The keeper looks.
fn meet<P: Pair>(clock: &Clock<P>, keeper: &mut Seat<(), Known>)
    requires word { keeper.old.table_id ≡ P.word }
    requires keeper { (keeper.old.me.0.keeps ≡ true) × (keeper.old.me.1 ≡ []) }
    ensures word { keeper.new.table_id ≡ P.word }
    ensures keeper { keeper.new.me ≡ keeper.old.me }
    ensures meets { Meets keeper.old.me.0 (length keeper.old.me.0.steps) }
{
    clock.table.shared.load::<Meeting>(keeper, 0);
}

/// The keeper makes the step that the call says. The code has no use for what it is.
fn count<P: Pair, S: Announced, W: Tells>(clock: &Clock<P>, keeper: &mut Seat<(), Known>, _what: &W)
    requires word { keeper.old.table_id ≡ P.word }
    requires keeper { (keeper.old.me.0.keeps ≡ true) × (keeper.old.me.1 ≡ []) }
    requires step { S.step ≡ step keeper.old.me.0.number (W.what _what.now) }
    requires room { length keeper.old.me.0.steps < 2 ^ 62 }
    requires start { keeper.old.me.0.start ≡ Some P.start }
    requires legal { LegalSteps P.start (keeper.old.me.0.steps ++ step keeper.old.me.0.number (W.what _what.now) ∷ []) }
    ensures word { keeper.new.table_id ≡ P.word }
    ensures keeper { keeper.new.me ≡ (stepped (step keeper.old.me.0.number (W.what _what.now)) keeper.old.me.0, []) }
    ensures meets { Meets keeper.old.me.0 (length keeper.old.me.0.steps) }
{
    clock.table.shared.fetch_add::<Counting<S>>(keeper, 0, 1);
}

/// A seat that isn't the keeper's looks.
fn look<P: Pair>(clock: &Clock<P>, seat: &mut Seat<(), Known>) -> u64
    requires word { seat.old.table_id ≡ P.word }
    requires seat { (seat.old.me.0.keeps ≡ false) × (seat.old.me.1 ≡ []) }
    ensures word { seat.new.table_id ≡ P.word }
    ensures seat { seat.new.me.1 ≡ [] }
    ensures looks { Looks seat.old.me.0 result seat.new.me.0 }
{
    clock.table.shared.load::<Looking>(seat, 0)
}

/// A badge is split off a seat.
fn split<P: Pair>(clock: &Clock<P>, seat: &mut Seat<(), Known>) -> Resting<Known>
    requires word { seat.old.table_id ≡ P.word }
    requires seat { seat.old.me.1 ≡ [] }
    ensures word { (seat.new.table_id ≡ P.word) × (result.table_id ≡ P.word) }
    ensures seat { seat.new.me ≡ seat.old.me }
    ensures badge { result.views ≡ badge_of seat.old.me.0 ∷ [] }
{
    clock.table.shared.split_seat::<Telling>(seat).into_badge()
}

/// A badge is joined into a seat.
fn hear<P: Pair>(clock: &Clock<P>, seat: &mut Seat<(), Known>, badge: Resting<Known>)
    requires word { (seat.old.table_id ≡ P.word) × (badge.table_id ≡ P.word) }
    requires seat { seat.old.me.1 ≡ [] }
    requires badge { (v : View) × (badge.views ≡ v ∷ []) }
    ensures word { seat.new.table_id ≡ P.word }
    ensures seat { seat.new.me ≡ (heard seat.old.me.0 (only_view badge.views), []) }
{
    let other = badge.into_seat();
    clock.table.shared.join_seat::<Telling>(seat, other);
}

impl<P: Pair> KeeperSeat<P> {
    /// The keeper's seat, from the first one.
    pub(crate) fn first(clock: &Clock<P>, mut seat: Seat<(), Known>) -> KeeperSeat<P>
        requires word { seat.table_id ≡ P.word }
        requires seat { seat.me ≡ (unopened, []) }
        ensures { result ≡ record { steps = []; enrolled = 0 } }
    {
        clock.table.shared.load::<Opening<P>>(&mut seat, 0);
        KeeperSeat {
            seat,
            count: 0,
            enrolled: 0,
            of: PhantomData,
        }
    }

    /// How many steps the keeper has made: what the word is.
    pub fn count(&self) -> u64
        ensures count { result ≡ length self.now.steps }
        // What is true of every keeper's seat.
        ensures legal { LegalSteps P.start self.now.steps }
    {
        self.count
    }

    /// How many numbers it has given out.
    pub fn enrolled(&self) -> u64
        ensures { result ≡ self.now.enrolled }
    {
        self.enrolled
    }

    /// Gives out the next number, to a member that has seen the whole log and made no step.
    pub fn enroll(&mut self, clock: &Clock<P>) -> MemberSeat<P>
        requires room { self.old.enrolled < 2 ^ 63 }
        ensures keeper { self.new ≡ record self.old { enrolled = self.old.enrolled + 1 } }
        ensures member { result ≡ record { number = self.old.enrolled + 1; steps = self.old.steps } }
    {
        meet(clock, &mut self.seat);
        self.enrolled += 1;
        let number = self.enrolled;
        let seat = give_out(clock, &mut self.seat);
        MemberSeat {
            seat,
            number,
            of: PhantomData,
        }
    }

    /// Makes a step for a member, who has then seen the whole log, and the step last in it.
    pub fn step<W: Tells>(&mut self, clock: &Clock<P>, member: &mut MemberSeat<P>, what: &W)
        requires room { length self.old.steps < 2 ^ 62 }
        requires legal { LegalSteps P.start (self.old.steps ++ step member.old.number (W.what what.now) ∷ []) }
        ensures keeper { self.new ≡ record self.old { steps = self.old.steps ++ step member.old.number (W.what what.now) ∷ [] } }
        ensures member { member.new ≡ record { number = member.old.number; steps = self.new.steps } }
        ensures before { Begins member.old.steps self.old.steps }
        ensures own { steps_by member.old.number member.new.steps ≡ steps_by member.old.number member.old.steps ++ step member.old.number
            (W.what what.now) ∷ [] }
    {
        let lent = mem::replace(&mut member.seat, Resting::blank());
        lend(clock, &mut self.seat, lent);
        count::<P, Brand, W>(clock, &mut self.seat, what);
        self.count += 1;
        let back = take_back(clock, &mut self.seat);
        member.seat = back;
    }

    /// Shows a member the whole log. Nothing is done.
    pub fn meet(&mut self, clock: &Clock<P>, member: &mut MemberSeat<P>)
        ensures keeper { self.new ≡ self.old }
        ensures member { member.new ≡ record { number = member.old.number; steps = self.old.steps } }
        ensures before { Begins member.old.steps self.old.steps }
        ensures own { steps_by member.old.number self.old.steps ≡ steps_by member.old.number member.old.steps }
        ensures legal { LegalSteps P.start self.old.steps }
    {
        let seat = mem::replace(&mut member.seat, Resting::blank());
        lend(clock, &mut self.seat, seat);
        meet(clock, &mut self.seat);
        member.seat = take_back(clock, &mut self.seat);
    }

    /// Makes a step that is no member's.
    pub fn step_alone<W: Tells>(&mut self, clock: &Clock<P>, what: &W)
        requires room { length self.old.steps < 2 ^ 62 }
        requires legal { LegalSteps P.start (self.old.steps ++ step 0 (W.what what.now) ∷ []) }
        ensures { self.new ≡ record self.old { steps = self.old.steps ++ step 0 (W.what what.now) ∷ [] } }
    {
        count::<P, Brand, W>(clock, &mut self.seat, what);
        self.count += 1;
    }
}

impl<P: Pair> MemberSeat<P> {
    /// The number under which its steps are made.
    pub fn number(&self) -> u64
        ensures number { result ≡ self.now.number }
        // What is true of every member's seat.
        ensures numbered { 0 < self.now.number }
        ensures legal { LegalSteps P.start self.now.steps }
    {
        self.number
    }

    /// Sees the whole log, and says how long it is.
    pub fn look(&mut self, clock: &Clock<P>) -> u64
        ensures number { self.new.number ≡ self.old.number }
        ensures seen { Begins self.old.steps self.new.steps }
        ensures own { steps_by self.old.number self.new.steps ≡ steps_by self.old.number self.old.steps }
        ensures legal { LegalSteps P.start self.new.steps }
        ensures length { result ≡ length self.new.steps }
    {
        let mut seat = mem::replace(&mut self.seat, Resting::blank()).into_seat();
        let found = look(clock, &mut seat);
        self.seat = seat.into_badge();
        found
    }

    /// What another may be told: all that this member has seen.
    pub fn tell(&mut self, clock: &Clock<P>) -> Badge<P>
        ensures badge { result ≡ self.old.steps }
        ensures same { self.new ≡ self.old }
    {
        let mut seat = mem::replace(&mut self.seat, Resting::blank()).into_seat();
        let badge = split(clock, &mut seat);
        self.seat = seat.into_badge();
        Badge {
            seat: badge,
            of: PhantomData,
        }
    }

    /// Sees all that the other had seen who told it, beside all that it had seen itself.
    pub fn learn(&mut self, clock: &Clock<P>, badge: &mut Badge<P>)
        ensures number { self.new.number ≡ self.old.number }
        ensures seen { Begins self.old.steps self.new.steps }
        ensures told { Begins badge.old self.new.steps }
        ensures own { steps_by self.old.number self.new.steps ≡ steps_by self.old.number self.old.steps }
        ensures legal { LegalSteps P.start self.new.steps }
        ensures badge { badge.new ≡ badge.old }
    {
        let mut other = mem::replace(&mut badge.seat, Resting::blank()).into_seat();
        let copy = split(clock, &mut other);
        badge.seat = other.into_badge();
        let mut seat = mem::replace(&mut self.seat, Resting::blank()).into_seat();
        hear(clock, &mut seat, copy);
        look(clock, &mut seat);
        self.seat = seat.into_badge();
    }
}

/// A client's seat, whose steps are what the client called.
pub type ClientSeat<P> = MemberSeat<P>;

/// A runner's seat, whose steps seal epochs, or say that the node ran alone.
pub type RunnerSeat<P> = MemberSeat<P>;

/// A backup's seat, whose steps commit epochs.
pub type BackupSeat<P> = MemberSeat<P>;
