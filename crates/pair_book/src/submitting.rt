//! The runner's epoch ends: it is told, and the next frames are handed out.
ghost use Rattle.std.specs.Prelude.{◌≡◌, ◌+◌, ◌*◌, ◌<◌, ◌≤◌, ◌++◌, ◌∷◌, [], false, length, map, All, None, IfOk, OnOk, IfErr, OnErr};
ghost use Rattle.frame_ports.specs.Addresses.{IsFrame};
ghost use Rattle.frame_ports.specs.Limits.{number_limit};
ghost use Rattle.pair_history.specs.Entries.{Arrive};
ghost use Rattle.pair_history.specs.Failures.{arrived_numbers};
ghost use Rattle.pair_record.specs.Journal.{all_entries};
ghost use Rattle.pair_record.specs.Limits.{most_pending};
ghost use Rattle.pair_record.specs.Modes.{is_stopped as stopped};
ghost use Rattle.pair_record.specs.Protocol.{first_refusal};
ghost use Rattle.pair_record.specs.Record.{IsAsBefore as IsRecordAsBefore};
ghost use Rattle.growing_history.specs.Steps.{step, steps_by};
ghost use Rattle.pair_book.specs.Calls.{Makes, IsAsBefore, IsWhy};
ghost use Rattle.pair_book.specs.Handing.{handing, handed_next, HandsNext};
ghost use Rattle.pair_book.specs.Made.{IsPrepared};
ghost use Rattle.pair_book.specs.Running.{kind_wanted};
ghost use Rattle.pair_book.specs.Settled.{EpochFollows, RunsOn};
ghost use Rattle.pair_book.specs.Submitting.{protocol_ended, ports_ended, ended_as, ended, epoch_told, submit_why, prepared_rows, ended_rows};
ghost use Rattle.pair_book.specs.Submitting.{most_handed, wanted_kind, texts_ended};
ghost use Rattle.pair_book.specs.internal.Committed.{KeepsCommitted};
ghost use Rattle.pair_book.specs.internal.Tie.{IsTied};
ghost use Rattle.pair_book.specs.internal.Told.{found};

use crate::book::Book;
use crate::handing::{FRAMES_AT_ONCE, hand_out};
use crate::prepared::Prepared;
use crate::runner::Kind;
use crate::seats::Seats;
use crate::texts::Texts;
use growing_history::{Clock, MemberSeat, Pair, RunnerSeat, Tells, live_members_miss_nothing};
use memory_wanted::{MemoryWanted, with_capacity};
use pair_history::Frame;
use pair_record::{PairRecord, Refusal, is_alone};
use std::alloc::Global;

/// How many checkpoints may be pending.
const MOST_PENDING: u64 = 4;

/// An epoch of a runner: so many arrivals of the frames that were handed out to it, the first first, and then so many steps.
#[derive(Clone, Copy)]
pub struct OpenEpoch {
    pub arrivals: usize,
    pub steps: u64,
}

/// What the runner is handed out where its epoch ended.
#[derive(Drop)]
pub struct Next {
    /// Each frame with its number, counted from 1 over all clients, in the order in which they are to arrive.
    pub frames: Vec<(u64, Frame)>,
}

/// An epoch that ended, as it stands in the record, whose history had `before` entries when it did. Nothing is copied.
#[derive(Drop)]
struct Ended<'a> {
    pair: &'a PairRecord,
    before: u64,
    epoch: OpenEpoch,
    what: &'a Prepared,
}

impl Tells for Ended<'_> {
    ghost what = { λ e. found e.what.now e.pair.now.protocol.journal e.before e.epoch.arrivals e.epoch.steps };
}

/// The keeper makes the step that tells of it, for the member whose seat is lent; where that step leads, the record is.
fn tell_ended<P: Pair>(
    pair: &PairRecord,
    before: u64,
    epoch: OpenEpoch,
    what: &Prepared,
    seats: &mut Seats<P>,
    clock: &Clock<P>,
    member: &mut MemberSeat<P>,
)
    requires tied { IsTied P.start (seats.old.steps
        ++ step member.old.number (found what.now pair.now.protocol.journal before epoch.arrivals epoch.steps) ∷ [])
        pair.now.protocol pair.now.ports }
    requires committed { KeepsCommitted P.start (seats.old.steps
        ++ step member.old.number (found what.now pair.now.protocol.journal before epoch.arrivals epoch.steps) ∷ [])
        pair.now.protocol pair.now.ports }
    requires room { length seats.old.steps < number_limit }
    ensures tied { IsTied P.start seats.new.steps pair.now.protocol pair.now.ports }
    ensures committed { KeepsCommitted P.start seats.new.steps pair.now.protocol pair.now.ports }
    ensures seats { seats.new ≡ record seats.old {
      steps = seats.old.steps ++ step member.old.number (found what.now pair.now.protocol.journal before epoch.arrivals epoch.steps) ∷ [];
    } }
    ensures member { member.new ≡ record { number = member.old.number; steps = seats.new.steps } }
    ensures own { steps_by member.old.number member.new.steps ≡ steps_by member.old.number member.old.steps
        ++ step member.old.number (found what.now pair.now.protocol.journal before epoch.arrivals epoch.steps) ∷ [] }
{
    let ended = Ended {
        pair,
        before,
        epoch,
        what,
    };
    seats.step(clock, member, &ended);
}

/// The epoch ends at the record, before more is handed out.
fn end(
    pair: &mut PairRecord,
    kind: Kind,
    epoch: OpenEpoch,
    frames: &[Frame],
) -> Result<(), MemoryWanted>
    requires kind { kind ≡ kind_wanted pair.old.protocol.mode pair.old.protocol.window.to_cut }
    requires runs { stopped pair.old.protocol.mode ≡ false }
    requires few_pending { length pair.old.protocol.pending < 4 }
    requires free { first_refusal (ended_rows kind epoch.steps frames.now pair.old.protocol pair.old.ports) ≡ None }
    requires there { epoch.arrivals ≤ length (arrived_numbers pair.old.protocol.journal.running) }
    requires few { length frames.now ≤ 256 }
    requires frames { All IsFrame frames.now }
    ensures protocol { OnOk result (pair.new.protocol
        ≡ protocol_ended kind epoch.arrivals epoch.steps frames.now pair.old.protocol pair.old.ports) }
    ensures ports { OnOk result (pair.new.ports ≡ ports_ended kind frames.now pair.old.protocol pair.old.ports) }
    ensures boxes { length pair.new.ports.boxes ≡ length pair.old.ports.boxes }
    ensures inboxes { pair.new.ports.inboxes ≡ pair.old.ports.inboxes }
    ensures numbers { OnOk result (length (all_entries pair.new.protocol.journal) + most_handed pair.old.ports < number_limit) }
    ensures room { OnOk result (pair.old.arrival_room ≤ pair.new.arrival_room) }
    ensures err { OnErr result (IsRecordAsBefore pair.old pair.new) }
{
    pair.keep();
    match kind {
        Kind::Nothing => match pair.enter_epoch(epoch.arrivals, epoch.steps, frames) {
            Ok(()) => Ok(()),
            Err(wanted) => Err(wanted),
        },
        Kind::Delta => match pair.seal_epoch(epoch.arrivals, epoch.steps, frames) {
            Ok(_cut) => Ok(()),
            Err(wanted) => Err(wanted),
        },
        Kind::Full => {
            match pair.enter_epoch_and_seal_full(epoch.arrivals, epoch.steps, frames) {
                Ok(_cut) => Ok(()),
                Err(wanted) => Err(wanted),
            }
        }
    }
}

/// The epoch ends at the record, and where all that was handed out has arrived the next frames are handed out, which are answered with
/// their numbers. All room is made first.
fn end_and_hand_out(
    alloc: Global,
    pair: &mut PairRecord,
    kind: Kind,
    epoch: OpenEpoch,
    frames: &[Frame],
) -> Result<Vec<(u64, Frame)>, MemoryWanted>
    requires kind { kind ≡ kind_wanted pair.old.protocol.mode pair.old.protocol.window.to_cut }
    requires runs { stopped pair.old.protocol.mode ≡ false }
    requires few_pending { length pair.old.protocol.pending < 4 }
    requires free { first_refusal (ended_rows kind epoch.steps frames.now pair.old.protocol pair.old.ports) ≡ None }
    requires there { epoch.arrivals ≤ length (arrived_numbers pair.old.protocol.journal.running) }
    requires few { length frames.now ≤ 256 }
    requires frames { All IsFrame frames.now }
    requires inboxes { length pair.old.ports.inboxes ≡ length pair.old.ports.boxes }
    requires only { pair.old.protocol.journal.running ≡ map Arrive (arrived_numbers pair.old.protocol.journal.running) }
    ensures done { IfOk result (λ v. handing pair.new.protocol pair.new.ports v.items
        ≡ handed_next (ended_as kind epoch.arrivals epoch.steps frames.now pair.old.protocol pair.old.ports)) }
    ensures are_frames { IfOk result (λ v. All (λ x. IsFrame x.1) v.items) }
    ensures err { OnErr result (IsRecordAsBefore pair.old pair.new) }
{
    let most = FRAMES_AT_ONCE * pair.clients() as usize;
    let mut next = with_capacity(alloc, most)?;
    pair.reserve_arrivals(most)?;
    end(pair, kind, epoch, frames)?;
    if pair.handed() == 0 {
        hand_out(pair, &mut next);
    }
    Ok(next)
}

/// The text of what was prepared is pending behind the others.
fn add_text(texts: &mut Texts, what: Prepared)
    requires { length texts.old.packets < most_pending }
    ensures { texts.new ≡ texts_ended what texts.old }
{
    match what {
        Prepared::Nothing => {}
        Prepared::Checkpoint(packet) => texts.push(packet),
    }
}

impl<P: Pair> Book<P> {
    /// Why what was prepared isn't what is wanted.
    fn prepared_refusal(&self, what: &Prepared) -> Option<Refusal>
        ensures { result ≡ first_refusal (prepared_rows self.now.protocol what.now) }
    {
        let alone = is_alone(self.record.mode());
        match what {
            Prepared::Nothing if alone => None,
            Prepared::Nothing => Some(Refusal::AlreadyPaired),
            Prepared::Checkpoint(_) if alone => Some(Refusal::NotPaired),
            Prepared::Checkpoint(packet) => {
                if packet.generation() == self.record.generation()
                    && packet.number() == self.record.window().to_cut
                {
                    None
                } else {
                    Some(Refusal::Stale)
                }
            }
        }
    }

    /// Why an epoch of so many steps can't end, where it is no matter of who calls or of what was prepared.
    fn ended_refusal(&self, steps: u64, frames: &[Frame]) -> Option<Refusal>
        requires few { length frames.now ≤ 256 }
        requires few_pending { length self.now.protocol.pending < 4 }
        ensures { result ≡ first_refusal (ended_rows (wanted_kind self.now) steps frames.now self.now.protocol self.now.ports) }
    {
        let more = steps.saturating_add(FRAMES_AT_ONCE as u64 * self.record.clients());
        match self.kind_wanted() {
            Kind::Delta => {
                if self.record.is_exhausted_by(more) {
                    return Some(Refusal::Exhausted);
                }
                self.record.cut_refusal()
            }
            Kind::Nothing | Kind::Full => self.record.enter_epoch_refusal(more, frames),
        }
    }

    /// Why a submit is refused.
    fn submit_refusal(
        &self,
        seat: &RunnerSeat<P>,
        what: &Prepared,
        steps: u64,
        frames: &[Frame],
    ) -> Option<Refusal>
        requires few { length frames.now ≤ 256 }
        ensures { result ≡ submit_why P.start self.now seat.now.number what.now steps frames.now }
    {
        if !self.may_run(seat) {
            return Some(Refusal::Stopped);
        }
        if self.record.pending() >= MOST_PENDING {
            return Some(Refusal::Behind);
        }
        if let Some(why) = self.prepared_refusal(what) {
            return Some(why);
        }
        if self.is_word_full() {
            return Some(Refusal::Exhausted);
        }
        self.ended_refusal(steps, frames)
    }

    /// The live runner's epoch ends: so many arrivals of what was handed out to it, the first first, and so many steps, along which its
    /// guest sent these frames. With a checkpoint it is sealed with the text, under the wanted generation and number, and is pending, and
    /// its frames are held. With the full one of a new backup, number 0, it enters the history, its frames land after it, and then an empty
    /// epoch is sealed, and the frames of the guest are numbered anew. Where the node is alone it enters the history, and its frames land
    /// after it. Answers the frames that are handed out next, with their numbers: where nothing that was handed out has still to arrive,
    /// the first four of each inbox, or as many as there are, clients rising; else none.
    ///
    /// # Errors
    ///
    /// In this order: [`Refusal::Stopped`] where another runner is live, or the primary has stopped; [`Refusal::Behind`] where 4
    /// checkpoints are pending; [`Refusal::NotPaired`] for a checkpoint where the node is alone; [`Refusal::AlreadyPaired`] for none in a
    /// pair; [`Refusal::Stale`] for another generation or number than the wanted; [`Refusal::Exhausted`] where the word, the history with
    /// what is kept, or a number, would reach 2^62. [`Refusal::NoMemory`] where the room for any of it can't be had.
    pub fn submit(
        &mut self,
        alloc: Global,
        clock: &Clock<P>,
        seat: &mut RunnerSeat<P>,
        epoch: OpenEpoch,
        frames: &[Frame],
        what: &Prepared,
    ) -> Result<Next, Refusal>
        requires settled { EpochFollows P.start seat.old epoch.arrivals epoch.steps frames.now }
        requires prepared { IsPrepared P.start seat.old epoch.arrivals epoch.steps frames.now what.now }
        requires few { length frames.now ≤ 256 }
        requires frames { All IsFrame frames.now }
        ensures number { seat.new.number ≡ seat.old.number }
        ensures done { IfOk result (λ next. HandsNext (ended self.old epoch.arrivals epoch.steps frames.now)
            (handing self.new.protocol self.new.ports next.frames.items)) }
        ensures are_frames { IfOk result (λ next. All (λ x. IsFrame x.1) next.frames.items) }
        ensures texts { OnOk result (self.new.texts ≡ texts_ended what.now self.old.texts) }
        ensures step { OnOk result (Makes (epoch_told self.old epoch.arrivals epoch.steps what.now) self.old self.new seat.old seat.new) }
        ensures runs { IfOk result (λ next. RunsOn P.start seat.old seat.new epoch.arrivals epoch.steps frames.now next.frames.items) }
        ensures free { OnOk result (submit_why P.start self.old seat.old.number what.now epoch.steps frames.now ≡ None) }
        ensures why { IfErr result (IsWhy (submit_why P.start self.old seat.old.number what.now epoch.steps frames.now)) }
        ensures refused { OnErr result (IsAsBefore self.old self.new seat.old seat.new) }
    {
        if let Some(why) = self.submit_refusal(seat, what, epoch.steps, frames) {
            return Err(why);
        }
        let kind = self.kind_wanted();
        self.record.keep();
        live_members_miss_nothing();
        let shared = what.share()?;
        let before = self.record.history().len();
        // A settled runner names no more than were handed out to it. That is known only once its seat has looked, and it looks last.
        let came = OpenEpoch {
            arrivals: epoch.arrivals.min(self.record.handed()),
            steps: epoch.steps,
        };
        let next = end_and_hand_out(alloc, &mut self.record, kind, came, frames)?;
        self.seats.meet(clock, seat);
        tell_ended(
            &self.record,
            before,
            came,
            what,
            &mut self.seats,
            clock,
            seat,
        );
        add_text(&mut self.texts, shared);
        Ok(Next { frames: next })
    }
}
