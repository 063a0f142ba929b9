//! The guest's steps, at the world.
ghost use Rattle.std.specs.Prelude.{◌≡◌, ℕ, ◌+◌, ◌≤◌, ◌<◌, ◌&&◌, length, IfOk, IfSome, IfNone, OnErr, true, false};
ghost use Rattle.frame_ports.specs.Limits.{number_limit};
ghost use Rattle.pair_record.specs.declared.event.Event.TheVariants as events;
ghost use Rattle.pair_record.specs.Journal.{all_entries};
ghost use Rattle.pair_record.specs.Modes as modes;
ghost use Rattle.pair_record.specs.Protocol.{frames_run_out, refused, step_outcome, step_room};
ghost use Rattle.pair_core.specs.Answering.{AnswersEvent, MayWantMemory, step_reply};
ghost use Rattle.pair_core.specs.Done.{Does};
ghost use Rattle.pair_core.specs.Pair.{IsConsistent};
ghost use Rattle.pair_core.specs.Drops.{Drops};
ghost use Rattle.pair_core.specs.Replication.{KeepsBackup};
ghost use Rattle.pair_core.specs.Runs.{StepsAnswer, steps_outcome, with_steps};
ghost use Rattle.pair_core.specs.Service.{Serves, ServesSteps, moment};
ghost use Rattle.pair_history.specs.Entries.{Begins};

use super::{World, by_table};
use memory_wanted::MemoryWanted;
use pair_record::{Refusal, Reply, is_alone};

impl World {
    /// The guest makes one step, as [`World::apply`] of [`Event::Step`](crate::Event::Step) does, and answers the guest's step count. This
    /// form copies no reply.
    ///
    /// # Errors
    ///
    /// [`Refusal::Stopped`] where the primary has stopped; [`Refusal::CutNeeded`] where fewer than 64 places of the outbox are free;
    /// [`Refusal::Exhausted`] where the history with what is kept would hold 2^62 entries (a step of a node that is alone counts as 1025);
    /// [`Refusal::NoMemory`] where a node is alone, and memory for what the step may send was refused. Nothing changed then.
    pub fn step(&mut self) -> Result<u64, Refusal>
        ensures answers { AnswersEvent self.old.start self.old.protocol events.Step (step_reply result) self.new.protocol }
        ensures start { self.new.start ≡ self.old.start }
        ensures backup { KeepsBackup self.old.nodes self.new.nodes }
        ensures refused { OnErr result (self.new ≡ self.old) }
        ensures grows { Begins self.old.protocol.state.journal.history self.new.protocol.state.journal.history }
        ensures consistent { IsConsistent self.new }
        ensures drops { Drops self.old.start self.old.protocol events.Step (step_reply result) self.new.protocol }
        ensures serves { Serves self.old.start (moment self.old) events.Step (step_reply result) (moment self.new) }
    {
        self.keep_consistent();
        self.keep_drops();
        if is_alone(self.record.mode()) {
            let answer = self.run_alone(1);
            self.keep_consistent();
            return answer;
        }
        let answer = self.run_paired(1);
        self.keep_consistent();
        answer
    }

    /// The guest makes `count` steps, each as [`World::step`] makes one, and answers its step count after the last. The first step that
    /// is refused ends them, and those before it stay made. One call for a long run is much faster than a call for each step.
    ///
    /// # Errors
    ///
    /// What the first refused step answers.
    pub fn run_steps(&mut self, count: u64) -> Result<u64, Refusal>
        ensures outcome { StepsAnswer self.old.start self.old.protocol count (step_reply result) self.new.protocol }
        ensures start { self.new.start ≡ self.old.start }
        ensures backup { KeepsBackup self.old.nodes self.new.nodes }
        ensures consistent { IsConsistent self.new }
        // To the clients they are as many steps, one after another, up to the first that is refused.
        ensures served { ServesSteps self.old.start (moment self.old) count (step_reply result) (moment self.new) }
    {
        self.keep_consistent();
        if is_alone(self.record.mode()) {
            let answer = self.run_alone(count);
            self.keep_consistent();
            return answer;
        }
        let answer = self.run_paired(count);
        self.keep_consistent();
        answer
    }

    /// One step, as a reply.
    pub(super) fn stepped(&mut self) -> Result<Reply, MemoryWanted>
        ensures { Does (step_outcome self.old.start self.old.protocol.state) events.Step result self.old self.new }
    {
        let why = match self.step() {
            Ok(count) => return Ok(Reply::Steps(count)),
            Err(why) => by_table(why)?,
        };
        Ok(Reply::Refused(why))
    }

    /// Steps of a pair: they are kept.
    fn run_paired(&mut self, count: u64) -> Result<u64, Refusal>
        requires { modes.is_alone self.old.protocol.state.mode ≡ false }
        ensures outcome { (step_reply result, self.new.protocol.state) ≡ steps_outcome self.old.start self.old.protocol.state count }
        ensures made { (made : ℕ) × (self.new ≡ with_steps made self.old) }
    {
        let made = self.make_steps(count);
        if made == count {
            return Ok(self.nodes.steps());
        }
        match self.step_refusal() {
            Some(why) => Err(why),
            None => unreachable!(),
        }
    }

    /// Makes as many of these steps as there is room for, in the outbox and in the history.
    fn make_steps(&mut self, count: u64) -> u64
        requires { modes.is_alone self.old.protocol.state.mode ≡ false }
        ensures most { result ≤ count }
        ensures made { self.new ≡ with_steps result self.old }
        ensures answered { (Reply.Steps self.new.nodes.live.guest.steps, self.new.protocol.state)
            ≡ steps_outcome self.old.start self.old.protocol.state result }
        ensures ended { result < count → modes.is_stopped self.new.protocol.state.mode ≡ false → length self.new.nodes.live.outbox ≤ 192
            → number_limit ≤ length (all_entries self.new.protocol.state.journal) + 1 }
    {
        let most = self.record.steps_left(count);
        let made = self.nodes.run(most);
        self.record.run(made);
        made
    }

    /// Why the next step is refused.
    fn step_refusal(&self) -> Option<Refusal>
        ensures refused { IfSome result (λ why. refused self.now.protocol.state why ≡ step_outcome self.now.start self.now.protocol.state) }
        ensures none { IfNone result ((modes.is_stopped self.now.protocol.state.mode ≡ false) × (length self.now.nodes.live.outbox ≤ 192)
            × (length (all_entries self.now.protocol.state.journal) + step_room self.now.protocol.state.mode < number_limit)
            × ((modes.is_alone self.now.protocol.state.mode && frames_run_out self.now.protocol.state) ≡ false)) }
    {
        self.record.step_refusal(self.nodes.outbox())
    }

    /// Steps of a node that is alone: what each of them sends lands at once.
    fn run_alone(&mut self, count: u64) -> Result<u64, Refusal>
        requires { modes.is_alone self.old.protocol.state.mode ≡ true }
        ensures outcome { StepsAnswer self.old.start self.old.protocol count (step_reply result) self.new.protocol }
        ensures start { self.new.start ≡ self.old.start }
        ensures backup { KeepsBackup self.old.nodes self.new.nodes }
        ensures none_made { count ≡ 1 → OnErr result (self.new ≡ self.old) }
    {
        self.keep_consistent();
        let mut made = 0;
        while made < count {
            if let Some(why) = self.step_refusal() {
                return Err(why);
            }
            let steps = self.step_alone(count - made)?;
            made += steps;
        }
        Ok(self.nodes.steps())
    }

    /// Some of these steps of a node that is alone, of which none is refused: none follows one that sent a frame.
    fn step_alone(&mut self, count: u64) -> Result<u64, MemoryWanted>
        requires alone { modes.is_alone self.old.protocol.state.mode ≡ true }
        requires some { 0 < count }
        requires room { length (all_entries self.old.protocol.state.journal) + 1025 < number_limit }
        requires numbers { frames_run_out self.old.protocol.state ≡ false }
        ensures most { IfOk result (λ n. n ≤ count) }
        ensures some { IfOk result (λ n. 0 < n) }
        ensures answered { IfOk result (λ n. (Reply.Steps self.new.nodes.live.guest.steps, self.new.protocol.state)
            ≡ steps_outcome self.old.start self.old.protocol.state n) }
        ensures start { self.new.start ≡ self.old.start }
        ensures mode { self.new.protocol.state.mode ≡ self.old.protocol.state.mode }
        ensures lines { self.new.protocol.lines ≡ self.old.protocol.lines }
        ensures backup { KeepsBackup self.old.nodes self.new.nodes }
        ensures wants { OnErr result (MayWantMemory self.old.protocol.state (step_outcome self.old.start self.old.protocol.state)) }
        ensures err { OnErr result (self.new ≡ self.old) }
    {
        self.record.keep();
        let most = self.record.reserve_lone_steps(count)?;
        let steps = self.nodes.run_to_frame(most);
        self.record.run_alone(steps, self.nodes.outbox());
        self.nodes.send_off();
        Ok(steps)
    }
}
