//! What happens at the record where the backup goes live.
ghost use Rattle.std.specs.Prelude.{◌≡◌, ◌+◌, ◌^◌, ◌≤◌, ◌<◌, All, length, map, IfOk, OnOk, OnErr, None, false};
ghost use Rattle.frame_ports.specs.Addresses.{IsFrame};
ghost use Rattle.frame_ports.specs.Limits.{number_limit};
ghost use Rattle.output_gate.specs.Epochs.{frames_of};
ghost use Rattle.pair_record.specs.FailureActs.{first_uncommitted};
ghost use Rattle.pair_record.specs.Modes.{is_alone};
ghost use Rattle.pair_record.specs.Protocol.{first_refusal, go_live_refusals, go_live_done};
ghost use Rattle.pair_record.specs.Kept.{Brings, brought_refusals, brought_done, ports_after_brought};
ghost use Rattle.pair_record.specs.Record.{IsAsBefore, owed_to, ports_after_live};
ghost use Rattle.pair_record.specs.Window.{IsWindow, committed_of};

use super::PairRecord;
use crate::event::{Refusal, Reply};
use crate::window::Window;
use failover::Mode;
use frame_list::FrameList;
use frame_ports::NUMBER_LIMIT;
use memory_wanted::MemoryWanted;
use output_gate::Gate;
use pair_history::{Frame, count_lists};

/// What the gate holds of committed checkpoints, where this is the window of those that it holds.
fn committed_frames(window: Window, gate: &Gate) -> &[Frame]
    requires { IsWindow window gate.now.epochs }
    ensures held { result.now ≡ frames_of (committed_of window gate.now.epochs) }
    ensures few { length result.now ≤ 2 ^ 58 }
{
    if window.to_acknowledge < window.to_commit {
        gate.held(window.to_commit - 1)
    } else {
        &[]
    }
}

impl PairRecord {
    /// The number of the last frame of a committed checkpoint; 0 where there is none.
    fn last_committed(&self) -> u64
        ensures last { result + 1 ≡ first_uncommitted self.now.protocol }
        ensures limit { result < number_limit }
    {
        let owed = committed_frames(self.window, &self.gate);
        self.gate.first() - 1 + owed.len() as u64
    }

    /// Why the backup can't go live, where it brings these frames, the first of which has the number `first`.
    pub fn go_live_refusal(&self, first: u64, kept: &[FrameList]) -> Option<Refusal>
        ensures refusal { result
            ≡ first_refusal (brought_refusals self.now.protocol self.now.ports first (map (λ v. v.items) kept.now)) }
        // And where these are the frames that the clients are owed.
        ensures owed { Brings self.now.protocol self.now.ports first (map (λ v. v.items) kept.now)
            → result ≡ first_refusal (go_live_refusals self.now.ports.boxes (owed_to self.now.protocol self.now.ports) self.now.protocol) }
    {
        if self.generation >= NUMBER_LIMIT - 1 {
            return Some(Refusal::Exhausted);
        }
        let end = self.last_committed() + 1;
        let landing = count_lists(&self.ports, first, end, kept);
        let dropped = self.journal.taken_in() + landing;
        if self.journal.history().len() + dropped >= NUMBER_LIMIT {
            Some(Refusal::Exhausted)
        } else {
            None
        }
    }

    /// The backup goes live from a guest that has made so many steps, and brings the frames of its last commits, the first of which has
    /// the number `first`: what was kept is discarded, with the frames that it took in, and of the backup's frames those land that haven't
    /// come yet, up to the last frame of a committed checkpoint. Where the backup brings what it should, these are the frames that the gate
    /// held of committed checkpoints.
    pub fn go_live(
        &mut self,
        steps: u64,
        first: u64,
        kept: &[FrameList],
    ) -> Result<Reply, MemoryWanted>
        requires free { first_refusal (brought_refusals self.old.protocol self.old.ports first (map (λ v. v.items) kept.now)) ≡ None }
        requires pair { is_alone self.old.protocol.mode ≡ false }
        requires frames { All (λ v. All IsFrame v.items) kept.now }
        ensures ok { IfOk result (λ reply. (reply, self.new.protocol)
            ≡ brought_done self.old.protocol self.old.ports first (map (λ v. v.items) kept.now) steps) }
        ensures ports { OnOk result (self.new.ports
            ≡ ports_after_brought self.old.ports self.old.protocol first (map (λ v. v.items) kept.now)) }
        // And where these are the frames that the clients are owed.
        ensures owed { IfOk result (λ reply. Brings self.old.protocol self.old.ports first (map (λ v. v.items) kept.now)
            → (reply, self.new.protocol)
            ≡ go_live_done self.old.ports.boxes (owed_to self.old.protocol self.old.ports) steps self.old.protocol) }
        ensures owed_ports { OnOk result (Brings self.old.protocol self.old.ports first (map (λ v. v.items) kept.now)
            → self.new.ports ≡ ports_after_live self.old.ports self.old.protocol) }
        ensures err { OnErr result (IsAsBefore self.old self.new) }
    {
        let sent = self.last_committed();
        let count = count_lists(&self.ports, first, sent + 1, kept);
        self.journal.go_live(count as usize)?;
        self.journal
            .land_kept(&mut self.ports, first, sent + 1, kept);
        self.gate.begin(sent);
        let number = self.window.to_commit;
        self.window = Window {
            to_cut: number,
            to_commit: number,
            to_acknowledge: number,
        };
        self.mode = Mode::Alone;
        self.generation += 1;
        Ok(Reply::Live {
            generation: self.generation,
            steps,
        })
    }
}
