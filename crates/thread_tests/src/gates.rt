//! A gate where a guest is held at one of its steps until others have come to it.

use super::asserts::same;
use super::hands::{Hand, take_runner};
use super::holds::call_both;
use super::zombies::take_over;
use guest_machine::Pace;
use hypervisor::{Pair, Runner};
use std::alloc::{AllocError, Global};
use std::process::Abort;
use std::sync::atomic::Ordering::SeqCst;
use std::sync::atomic::{AtomicBool, AtomicU64};
use std::sync::{Arc, Wait};
use std::thread::{Threads, join};

/// How often who waits here looks before it gives up.
const MOST_TURNS: u64 = 1_000_000_000;

/// Whether the guest is held, and how many have come.
#[derive(Drop)]
pub(super) struct Gate {
    is_held: AtomicBool,
    come: AtomicU64,
}

impl Gate {
    /// The guest isn't held yet, and nobody has come.
    fn new() -> Gate {
        Gate {
            is_held: AtomicBool::new(false),
            come: AtomicU64::new(0),
        }
    }

    /// One more comes.
    pub(super) fn come(&self) {
        self.come.fetch_add(1, SeqCst);
    }

    /// Waits until the guest is held, for a bounded time. Says whether it is.
    pub(super) fn is_held(&self) -> bool {
        for _ in 0..MOST_TURNS {
            if self.is_held.load(SeqCst) {
                return true;
            }
        }
        false
    }

    /// Waits until so many have come, for a bounded time. Says whether they have.
    fn have_come(&self, count: u64) -> bool {
        for _ in 0..MOST_TURNS {
            if self.come.load(SeqCst) >= count {
                return true;
            }
        }
        false
    }
}

/// Holds the guest at this step until so many have come to the gate.
#[derive(Drop)]
struct HeldAt {
    step: u64,
    count: u64,
    gate: Arc<Gate>,
}

/// A gate, and the pace of a guest that is held there at this step until so many have come.
fn gate_at(alloc: Global, step: u64, count: u64) -> Result<(Arc<Gate>, HeldAt), AllocError> {
    let gate = Arc::new(alloc, Gate::new())?;
    let pace = HeldAt {
        step,
        count,
        gate: Arc::try_clone(&gate)?,
    };
    Ok((gate, pace))
}

impl Pace for HeldAt {
    ghost use Rattle.std.proofs.Common.{rules};

    ghost STRETCH = { 1 };

    ghost answers = { λ before made yes after. Unit {0} };

    const STRETCH: u64 = 1;

    fn go_on(&mut self, made: u64) -> bool {
        if made != self.step {
            return true;
        }
        self.gate.is_held.store(true, SeqCst);
        self.gate.have_come(self.count)
    }

    ghost some = { Prim.search rules };
}

/// The guest makes 22 steps, and is held at one of them. Then its checkpoint is made, for which was asked before.
fn run_held<P: Pair, R: Wait + Abort>(
    rt: &R,
    mut runner: Box<Runner<P>>,
    mut pace: HeldAt,
) -> Box<Runner<P>> {
    let want = runner.ask(rt).expect(rt, "what is wanted");
    same(rt, "steps", runner.run(22, &mut pace), 22);
    runner.prepare(want).expect(rt, "memory");
    runner
}

/// What is done while a guest is held.
#[derive(Clone, Copy)]
pub(super) enum Deed {
    /// The primary fails, and the backup goes live. See [`take_over`].
    TakeOver,
    /// Two clients call. See [`call_both`].
    CallBoth,
}

/// Does it.
fn act<P: Pair + Send + Sync, R: Threads + Wait + Abort + Sync>(
    rt: &R,
    gate: &Gate,
    hand: &mut Hand<P>,
    deed: Deed,
) {
    match deed {
        Deed::TakeOver => take_over(rt, gate, hand),
        Deed::CallBoth => call_both(rt, gate, hand),
    }
}

/// Does it in a thread, and runs the guest in another. Answers its runner.
fn act_meanwhile<P: Pair + Send + Sync, R: Threads + Wait + Abort + Sync>(
    rt: &R,
    runner: Box<Runner<P>>,
    pace: HeldAt,
    gate: &Gate,
    hand: &mut Hand<P>,
    deed: Deed,
) -> Box<Runner<P>> {
    let (runner, ()) = join(
        rt,
        || run_held(rt, runner, pace),
        || act(rt, gate, hand, deed),
    );
    runner
}

/// The guest is held at this step until so many have come to the gate, while this is done. Answers its runner.
pub(super) fn hold<P: Pair + Send + Sync, R: Threads + Wait + Abort + Sync>(
    rt: &R,
    alloc: Global,
    hand: &mut Hand<P>,
    (step, count): (u64, u64),
    deed: Deed,
) -> Box<Runner<P>> {
    let (gate, pace) = gate_at(alloc, step, count).expect(rt, "memory");
    let runner = take_runner(rt, alloc, hand);
    act_meanwhile(rt, runner, pace, &*gate, hand, deed)
}
