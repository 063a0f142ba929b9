//! The runner's thread.

use crate::pace::UntilStopped;
use crate::signals::Signals;
use hypervisor::{Pair, Refusal, Runner};
use std::sync::Wait;
use std::thread;

/// What the runner's thread has. The runner stands in a box.
#[derive(Drop)]
pub(crate) struct Running<P: Pair> {
    pub(crate) runner: Box<Runner<P>>,
    pub(crate) epochs: u64,
    pub(crate) steps: u64,
    pub(crate) pace: UntilStopped,
}

/// Runs so many epochs of at most so many steps, at this pace, and submits each. Where one can't be, the run is to end.
pub(crate) fn run_epochs<P: Pair, R: Wait>(rt: &R, mut running: Running<P>) {
    for _ in 0..running.epochs {
        if !run_epoch(
            rt,
            running.runner.as_mut(),
            running.steps,
            &mut running.pace,
        ) {
            running.pace.signals.stop();
            break;
        }
    }
    running.pace.signals.end_runner();
}

/// Runs one epoch and submits it. Answers whether it was submitted.
fn run_epoch<P: Pair, R: Wait>(
    rt: &R,
    runner: &mut Runner<P>,
    steps: u64,
    pace: &mut UntilStopped,
) -> bool {
    let _made = runner.run(steps, pace);
    if pace.signals.is_stopped() {
        return false;
    }
    prepare(rt, runner).is_ok() && submit(rt, runner, &pace.signals)
}

/// Prepares what the next submit wants.
///
/// # Errors
///
/// Those of [`Runner::ask`], and [`Refusal::NoMemory`] where the room for it can't be had.
fn prepare<P: Pair, R: Wait>(rt: &R, runner: &mut Runner<P>) -> Result<(), Refusal> {
    let want = runner.ask(rt)?;
    runner.prepare(want)?;
    Ok(())
}

/// Submits the epoch, and tries again where the backup is behind. Answers whether it was submitted. It is refused for something else
/// where there is no memory, where a number would reach 2^62, and where a node has failed, which nobody says here.
fn submit<P: Pair, R: Wait>(rt: &R, runner: &mut Runner<P>, signals: &Signals) -> bool {
    for _ in rt.forever() {
        match runner.submit(rt) {
            Ok(_handed_out) => return true,
            Err(Refusal::Behind) => {
                if signals.is_stopped() {
                    return false;
                }
                thread::yield_now();
            }
            Err(_) => return false,
        }
    }
    unreachable!()
}
