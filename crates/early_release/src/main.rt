//! Why 'nothing is made up' is too weak a contract for an output gate: two gates meet it, and one of them lets a
//! frame out before its checkpoint is acknowledged. Prints one script over each. docs/OUTPUT_COMMIT.md says more.
#![tactic(auto)]

mod acknowledged_gate;
mod gates;
mod script;
mod stand_in;
mod starting_gate;

use crate::gates::{HoldsUntilAcknowledged, LandsAtOnce};
use crate::script::run_script;
use output_gate::Gate;

fn main(rt: HostRuntime) -> anyhow::Result<()> {
    let mut right = HoldsUntilAcknowledged {
        gate: Gate::new(rt.alloc())?,
    };
    println!(rt; "# hold waits for the acknowledgement")?;
    run_script(&rt, rt.alloc(), &mut right)?;
    let mut early = LandsAtOnce {
        gate: Gate::new(rt.alloc())?,
    };
    println!(rt; "# hold lands at once")?;
    run_script(&rt, rt.alloc(), &mut early)
}
