//! The script `boot 2 1 1 beacon`, `step 22`, `cut`, `take 1`, over any gate.
ghost use Rattle.std.specs.Prelude.{◌≡◌};
ghost use Rattle.output_gate.specs.Gate.{begun};

use crate::stand_in::Beacon;
use crate::starting_gate::StartingGate;
use frame_ports::Ports;
use output_gate::Frame;
use std::alloc::Global;

/// Runs the script and prints what each line prints.
pub(crate) fn run_script<G: StartingGate>(
    rt: &impl Print,
    alloc: Global,
    gate: &mut G,
) -> anyhow::Result<()>
    requires { G.held gate.old ≡ begun 0 }
{
    let mut ports = Ports::new(alloc, 1)?;
    let mut guest = Beacon { steps: 0 };
    println!(rt; "booted")?;
    for _ in 0..22 {
        guest.step();
    }
    let steps = guest.steps;
    println!(rt; "steps {steps}")?;
    let frames = [Beacon::frame()];
    let _ = gate.hold(1, &frames[..guest.sent()], &mut ports);
    println!(rt; "cut 1 1")?;
    match ports.take(1)? {
        Some(frame) => print_frame(rt, &frame),
        None => Ok(println!(rt; "none")?),
    }
}

/// Prints `frame` and its bytes in hexadecimal digits.
fn print_frame(rt: &impl Print, frame: &Frame) -> anyhow::Result<()> {
    print!(rt; "frame ")?;
    for byte in frame.as_slice() {
        print!(rt; "{byte:02x}")?;
    }
    println!(rt)?;
    Ok(())
}
