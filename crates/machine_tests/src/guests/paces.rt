//! Runs that a pace may hold.

use super::PROGRAM;
use super::play::{Part, booted};
use crate::asserts::holds;
use guest_machine::{Machine, Pace, Unpaced};
use std::process::Abort;

/// Holds the guest at one step.
#[derive(Drop)]
struct Until {
    step: u64,
}

impl Pace for Until {
    ghost use Rattle.std.specs.Prelude.{◌≡◌, nat_lt};
    ghost use Rattle.std.proofs.Common.{rules};

    ghost STRETCH = { 1 };

    ghost answers = { λ before made yes after. (yes ≡ nat_lt made before.step) × (after ≡ before) };

    const STRETCH: u64 = 1;

    fn go_on(&mut self, made: u64) -> bool {
        made < self.step
    }

    ghost some = { Prim.search rules };
}

/// A run of at most `count` steps makes so many at a pace.
fn assert_paced<P: Pace + Drop>(
    rt: &impl Abort,
    machine: &mut Machine,
    count: u64,
    mut pace: P,
    made: u64,
) {
    holds(
        rt,
        "the steps of a run",
        machine.run_paced(count, &mut pace) == made,
    );
}

/// So many steps were made.
fn assert_steps(rt: &impl Abort, machine: &Machine, steps: u64) {
    holds(rt, "all steps", machine.steps() == steps);
}

#[test]
fn a_pace_holds_the_guest(rt: HostRuntime) {
    // JAL x0, 0
    let mut machine = booted(&rt, rt.alloc(), &PROGRAM, &[Part::Word(0, 0x6f)]);
    assert_paced(&rt, &mut machine, 100, Until { step: 10 }, 10);
    assert_steps(&rt, &machine, 10);
    assert_paced(&rt, &mut machine, 100, Until { step: 0 }, 0);
    assert_paced(&rt, &mut machine, 5, Until { step: 10 }, 5);
    assert_paced(&rt, &mut machine, 1 << 40, Unpaced, 1 << 40);
    assert_steps(&rt, &machine, (1 << 40) + 15);
}
