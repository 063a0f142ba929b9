//! Which interrupts are pending, and which of them is taken.
ghost use Rattle.std.specs.Prelude.{◌≡◌, ℕ, List};
ghost use Rattle.mtraps.specs.Interrupts.{due_interrupt};
ghost use Rattle.guest_machine.specs.Parts.{guest_of};
ghost use Rattle.guest_rules.specs.Pending.{mip};

use crate::devices::Devices;
use crate::hart::Hart;
use mtraps::interrupts::{EXTERNAL, SOFTWARE, TIMER};

/// The interrupts that are pending, as the CSR mip reads.
#[inline]
#[tactic(auto, unfolding(guest_rules::specs::Pending::mip))]
pub(crate) fn pending(hart: &Hart, devices: &Devices) -> u64
    ensures { (ram : List ℕ) → result ≡ mip (guest_of hart.now ram devices.now) }
{
    let software = if hart.msip { SOFTWARE } else { 0 };
    let timer = if hart.mtimecmp <= hart.steps {
        TIMER
    } else {
        0
    };
    let external = if devices.interrupts_wait() {
        EXTERNAL
    } else {
        0
    };
    software + timer + external
}

/// The cause of the interrupt that is taken now, where one is.
#[inline]
pub(crate) fn due(hart: &Hart, devices: &Devices) -> Option<u64>
    ensures { (ram : List ℕ) → result ≡ due_interrupt hart.now.csrs (mip (guest_of hart.now ram devices.now)) }
{
    // Most guests run with interrupts disabled most of the time.
    if hart.csrs.are_interrupts_enabled() {
        hart.csrs.pending(pending(hart, devices))
    } else {
        None
    }
}
