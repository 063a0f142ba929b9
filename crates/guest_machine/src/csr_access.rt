//! Instructions that read and write the control and status registers (CSRs).
ghost use Rattle.std.specs.Prelude.{◌≡◌, List, ℕ};
ghost use Rattle.guest_machine.specs.Parts.{guest_of};
ghost use Rattle.guest_rules.specs.Step.{quiet, csr_value, combined, csr_accessed};

use crate::devices::Devices;
use crate::hart::Hart;
use crate::interrupts::pending;
use mtraps::numbers::MIP;
use rv64_core::{CsrOp, Register};

/// The cause of an illegal instruction (the Privileged ISA, mcause).
pub(crate) const ILLEGAL_INSTRUCTION: u64 = 2;

/// What a CSR reads, or `None` where there is none of this number. The pending interrupts are the machine's.
fn read_csr(hart: &Hart, devices: &Devices, number: u16) -> Option<u64>
    ensures { (ram : List ℕ) → result ≡ csr_value (guest_of hart.now ram devices.now) number }
{
    if number == MIP {
        Some(pending(hart, devices))
    } else {
        hart.csrs.read(number)
    }
}

/// What an access writes over the old value.
pub(crate) fn combine(op: CsrOp, old: u64, operand: u64) -> u64
    ensures { result ≡ combined op old operand }
{
    match op {
        CsrOp::Write => operand,
        CsrOp::Set => old | operand,
        CsrOp::Clear => old & !operand,
    }
}

/// An access to a CSR by the instruction that is `word`: the old value into a register, and the new value into the CSR
/// where it `writes`. An access to none, and a write to a read-only one, are the exception of an illegal instruction.
pub(crate) fn access_csr(
    hart: &mut Hart,
    devices: &Devices,
    word: u32,
    rd: Register,
    number: u16,
    op: CsrOp,
    operand: u64,
    writes: bool,
)
    ensures { (ram : List ℕ) → csr_accessed (guest_of hart.old ram devices.now) word rd number op operand writes
        (csr_value (guest_of hart.old ram devices.now) number)
        ≡ quiet (guest_of hart.new ram devices.now) }
{
    let Some(old) = read_csr(hart, devices, number) else {
        hart.trap(ILLEGAL_INSTRUCTION, u64::from(word));
        return;
    };
    if writes {
        let value = combine(op, old, operand);
        if hart.csrs.write(number, value).is_none() {
            hart.trap(ILLEGAL_INSTRUCTION, u64::from(word));
            return;
        }
    }
    hart.regs.set(rd, old);
    hart.pass();
}
