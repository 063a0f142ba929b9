//! One step of the guest.
ghost use Rattle.std.specs.Prelude.{◌≡◌, ◌+◌, ◌≤◌, ◌++◌, length};
ghost use Rattle.rv64_core.specs.Rows.{decoded};
ghost use Rattle.guest_rules.specs.Flags.{KeepsFlags};
ghost use Rattle.guest_machine.specs.Parts.{guest_of};
ghost use Rattle.guest_rules.specs.Step.{planned, carried_out, instruction_done, next, sent, marked};

use crate::csr_access::{ILLEGAL_INSTRUCTION, access_csr};
use crate::devices::Devices;
use crate::hart::Hart;
use crate::interrupts::due;
use crate::loads::load;
use crate::places::{in_ram, ram_place};
use crate::ram::Ram;
use crate::stores::store;
use net_device::Outbox;
use rv64_core::{Plan, Regs, decode, plan};

/// The cause of a pc outside memory (the Privileged ISA, mcause).
const INSTRUCTION_ACCESS_FAULT: u64 = 1;

/// The bytes of an instruction.
const INSTRUCTION_BYTES: u64 = 4;

/// One step: the interrupt that is due, or else the instruction at the pc, and then the step count. Sent frames go last into the
/// outbox.
#[inline]
#[tactic(auto, unfolding(guest_rules::specs::Step::step_done, guest_rules::specs::Step::next, guest_rules::specs::Step::sent, guest_rules::specs::Step::marked))]
pub(crate) fn run_step(hart: &mut Hart, ram: &mut Ram, devices: &mut Devices, outbox: &mut Outbox)
    requires room { length outbox.old + 64 ≤ 256 }
    ensures guest { guest_of hart.new ram.new.memory.bytes devices.new ≡ next (guest_of hart.old ram.old.memory.bytes devices.old) }
    ensures frames { outbox.new ≡ outbox.old ++ sent (guest_of hart.old ram.old.memory.bytes devices.old) }
    ensures list { devices.new.contents.dirty ≡ marked (guest_of hart.old ram.old.memory.bytes devices.old) devices.old.contents.dirty }
    ensures settled { ram.new.memory.settled ≡ ram.old.memory.settled }
    ensures flags { KeepsFlags ram.old.memory.written ram.new.memory.written }
{
    match due(hart, devices) {
        Some(cause) => hart.trap(cause, 0),
        None => run_instruction(hart, ram, devices, outbox),
    }
    hart.steps = hart.steps.wrapping_add(1);
}

/// The instruction at the pc, or its exception.
#[inline]
#[tactic(auto, unfolding(guest_rules::specs::Step::instruction_done, guest_rules::specs::Step::carried_out))]
fn run_instruction(hart: &mut Hart, ram: &mut Ram, devices: &mut Devices, outbox: &mut Outbox)
    requires room { length outbox.old + 64 ≤ 256 }
    ensures guest { guest_of hart.new ram.new.memory.bytes devices.new ≡
        (instruction_done (guest_of hart.old ram.old.memory.bytes devices.old)).guest }
    ensures frames { outbox.new ≡ outbox.old ++ (instruction_done (guest_of hart.old ram.old.memory.bytes devices.old)).frames }
    ensures list { devices.new.contents.dirty ≡ (instruction_done (guest_of hart.old ram.old.memory.bytes devices.old)).marks
        devices.old.contents.dirty }
    ensures settled { ram.new.memory.settled ≡ ram.old.memory.settled }
    ensures flags { KeepsFlags ram.old.memory.written ram.new.memory.written }
{
    if !in_ram(ram.memory.size(), hart.pc, INSTRUCTION_BYTES) {
        hart.trap(INSTRUCTION_ACCESS_FAULT, hart.pc);
        return;
    }
    let word = ram.memory.read_u32(ram_place(hart.pc));
    let plan = plan_word(&hart.regs, hart.pc, word);
    // The commonest plan is told from the others here, so that the compiler leads it past the choice among them.
    if let Plan::Next { pc, rd, value } = plan {
        hart.regs.set(rd, value);
        hart.pc = pc;
    } else {
        carry_out(hart, ram, devices, outbox, word, plan);
    }
}

/// What a word says to do; one that is no instruction is an exception.
#[inline]
pub(crate) fn plan_word(regs: &Regs, pc: u64, word: u32) -> Plan
    ensures { result ≡ planned regs.now pc word (decoded word) }
{
    match decode(word) {
        Some(instr) => plan(regs, pc, instr),
        None => Plan::Trap {
            cause: ILLEGAL_INSTRUCTION,
            value: u64::from(word),
        },
    }
}

/// Does what the plan of the instruction `word` says.
#[inline]
#[tactic(auto, unfolding(guest_rules::specs::Step::carried_out))]
fn carry_out(
    hart: &mut Hart,
    ram: &mut Ram,
    devices: &mut Devices,
    outbox: &mut Outbox,
    word: u32,
    plan: Plan,
)
    requires room { length outbox.old + 64 ≤ 256 }
    ensures guest { guest_of hart.new ram.new.memory.bytes devices.new ≡
        (carried_out (guest_of hart.old ram.old.memory.bytes devices.old) word plan).guest }
    ensures frames { outbox.new ≡ outbox.old ++ (carried_out (guest_of hart.old ram.old.memory.bytes devices.old) word plan).frames }
    ensures list { devices.new.contents.dirty ≡ (carried_out (guest_of hart.old ram.old.memory.bytes devices.old) word plan).marks
        devices.old.contents.dirty }
    ensures settled { ram.new.memory.settled ≡ ram.old.memory.settled }
    ensures flags { KeepsFlags ram.old.memory.written ram.new.memory.written }
{
    match plan {
        Plan::Next { pc, rd, value } => {
            hart.regs.set(rd, value);
            hart.pc = pc;
        }
        Plan::Load {
            rd,
            address,
            width,
            signed,
        } => load(hart, ram, devices, rd, address, width, signed),
        Plan::Store {
            address,
            width,
            value,
        } => store(hart, ram, devices, outbox, address, width, value),
        Plan::Csr {
            rd,
            csr,
            op,
            operand,
            writes,
        } => access_csr(hart, devices, word, rd, csr, op, operand, writes),
        Plan::Trap { cause, value } => hart.trap(cause, value),
        Plan::Mret => hart.pc = hart.csrs.mret(),
    }
}
