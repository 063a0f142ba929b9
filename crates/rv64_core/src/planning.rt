//! The meaning of each instruction.

ghost use Rattle.std.specs.Prelude.{◌≡◌, ◌%◌};
ghost use Rattle.rv64_core.specs.Meaning.{plan_of, jumped, written, accessed, GoesOnAligned};

use crate::arithmetic::{
    divide, divide_word, is_taken, multiply, multiply_word, operate, operate_word, subtract_word,
};
use crate::{CsrOp, Instr, Plan, Register, Regs};

/// The exception of a jump to a target that isn't a multiple of 4.
const MISALIGNED_TARGET: u64 = 0;
/// The exception of EBREAK.
const BREAKPOINT: u64 = 3;
/// The exception of ECALL in machine mode.
const MACHINE_CALL: u64 = 11;

/// What `instr` does at the place `pc`, with the registers `regs`. The place where it goes on is a multiple of 4 if `pc` is.
#[inline]
pub fn plan(regs: &Regs, pc: u64, instr: Instr) -> Plan
    ensures value { result ≡ plan_of regs.now pc instr }
    ensures aligned { pc % 4 ≡ 0 → GoesOnAligned result }
{
    by_instruction(regs, pc, instr)
}

/// What `instr` does, by its kind.
#[inline]
#[tactic(auto, unfolding(crate::specs::Meaning::plan_of))]
fn by_instruction(regs: &Regs, pc: u64, instr: Instr) -> Plan
    ensures { result ≡ plan_of regs.now pc instr }
{
    match instr {
        Instr::Lui { rd, imm } => write(pc, rd, imm),
        Instr::Auipc { rd, imm } => write(pc, rd, pc.wrapping_add(imm)),
        Instr::Jal { rd, offset } => jump(rd, pc.wrapping_add(offset), pc.wrapping_add(4)),
        Instr::Jalr { rd, rs1, offset } => {
            let sum = regs.get(rs1).wrapping_add(offset);
            jump(rd, sum - sum % 2, pc.wrapping_add(4))
        }
        Instr::Branch {
            condition,
            rs1,
            rs2,
            offset,
        } => {
            if is_taken(condition, regs.get(rs1), regs.get(rs2)) {
                jump(Register::zero(), pc.wrapping_add(offset), 0)
            } else {
                write(pc, Register::zero(), 0)
            }
        }
        Instr::Load {
            rd,
            rs1,
            offset,
            width,
            signed,
        } => Plan::Load {
            rd,
            address: regs.get(rs1).wrapping_add(offset),
            width,
            signed,
        },
        Instr::Store {
            rs1,
            rs2,
            offset,
            width,
        } => Plan::Store {
            address: regs.get(rs1).wrapping_add(offset),
            width,
            value: regs.get(rs2),
        },
        Instr::OpImm { op, rd, rs1, imm } => write(pc, rd, operate(op, regs.get(rs1), imm)),
        Instr::Op { op, rd, rs1, rs2 } => write(pc, rd, operate(op, regs.get(rs1), regs.get(rs2))),
        Instr::Sub { rd, rs1, rs2 } => write(pc, rd, regs.get(rs1).wrapping_sub(regs.get(rs2))),
        Instr::Mul { op, rd, rs1, rs2 } => write(
            pc,
            rd,
            multiply(op, regs.get(rs1), regs.get(rs2)),
        ),
        Instr::Div { op, rd, rs1, rs2 } => write(pc, rd, divide(op, regs.get(rs1), regs.get(rs2))),
        Instr::OpImmWord { op, rd, rs1, imm } => write(
            pc,
            rd,
            operate_word(op, regs.get(rs1), imm),
        ),
        Instr::OpWord { op, rd, rs1, rs2 } => write(
            pc,
            rd,
            operate_word(op, regs.get(rs1), regs.get(rs2)),
        ),
        Instr::SubWord { rd, rs1, rs2 } => write(
            pc,
            rd,
            subtract_word(regs.get(rs1), regs.get(rs2)),
        ),
        Instr::MulWord { rd, rs1, rs2 } => write(
            pc,
            rd,
            multiply_word(regs.get(rs1), regs.get(rs2)),
        ),
        Instr::DivWord { op, rd, rs1, rs2 } => write(
            pc,
            rd,
            divide_word(op, regs.get(rs1), regs.get(rs2)),
        ),
        Instr::Csr { op, rd, rs1, csr } => access(
            op,
            rd,
            csr,
            regs.get(rs1),
            u64::from(rs1.number()),
        ),
        Instr::CsrImm { op, rd, imm, csr } => access(op, rd, csr, imm, imm),
        Instr::Ecall => Plan::Trap {
            cause: MACHINE_CALL,
            value: 0,
        },
        Instr::Ebreak => Plan::Trap {
            cause: BREAKPOINT,
            value: pc,
        },
        Instr::Mret => Plan::Mret,
        Instr::Fence { .. } | Instr::Wfi => write(pc, Register::zero(), 0),
    }
}

/// A write of `value` to `rd` that goes on at the word behind this one.
#[inline]
pub(crate) fn write(pc: u64, rd: Register, value: u64) -> Plan
    ensures { result ≡ written pc rd value }
{
    Plan::Next {
        pc: pc.wrapping_add(4),
        rd,
        value,
    }
}

/// A jump to `target` that leaves `link` in `rd`, or the exception of a misaligned target, which writes no register.
#[inline]
pub(crate) fn jump(rd: Register, target: u64, link: u64) -> Plan
    ensures { result ≡ jumped rd target link }
{
    if target % 4 == 0 {
        Plan::Next {
            pc: target,
            rd,
            value: link,
        }
    } else {
        Plan::Trap {
            cause: MISALIGNED_TARGET,
            value: target,
        }
    }
}

/// An access to a control and status register. What sets or clears bits writes only where `named`, the number of its
/// register or the number itself, isn't 0.
#[inline]
fn access(op: CsrOp, rd: Register, csr: u16, operand: u64, named: u64) -> Plan
    ensures { result ≡ accessed op rd csr operand named }
{
    Plan::Csr {
        rd,
        csr,
        op,
        operand,
        writes: op == CsrOp::Write || named != 0,
    }
}
