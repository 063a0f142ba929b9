//! What a word says.

use crate::{
    Condition, CsrOp, Division, Multiplication, Operation, Register, Width, WordOperation,
};

/// An instruction with its fields. An immediate is already sign extended to 64 bits.
#[derive(Clone, Copy)]
pub enum Instr {
    /// LUI: `imm` into `rd`.
    Lui {
        /// The register that is written.
        rd: Register,
        /// The value, whose low 12 bits are 0.
        imm: u64,
    },
    /// AUIPC: the place of the instruction, plus `imm`, into `rd`.
    Auipc {
        /// The register that is written.
        rd: Register,
        /// What is added, whose low 12 bits are 0.
        imm: u64,
    },
    /// JAL: a jump by `offset` from the instruction itself, with the next place in `rd`.
    Jal {
        /// The register that is written.
        rd: Register,
        /// The distance to the target, an even number.
        offset: u64,
    },
    /// JALR: a jump to `rs1 + offset` with bit 0 cleared, with the next place in `rd`.
    Jalr {
        /// The register that is written.
        rd: Register,
        /// The register with the base address.
        rs1: Register,
        /// What is added to the base.
        offset: u64,
    },
    /// A jump by `offset` from the instruction itself, where the condition holds of `rs1` and `rs2`.
    Branch {
        /// When it is taken.
        condition: Condition,
        /// The first register that is compared.
        rs1: Register,
        /// The second register that is compared.
        rs2: Register,
        /// The distance to the target, an even number.
        offset: u64,
    },
    /// A load from `rs1 + offset` into `rd`.
    Load {
        /// The register that is written.
        rd: Register,
        /// The register with the base address.
        rs1: Register,
        /// What is added to the base.
        offset: u64,
        /// How many bytes are read.
        width: Width,
        /// Whether the value is sign extended, and not filled with zeros. LD has it set, and does the same without.
        signed: bool,
    },
    /// A store of `rs2` at `rs1 + offset`.
    Store {
        /// The register with the base address.
        rs1: Register,
        /// The register whose low bytes are stored.
        rs2: Register,
        /// What is added to the base.
        offset: u64,
        /// How many bytes are written.
        width: Width,
    },
    /// An operation on `rs1` and `imm`, into `rd`.
    OpImm {
        /// The operation.
        op: Operation,
        /// The register that is written.
        rd: Register,
        /// The register with the first operand.
        rs1: Register,
        /// The second operand; of a shift, a number from 0 to 63.
        imm: u64,
    },
    /// An operation on `rs1` and `rs2`, into `rd`.
    Op {
        /// The operation.
        op: Operation,
        /// The register that is written.
        rd: Register,
        /// The register with the first operand.
        rs1: Register,
        /// The register with the second operand.
        rs2: Register,
    },
    /// SUB: `rs1 - rs2` into `rd`.
    Sub {
        /// The register that is written.
        rd: Register,
        /// The register with the first operand.
        rs1: Register,
        /// The register with the second operand.
        rs2: Register,
    },
    /// Half of the product of `rs1` and `rs2`, into `rd`.
    Mul {
        /// Which half, of what product.
        op: Multiplication,
        /// The register that is written.
        rd: Register,
        /// The register with the first operand.
        rs1: Register,
        /// The register with the second operand.
        rs2: Register,
    },
    /// The quotient or the remainder of `rs1` by `rs2`, into `rd`.
    Div {
        /// Which of them.
        op: Division,
        /// The register that is written.
        rd: Register,
        /// The register with the dividend.
        rs1: Register,
        /// The register with the divisor.
        rs2: Register,
    },
    /// An operation on the low 32 bits of `rs1` and `imm`, into `rd`.
    OpImmWord {
        /// The operation.
        op: WordOperation,
        /// The register that is written.
        rd: Register,
        /// The register with the first operand.
        rs1: Register,
        /// The second operand; of a shift, a number from 0 to 31.
        imm: u64,
    },
    /// An operation on the low 32 bits of `rs1` and `rs2`, into `rd`.
    OpWord {
        /// The operation.
        op: WordOperation,
        /// The register that is written.
        rd: Register,
        /// The register with the first operand.
        rs1: Register,
        /// The register with the second operand.
        rs2: Register,
    },
    /// SUBW: the low 32 bits of `rs1 - rs2`, sign extended, into `rd`.
    SubWord {
        /// The register that is written.
        rd: Register,
        /// The register with the first operand.
        rs1: Register,
        /// The register with the second operand.
        rs2: Register,
    },
    /// MULW: the low 32 bits of the product of `rs1` and `rs2`, sign extended, into `rd`.
    MulWord {
        /// The register that is written.
        rd: Register,
        /// The register with the first operand.
        rs1: Register,
        /// The register with the second operand.
        rs2: Register,
    },
    /// The quotient or the remainder of the low 32 bits of `rs1` by those of `rs2`, sign extended, into `rd`.
    DivWord {
        /// Which of them.
        op: Division,
        /// The register that is written.
        rd: Register,
        /// The register with the dividend.
        rs1: Register,
        /// The register with the divisor.
        rs2: Register,
    },
    /// FENCE, which does nothing here. Its fields are kept, and not looked at.
    Fence {
        /// Bits 11:7.
        rd: Register,
        /// Bits 19:15.
        rs1: Register,
        /// Bits 31:20: the mode, the predecessor and the successor set.
        ordering: u16,
    },
    /// An access to a control and status register, whose old value goes into `rd`, with a register as its operand.
    Csr {
        /// What is written.
        op: CsrOp,
        /// The register that is written.
        rd: Register,
        /// The register with the operand.
        rs1: Register,
        /// The number of the control and status register, below 4096.
        csr: u16,
    },
    /// The same with a number as its operand.
    CsrImm {
        /// What is written.
        op: CsrOp,
        /// The register that is written.
        rd: Register,
        /// The operand, from 0 to 31.
        imm: u64,
        /// The number of the control and status register, below 4096.
        csr: u16,
    },
    /// ECALL: an exception that calls the machine.
    Ecall,
    /// EBREAK: the exception of a breakpoint.
    Ebreak,
    /// MRET: the return from a trap.
    Mret,
    /// WFI, which does nothing here.
    Wfi,
}
