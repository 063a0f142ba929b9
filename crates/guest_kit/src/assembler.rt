//! An assembler: each function gives the word of one instruction, by the names of the RISC-V assembly language.

ghost use Rattle.std.specs.Prelude.{◌≡◌, ◌-◌, ◌*◌, ◌<◌, ◌%◌, ◌^◌};
ghost use Rattle.rv64_core.specs.Encoding.{u_word, j_word, i_word, s_word, b_word, r_word, shift_word};
ghost use Rattle.guest_kit.specs.Registers.{register_number};

use rv64_core::{Condition, CsrOp, Instr, Operation, Register, Width, encode};

/// A register that the programs use.
#[derive(Clone, Copy)]
pub(crate) enum Reg {
    /// x0, which reads 0.
    X0 = 0,
    /// x5.
    X5 = 5,
    /// x6.
    X6 = 6,
    /// x7.
    X7 = 7,
    /// x8.
    X8 = 8,
    /// x9.
    X9 = 9,
    /// x10.
    X10 = 10,
    /// x11.
    X11 = 11,
    /// x12.
    X12 = 12,
    /// x13.
    X13 = 13,
    /// x14.
    X14 = 14,
    /// x15.
    X15 = 15,
}

/// Its number, as an instruction holds it.
fn register(reg: Reg) -> Register
    ensures { result ≡ register_number reg }
{
    Register::new(reg as u8).unwrap()
}

/// `lui`: `imm`, whose low 12 bits are 0, into `rd`.
#[tactic(auto, unfolding(rv64_core::specs::Encoding::encoded))]
pub(crate) fn lui(rd: Reg, imm: u64) -> u32
    ensures { result ≡ u_word 0x37 (register_number rd) imm }
{
    encode(Instr::Lui {
        rd: register(rd),
        imm,
    })
}

/// `auipc`: the address of the instruction, plus `imm`, whose low 12 bits are 0, into `rd`.
#[tactic(auto, unfolding(rv64_core::specs::Encoding::encoded))]
pub(crate) fn auipc(rd: Reg, imm: u64) -> u32
    ensures { result ≡ u_word 0x17 (register_number rd) imm }
{
    encode(Instr::Auipc {
        rd: register(rd),
        imm,
    })
}

/// `addi`: `rs1 + imm` into `rd`.
#[tactic(auto, unfolding(rv64_core::specs::Encoding::encoded))]
pub(crate) fn addi(rd: Reg, rs1: Reg, imm: u64) -> u32
    ensures { result ≡ i_word 0x13 (register_number rd) (register_number rs1) imm }
{
    encode(Instr::OpImm {
        op: Operation::Add,
        rd: register(rd),
        rs1: register(rs1),
        imm,
    })
}

/// `lw`: the 4 bytes at `rs1 + offset`, sign extended, into `rd`.
#[tactic(auto, unfolding(rv64_core::specs::Encoding::encoded))]
pub(crate) fn lw(rd: Reg, offset: u64, rs1: Reg) -> u32
    ensures { result ≡ i_word 0x2003 (register_number rd) (register_number rs1) offset }
{
    encode(Instr::Load {
        rd: register(rd),
        rs1: register(rs1),
        offset,
        width: Width::Word,
        signed: true,
    })
}

/// `sw`: the low 4 bytes of `rs2` to `rs1 + offset`.
#[tactic(auto, unfolding(rv64_core::specs::Encoding::encoded))]
pub(crate) fn sw(rs2: Reg, offset: u64, rs1: Reg) -> u32
    ensures { result ≡ s_word 0x2023 (register_number rs1) (register_number rs2) offset }
{
    encode(Instr::Store {
        rs1: register(rs1),
        rs2: register(rs2),
        offset,
        width: Width::Word,
    })
}

/// `jal`: a jump by `offset` from the instruction itself, with the address behind it in `rd`.
#[tactic(auto, unfolding(rv64_core::specs::Encoding::encoded))]
pub(crate) fn jal(rd: Reg, offset: u64) -> u32
    ensures { result ≡ j_word 0x6f (register_number rd) offset }
{
    encode(Instr::Jal {
        rd: register(rd),
        offset,
    })
}

/// `ld`: the 8 bytes at `rs1 + offset` into `rd`.
#[tactic(auto, unfolding(rv64_core::specs::Encoding::encoded))]
pub(crate) fn ld(rd: Reg, offset: u64, rs1: Reg) -> u32
    ensures { result ≡ i_word 0x3003 (register_number rd) (register_number rs1) offset }
{
    encode(Instr::Load {
        rd: register(rd),
        rs1: register(rs1),
        offset,
        width: Width::Double,
        signed: true,
    })
}

/// `sd`: the 8 bytes of `rs2` to `rs1 + offset`.
#[tactic(auto, unfolding(rv64_core::specs::Encoding::encoded))]
pub(crate) fn sd(rs2: Reg, offset: u64, rs1: Reg) -> u32
    ensures { result ≡ s_word 0x3023 (register_number rs1) (register_number rs2) offset }
{
    encode(Instr::Store {
        rs1: register(rs1),
        rs2: register(rs2),
        offset,
        width: Width::Double,
    })
}

/// `andi`: the bits that `rs1` and `imm` share into `rd`.
#[tactic(auto, unfolding(rv64_core::specs::Encoding::encoded))]
pub(crate) fn andi(rd: Reg, rs1: Reg, imm: u64) -> u32
    ensures { result ≡ i_word 0x7013 (register_number rd) (register_number rs1) imm }
{
    encode(Instr::OpImm {
        op: Operation::And,
        rd: register(rd),
        rs1: register(rs1),
        imm,
    })
}

/// `slli`: `rs1`, shifted left by `amount`, below 64, into `rd`.
#[tactic(auto, unfolding(rv64_core::specs::Encoding::encoded))]
pub(crate) fn slli(rd: Reg, rs1: Reg, amount: u64) -> u32
    ensures { result ≡ shift_word 0x1013 (register_number rd) (register_number rs1) amount }
{
    encode(Instr::OpImm {
        op: Operation::Sll,
        rd: register(rd),
        rs1: register(rs1),
        imm: amount,
    })
}

/// `srli`: `rs1`, shifted right by `amount`, below 64, with zeros from the left, into `rd`.
#[tactic(auto, unfolding(rv64_core::specs::Encoding::encoded))]
pub(crate) fn srli(rd: Reg, rs1: Reg, amount: u64) -> u32
    ensures { result ≡ shift_word 0x5013 (register_number rd) (register_number rs1) amount }
{
    encode(Instr::OpImm {
        op: Operation::Srl,
        rd: register(rd),
        rs1: register(rs1),
        imm: amount,
    })
}

/// `add`: `rs1 + rs2` into `rd`.
#[tactic(auto, unfolding(rv64_core::specs::Encoding::encoded))]
pub(crate) fn add(rd: Reg, rs1: Reg, rs2: Reg) -> u32
    ensures { result ≡ r_word 0x33 (register_number rd) (register_number rs1) (register_number rs2) }
{
    encode(Instr::Op {
        op: Operation::Add,
        rd: register(rd),
        rs1: register(rs1),
        rs2: register(rs2),
    })
}

/// `lhu`: the 2 bytes at `rs1 + offset`, with zeros from the left, into `rd`.
#[tactic(auto, unfolding(rv64_core::specs::Encoding::encoded))]
pub(crate) fn lhu(rd: Reg, offset: u64, rs1: Reg) -> u32
    ensures { result ≡ i_word 0x5003 (register_number rd) (register_number rs1) offset }
{
    encode(Instr::Load {
        rd: register(rd),
        rs1: register(rs1),
        offset,
        width: Width::Half,
        signed: false,
    })
}

/// `lwu`: the 4 bytes at `rs1 + offset`, with zeros from the left, into `rd`.
#[tactic(auto, unfolding(rv64_core::specs::Encoding::encoded))]
pub(crate) fn lwu(rd: Reg, offset: u64, rs1: Reg) -> u32
    ensures { result ≡ i_word 0x6003 (register_number rd) (register_number rs1) offset }
{
    encode(Instr::Load {
        rd: register(rd),
        rs1: register(rs1),
        offset,
        width: Width::Word,
        signed: false,
    })
}

/// `sh`: the low 2 bytes of `rs2` to `rs1 + offset`.
#[tactic(auto, unfolding(rv64_core::specs::Encoding::encoded))]
pub(crate) fn sh(rs2: Reg, offset: u64, rs1: Reg) -> u32
    ensures { result ≡ s_word 0x1023 (register_number rs1) (register_number rs2) offset }
{
    encode(Instr::Store {
        rs1: register(rs1),
        rs2: register(rs2),
        offset,
        width: Width::Half,
    })
}

/// `beq`: a jump by `offset` from the instruction itself, where `rs1` and `rs2` hold the same.
#[tactic(auto, unfolding(rv64_core::specs::Encoding::encoded))]
pub(crate) fn beq(rs1: Reg, rs2: Reg, offset: u64) -> u32
    ensures { result ≡ b_word 0x63 (register_number rs1) (register_number rs2) offset }
{
    encode(Instr::Branch {
        condition: Condition::Eq,
        rs1: register(rs1),
        rs2: register(rs2),
        offset,
    })
}

/// `bne`: a jump by `offset` from the instruction itself, where `rs1` and `rs2` don't hold the same.
#[tactic(auto, unfolding(rv64_core::specs::Encoding::encoded))]
pub(crate) fn bne(rs1: Reg, rs2: Reg, offset: u64) -> u32
    ensures { result ≡ b_word 0x1063 (register_number rs1) (register_number rs2) offset }
{
    encode(Instr::Branch {
        condition: Condition::Ne,
        rs1: register(rs1),
        rs2: register(rs2),
        offset,
    })
}

/// `fence`: what was loaded and stored before comes before what is loaded and stored after, for the devices too.
#[tactic(auto, unfolding(rv64_core::specs::Encoding::encoded))]
pub(crate) fn fence() -> u32
    ensures { result ≡ 0x0ff0000f }
{
    encode(Instr::Fence {
        rd: register(Reg::X0),
        rs1: register(Reg::X0),
        ordering: 0x0ff,
    })
}

/// The offset of a jump back over so many words.
pub(crate) fn back(words: u64) -> u64
    requires { words < 2 ^ 62 }
    ensures { result ≡ (2 ^ 64 - 4 * words) % 2 ^ 64 }
{
    0_u64.wrapping_sub(4 * words)
}

/// `csrrw`: `rs1` into a CSR, and what it held into `rd`.
#[tactic(auto, unfolding(rv64_core::specs::Encoding::encoded))]
pub(crate) fn csrrw(rd: Reg, csr: u16, rs1: Reg) -> u32
    ensures { result ≡ i_word 0x1073 (register_number rd) (register_number rs1) csr }
{
    encode(Instr::Csr {
        op: CsrOp::Write,
        rd: register(rd),
        rs1: register(rs1),
        csr,
    })
}

/// `csrrs`: the bits of `rs1` are set in a CSR, and what it held goes into `rd`.
#[tactic(auto, unfolding(rv64_core::specs::Encoding::encoded))]
pub(crate) fn csrrs(rd: Reg, csr: u16, rs1: Reg) -> u32
    ensures { result ≡ i_word 0x2073 (register_number rd) (register_number rs1) csr }
{
    encode(Instr::Csr {
        op: CsrOp::Set,
        rd: register(rd),
        rs1: register(rs1),
        csr,
    })
}

/// `csrrsi`: the bits of `bits`, of which there are 5, are set in a CSR, and what it held goes into `rd`.
#[tactic(auto, unfolding(rv64_core::specs::Encoding::encoded))]
pub(crate) fn csrrsi(rd: Reg, csr: u16, bits: u64) -> u32
    ensures { result ≡ i_word 0x6073 (register_number rd) (bits % 2 ^ 5) csr }
{
    encode(Instr::CsrImm {
        op: CsrOp::Set,
        rd: register(rd),
        imm: bits,
        csr,
    })
}

/// `mret`: the return from a trap.
#[tactic(auto, unfolding(rv64_core::specs::Encoding::encoded))]
pub(crate) fn mret() -> u32
    ensures { result ≡ 0x30200073 }
{
    encode(Instr::Mret)
}
