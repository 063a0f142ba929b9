//! From a word to its instruction.

ghost use Rattle.std.specs.Prelude.{◌≡◌, IsTrue, Some, Contains, bit_and};
ghost use Rattle.rv64_core.specs.Formats as form;
ghost use Rattle.rv64_core.specs.Rows.{Row, table, fits, decoded};

use crate::fields::{
    b_immediate, csr_number, i_immediate, j_immediate, rd, rs1, rs2, s_immediate, shift_amount,
    u_immediate, word_shift_amount,
};
use crate::{Condition, CsrOp, Division, Instr, Multiplication, Operation, Width, WordOperation};

/// The bits of a word that name its group.
const OPCODE: u32 = 0x0000_007f;
/// The bits that tell the rows of a group apart.
const FUNCT3: u32 = 0x0000_7000;
/// The further bits that do so in the groups of three registers, and of shifts of 32 bits.
const FUNCT7: u32 = 0xfe00_0000;
/// The further bits that do so in shifts of 64 bits, whose amount has one bit more.
const FUNCT6: u32 = 0xfc00_0000;

/// The instruction that a word says, or `None` where no row of the table fits it. At most one does.
#[inline]
pub fn decode(word: u32) -> Option<Instr>
    ensures value { result ≡ decoded word }
    ensures any_row { (row : Row) → Contains table row → IsTrue (fits row word) → result ≡ Some (row.reads word) }
{
    by_opcode(word)
}

/// The instruction of a word, found by its opcode.
#[inline]
fn by_opcode(word: u32) -> Option<Instr>
    ensures { result ≡ decoded word }
{
    match word & OPCODE {
        0x37 => Some(Instr::Lui {
            rd: rd(word),
            imm: u_immediate(word),
        }),
        0x17 => Some(Instr::Auipc {
            rd: rd(word),
            imm: u_immediate(word),
        }),
        0x6f => Some(Instr::Jal {
            rd: rd(word),
            offset: j_immediate(word),
        }),
        0x67 => jalr(word),
        0x63 => branch(word),
        0x03 => load(word),
        0x23 => store(word),
        0x13 => op_imm(word),
        0x33 => op(word),
        0x1b => op_imm_word(word),
        0x3b => op_word(word),
        0x0f => misc_mem(word),
        0x73 => system(word),
        _ => None,
    }
}

/// JALR.
#[inline]
fn jalr(word: u32) -> Option<Instr>
    requires { bit_and word 0x7f ≡ 0x67 }
    ensures { result ≡ decoded word }
{
    match word & FUNCT3 {
        0x0000_0000 => Some(Instr::Jalr {
            rd: rd(word),
            rs1: rs1(word),
            offset: i_immediate(word),
        }),
        _ => None,
    }
}

/// The branches.
#[inline]
fn branch(word: u32) -> Option<Instr>
    requires { bit_and word 0x7f ≡ 0x63 }
    ensures { result ≡ decoded word }
{
    match word & FUNCT3 {
        0x0000_0000 => Some(branch_if(word, Condition::Eq)),
        0x0000_1000 => Some(branch_if(word, Condition::Ne)),
        0x0000_4000 => Some(branch_if(word, Condition::Lt)),
        0x0000_5000 => Some(branch_if(word, Condition::Ge)),
        0x0000_6000 => Some(branch_if(word, Condition::Ltu)),
        0x0000_7000 => Some(branch_if(word, Condition::Geu)),
        _ => None,
    }
}

/// The loads.
#[inline]
fn load(word: u32) -> Option<Instr>
    requires { bit_and word 0x7f ≡ 0x03 }
    ensures { result ≡ decoded word }
{
    match word & FUNCT3 {
        0x0000_0000 => Some(load_of(word, Width::Byte, true)),
        0x0000_1000 => Some(load_of(word, Width::Half, true)),
        0x0000_2000 => Some(load_of(word, Width::Word, true)),
        0x0000_3000 => Some(load_of(word, Width::Double, true)),
        0x0000_4000 => Some(load_of(word, Width::Byte, false)),
        0x0000_5000 => Some(load_of(word, Width::Half, false)),
        0x0000_6000 => Some(load_of(word, Width::Word, false)),
        _ => None,
    }
}

/// The stores.
#[inline]
fn store(word: u32) -> Option<Instr>
    requires { bit_and word 0x7f ≡ 0x23 }
    ensures { result ≡ decoded word }
{
    match word & FUNCT3 {
        0x0000_0000 => Some(store_of(word, Width::Byte)),
        0x0000_1000 => Some(store_of(word, Width::Half)),
        0x0000_2000 => Some(store_of(word, Width::Word)),
        0x0000_3000 => Some(store_of(word, Width::Double)),
        _ => None,
    }
}

/// Operations on a register and an immediate.
#[inline]
fn op_imm(word: u32) -> Option<Instr>
    requires { bit_and word 0x7f ≡ 0x13 }
    ensures { result ≡ decoded word }
{
    match word & FUNCT3 {
        0x0000_0000 => Some(op_imm_of(word, Operation::Add)),
        0x0000_1000 => match word & FUNCT6 {
            0x0000_0000 => Some(shift_imm_of(word, Operation::Sll)),
            _ => None,
        },
        0x0000_2000 => Some(op_imm_of(word, Operation::Slt)),
        0x0000_3000 => Some(op_imm_of(word, Operation::Sltu)),
        0x0000_4000 => Some(op_imm_of(word, Operation::Xor)),
        0x0000_5000 => match word & FUNCT6 {
            0x0000_0000 => Some(shift_imm_of(word, Operation::Srl)),
            0x4000_0000 => Some(shift_imm_of(word, Operation::Sra)),
            _ => None,
        },
        0x0000_6000 => Some(op_imm_of(word, Operation::Or)),
        _ => Some(op_imm_of(word, Operation::And)),
    }
}

/// Operations on two registers.
#[inline]
fn op(word: u32) -> Option<Instr>
    requires { bit_and word 0x7f ≡ 0x33 }
    ensures { result ≡ decoded word }
{
    match word & FUNCT7 {
        0x0000_0000 => match word & FUNCT3 {
            0x0000_0000 => Some(op_of(word, Operation::Add)),
            0x0000_1000 => Some(op_of(word, Operation::Sll)),
            0x0000_2000 => Some(op_of(word, Operation::Slt)),
            0x0000_3000 => Some(op_of(word, Operation::Sltu)),
            0x0000_4000 => Some(op_of(word, Operation::Xor)),
            0x0000_5000 => Some(op_of(word, Operation::Srl)),
            0x0000_6000 => Some(op_of(word, Operation::Or)),
            _ => Some(op_of(word, Operation::And)),
        },
        0x0200_0000 => match word & FUNCT3 {
            0x0000_0000 => Some(mul_of(word, Multiplication::Mul)),
            0x0000_1000 => Some(mul_of(word, Multiplication::Mulh)),
            0x0000_2000 => Some(mul_of(word, Multiplication::Mulhsu)),
            0x0000_3000 => Some(mul_of(word, Multiplication::Mulhu)),
            0x0000_4000 => Some(div_of(word, Division::Div)),
            0x0000_5000 => Some(div_of(word, Division::Divu)),
            0x0000_6000 => Some(div_of(word, Division::Rem)),
            _ => Some(div_of(word, Division::Remu)),
        },
        0x4000_0000 => match word & FUNCT3 {
            0x0000_0000 => Some(Instr::Sub {
                rd: rd(word),
                rs1: rs1(word),
                rs2: rs2(word),
            }),
            0x0000_5000 => Some(op_of(word, Operation::Sra)),
            _ => None,
        },
        _ => None,
    }
}

/// Operations on the low 32 bits of a register, and an immediate.
#[inline]
fn op_imm_word(word: u32) -> Option<Instr>
    requires { bit_and word 0x7f ≡ 0x1b }
    ensures { result ≡ decoded word }
{
    match word & FUNCT3 {
        0x0000_0000 => Some(Instr::OpImmWord {
            op: WordOperation::Add,
            rd: rd(word),
            rs1: rs1(word),
            imm: i_immediate(word),
        }),
        0x0000_1000 => match word & FUNCT7 {
            0x0000_0000 => Some(shift_imm_word_of(word, WordOperation::Sll)),
            _ => None,
        },
        0x0000_5000 => match word & FUNCT7 {
            0x0000_0000 => Some(shift_imm_word_of(word, WordOperation::Srl)),
            0x4000_0000 => Some(shift_imm_word_of(word, WordOperation::Sra)),
            _ => None,
        },
        _ => None,
    }
}

/// Operations on the low 32 bits of two registers.
#[inline]
fn op_word(word: u32) -> Option<Instr>
    requires { bit_and word 0x7f ≡ 0x3b }
    ensures { result ≡ decoded word }
{
    match word & FUNCT7 {
        0x0000_0000 => match word & FUNCT3 {
            0x0000_0000 => Some(op_word_of(word, WordOperation::Add)),
            0x0000_1000 => Some(op_word_of(word, WordOperation::Sll)),
            0x0000_5000 => Some(op_word_of(word, WordOperation::Srl)),
            _ => None,
        },
        0x0200_0000 => match word & FUNCT3 {
            0x0000_0000 => Some(Instr::MulWord {
                rd: rd(word),
                rs1: rs1(word),
                rs2: rs2(word),
            }),
            0x0000_4000 => Some(div_word_of(word, Division::Div)),
            0x0000_5000 => Some(div_word_of(word, Division::Divu)),
            0x0000_6000 => Some(div_word_of(word, Division::Rem)),
            0x0000_7000 => Some(div_word_of(word, Division::Remu)),
            _ => None,
        },
        0x4000_0000 => match word & FUNCT3 {
            0x0000_0000 => Some(Instr::SubWord {
                rd: rd(word),
                rs1: rs1(word),
                rs2: rs2(word),
            }),
            0x0000_5000 => Some(op_word_of(word, WordOperation::Sra)),
            _ => None,
        },
        _ => None,
    }
}

/// FENCE.
#[inline]
fn misc_mem(word: u32) -> Option<Instr>
    requires { bit_and word 0x7f ≡ 0x0f }
    ensures { result ≡ decoded word }
{
    match word & FUNCT3 {
        0x0000_0000 => Some(Instr::Fence {
            rd: rd(word),
            rs1: rs1(word),
            ordering: csr_number(word),
        }),
        _ => None,
    }
}

/// Accesses to control and status registers, and the words of machine mode.
#[inline]
fn system(word: u32) -> Option<Instr>
    requires { bit_and word 0x7f ≡ 0x73 }
    ensures { result ≡ decoded word }
{
    match word & FUNCT3 {
        0x0000_0000 => match word {
            0x0000_0073 => Some(Instr::Ecall),
            0x0010_0073 => Some(Instr::Ebreak),
            0x3020_0073 => Some(Instr::Mret),
            0x1050_0073 => Some(Instr::Wfi),
            _ => None,
        },
        0x0000_1000 => Some(csr_register_of(word, CsrOp::Write)),
        0x0000_2000 => Some(csr_register_of(word, CsrOp::Set)),
        0x0000_3000 => Some(csr_register_of(word, CsrOp::Clear)),
        0x0000_5000 => Some(csr_immediate_of(word, CsrOp::Write)),
        0x0000_6000 => Some(csr_immediate_of(word, CsrOp::Set)),
        0x0000_7000 => Some(csr_immediate_of(word, CsrOp::Clear)),
        _ => None,
    }
}

/// A branch.
#[inline]
fn branch_if(word: u32, condition: Condition) -> Instr
    ensures { result ≡ form.branch condition word }
{
    Instr::Branch {
        condition,
        rs1: rs1(word),
        rs2: rs2(word),
        offset: b_immediate(word),
    }
}

/// A load.
#[inline]
fn load_of(word: u32, width: Width, signed: bool) -> Instr
    ensures { result ≡ form.load width signed word }
{
    Instr::Load {
        rd: rd(word),
        rs1: rs1(word),
        offset: i_immediate(word),
        width,
        signed,
    }
}

/// A store.
#[inline]
fn store_of(word: u32, width: Width) -> Instr
    ensures { result ≡ form.store width word }
{
    Instr::Store {
        rs1: rs1(word),
        rs2: rs2(word),
        offset: s_immediate(word),
        width,
    }
}

/// An operation on a register and an immediate.
#[inline]
fn op_imm_of(word: u32, op: Operation) -> Instr
    ensures { result ≡ form.op_imm op word }
{
    Instr::OpImm {
        op,
        rd: rd(word),
        rs1: rs1(word),
        imm: i_immediate(word),
    }
}

/// A shift by an immediate.
#[inline]
fn shift_imm_of(word: u32, op: Operation) -> Instr
    ensures { result ≡ form.shift_imm op word }
{
    Instr::OpImm {
        op,
        rd: rd(word),
        rs1: rs1(word),
        imm: shift_amount(word),
    }
}

/// An operation on two registers.
#[inline]
fn op_of(word: u32, op: Operation) -> Instr
    ensures { result ≡ form.op op word }
{
    Instr::Op {
        op,
        rd: rd(word),
        rs1: rs1(word),
        rs2: rs2(word),
    }
}

/// A multiplication.
#[inline]
fn mul_of(word: u32, op: Multiplication) -> Instr
    ensures { result ≡ form.mul op word }
{
    Instr::Mul {
        op,
        rd: rd(word),
        rs1: rs1(word),
        rs2: rs2(word),
    }
}

/// A division.
#[inline]
fn div_of(word: u32, op: Division) -> Instr
    ensures { result ≡ form.div op word }
{
    Instr::Div {
        op,
        rd: rd(word),
        rs1: rs1(word),
        rs2: rs2(word),
    }
}

/// A shift of 32 bits by an immediate.
#[inline]
fn shift_imm_word_of(word: u32, op: WordOperation) -> Instr
    ensures { result ≡ form.shift_imm_word op word }
{
    Instr::OpImmWord {
        op,
        rd: rd(word),
        rs1: rs1(word),
        imm: word_shift_amount(word),
    }
}

/// An operation on the low 32 bits of two registers.
#[inline]
fn op_word_of(word: u32, op: WordOperation) -> Instr
    ensures { result ≡ form.op_word op word }
{
    Instr::OpWord {
        op,
        rd: rd(word),
        rs1: rs1(word),
        rs2: rs2(word),
    }
}

/// A division of the low 32 bits.
#[inline]
fn div_word_of(word: u32, op: Division) -> Instr
    ensures { result ≡ form.div_word op word }
{
    Instr::DivWord {
        op,
        rd: rd(word),
        rs1: rs1(word),
        rs2: rs2(word),
    }
}

/// An access with a register as its operand.
#[inline]
fn csr_register_of(word: u32, op: CsrOp) -> Instr
    ensures { result ≡ form.csr_register op word }
{
    Instr::Csr {
        op,
        rd: rd(word),
        rs1: rs1(word),
        csr: csr_number(word),
    }
}

/// An access with a number as its operand.
#[inline]
fn csr_immediate_of(word: u32, op: CsrOp) -> Instr
    ensures { result ≡ form.csr_immediate op word }
{
    Instr::CsrImm {
        op,
        rd: rd(word),
        imm: u64::from(rs1(word).number()),
        csr: csr_number(word),
    }
}
