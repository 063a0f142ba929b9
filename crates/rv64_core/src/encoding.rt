//! From an instruction to its word.

ghost use Rattle.std.specs.Prelude.{◌≡◌, ◌+◌, ◌*◌, ◌<◌, ◌≤◌, ◌%◌, ◌^◌, ℕ, Some};
ghost use Rattle.rv64_core.specs.Rows.{decoded};
ghost use Rattle.rv64_core.specs.Encoding.{
  encoded,
  u_word,
  j_word,
  i_word,
  s_word,
  b_word,
  r_word,
  shift_word,
  word_shift_word,
  load_bits,
  store_bits,
  branch_bits,
  placed_op_imm,
  op_bits,
  mul_bits,
  div_bits,
  placed_op_imm_word,
  op_word_bits,
  div_word_bits,
  csr_bits,
  csr_imm_bits,
};

use crate::{
    Condition, CsrOp, Division, Instr, Multiplication, Operation, Register, Width, WordOperation,
};

/// The word of an instruction. Of a field that has more bits than the word has room for, the low ones are kept.
pub fn encode(instr: Instr) -> u32
    ensures value { result ≡ encoded instr }
    ensures inverse { (w : ℕ) → w < 2 ^ 32 → decoded w ≡ Some instr → result ≡ w }
{
    word_of(instr)
}

/// The word of an instruction, by its format.
#[tactic(auto, unfolding(crate::specs::Encoding::encoded))]
fn word_of(instr: Instr) -> u32
    ensures { result ≡ encoded instr }
{
    match instr {
        Instr::Lui { rd, imm } => u_type(0x0000_0037, rd, imm),
        Instr::Auipc { rd, imm } => u_type(0x0000_0017, rd, imm),
        Instr::Jal { rd, offset } => j_type(0x0000_006f, rd, offset),
        Instr::Jalr { rd, rs1, offset } => i_type(0x0000_0067, rd, rs1, offset),
        Instr::Branch {
            condition,
            rs1,
            rs2,
            offset,
        } => b_type(branch_bits(condition), rs1, rs2, offset),
        Instr::Load {
            rd,
            rs1,
            offset,
            width,
            signed,
        } => i_type(load_bits(width, signed), rd, rs1, offset),
        Instr::Store {
            rs1,
            rs2,
            offset,
            width,
        } => s_type(store_bits(width), rs1, rs2, offset),
        Instr::OpImm { op, rd, rs1, imm } => op_imm(op, rd, rs1, imm),
        Instr::Op { op, rd, rs1, rs2 } => r_type(op_bits(op), rd, rs1, rs2),
        Instr::Sub { rd, rs1, rs2 } => r_type(0x4000_0033, rd, rs1, rs2),
        Instr::Mul { op, rd, rs1, rs2 } => r_type(mul_bits(op), rd, rs1, rs2),
        Instr::Div { op, rd, rs1, rs2 } => r_type(div_bits(op), rd, rs1, rs2),
        Instr::OpImmWord { op, rd, rs1, imm } => op_imm_word(op, rd, rs1, imm),
        Instr::OpWord { op, rd, rs1, rs2 } => r_type(op_word_bits(op), rd, rs1, rs2),
        Instr::SubWord { rd, rs1, rs2 } => r_type(0x4000_003b, rd, rs1, rs2),
        Instr::MulWord { rd, rs1, rs2 } => r_type(0x0200_003b, rd, rs1, rs2),
        Instr::DivWord { op, rd, rs1, rs2 } => r_type(div_word_bits(op), rd, rs1, rs2),
        Instr::Fence { rd, rs1, ordering } => i_type(0x0000_000f, rd, rs1, u64::from(ordering)),
        Instr::Csr { op, rd, rs1, csr } => i_type(csr_bits(op), rd, rs1, u64::from(csr)),
        Instr::CsrImm { op, rd, imm, csr } => {
            let operand = Register::from_low_bits(low_bits(imm, 5));
            i_type(csr_imm_bits(op), rd, operand, u64::from(csr))
        }
        Instr::Ecall => 0x0000_0073,
        Instr::Ebreak => 0x0010_0073,
        Instr::Mret => 0x3020_0073,
        Instr::Wfi => 0x1050_0073,
    }
}

/// The fixed bits of a branch.
fn branch_bits(condition: Condition) -> u32
    ensures value { result ≡ branch_bits condition }
    ensures bound { result ≤ 0x707f }
{
    match condition {
        Condition::Eq => 0x0000_0063,
        Condition::Ne => 0x0000_1063,
        Condition::Lt => 0x0000_4063,
        Condition::Ge => 0x0000_5063,
        Condition::Ltu => 0x0000_6063,
        Condition::Geu => 0x0000_7063,
    }
}

/// The fixed bits of a load.
fn load_bits(width: Width, signed: bool) -> u32
    ensures value { result ≡ load_bits width signed }
    ensures bound { result ≤ 0x707f }
{
    match (width, signed) {
        (Width::Byte, true) => 0x0000_0003,
        (Width::Half, true) => 0x0000_1003,
        (Width::Word, true) => 0x0000_2003,
        (Width::Double, true) => 0x0000_3003,
        (Width::Byte, false) => 0x0000_4003,
        (Width::Half, false) => 0x0000_5003,
        (Width::Word, false) => 0x0000_6003,
        (Width::Double, false) => 0x0000_3003,
    }
}

/// The fixed bits of a store.
fn store_bits(width: Width) -> u32
    ensures value { result ≡ store_bits width }
    ensures bound { result ≤ 0x707f }
{
    match width {
        Width::Byte => 0x0000_0023,
        Width::Half => 0x0000_1023,
        Width::Word => 0x0000_2023,
        Width::Double => 0x0000_3023,
    }
}

/// The fixed bits of an operation on two registers.
fn op_bits(op: Operation) -> u32
    ensures value { result ≡ op_bits op }
    ensures bound { result ≤ 0x4200_707f }
{
    match op {
        Operation::Add => 0x0000_0033,
        Operation::Sll => 0x0000_1033,
        Operation::Slt => 0x0000_2033,
        Operation::Sltu => 0x0000_3033,
        Operation::Xor => 0x0000_4033,
        Operation::Srl => 0x0000_5033,
        Operation::Sra => 0x4000_5033,
        Operation::Or => 0x0000_6033,
        Operation::And => 0x0000_7033,
    }
}

/// The fixed bits of a multiplication.
fn mul_bits(op: Multiplication) -> u32
    ensures value { result ≡ mul_bits op }
    ensures bound { result ≤ 0x4200_707f }
{
    match op {
        Multiplication::Mul => 0x0200_0033,
        Multiplication::Mulh => 0x0200_1033,
        Multiplication::Mulhsu => 0x0200_2033,
        Multiplication::Mulhu => 0x0200_3033,
    }
}

/// The fixed bits of a division.
fn div_bits(op: Division) -> u32
    ensures value { result ≡ div_bits op }
    ensures bound { result ≤ 0x4200_707f }
{
    match op {
        Division::Div => 0x0200_4033,
        Division::Divu => 0x0200_5033,
        Division::Rem => 0x0200_6033,
        Division::Remu => 0x0200_7033,
    }
}

/// The fixed bits of an operation on the low 32 bits of two registers.
fn op_word_bits(op: WordOperation) -> u32
    ensures value { result ≡ op_word_bits op }
    ensures bound { result ≤ 0x4200_707f }
{
    match op {
        WordOperation::Add => 0x0000_003b,
        WordOperation::Sll => 0x0000_103b,
        WordOperation::Srl => 0x0000_503b,
        WordOperation::Sra => 0x4000_503b,
    }
}

/// The fixed bits of a division of the low 32 bits.
fn div_word_bits(op: Division) -> u32
    ensures value { result ≡ div_word_bits op }
    ensures bound { result ≤ 0x4200_707f }
{
    match op {
        Division::Div => 0x0200_403b,
        Division::Divu => 0x0200_503b,
        Division::Rem => 0x0200_603b,
        Division::Remu => 0x0200_703b,
    }
}

/// An operation on a register and an immediate.
fn op_imm(op: Operation, rd: Register, rs1: Register, imm: u64) -> u32
    ensures { result ≡ placed_op_imm op rd rs1 imm }
{
    match op {
        Operation::Add => i_type(0x0000_0013, rd, rs1, imm),
        Operation::Sll => shift_type(0x0000_1013, rd, rs1, imm),
        Operation::Slt => i_type(0x0000_2013, rd, rs1, imm),
        Operation::Sltu => i_type(0x0000_3013, rd, rs1, imm),
        Operation::Xor => i_type(0x0000_4013, rd, rs1, imm),
        Operation::Srl => shift_type(0x0000_5013, rd, rs1, imm),
        Operation::Sra => shift_type(0x4000_5013, rd, rs1, imm),
        Operation::Or => i_type(0x0000_6013, rd, rs1, imm),
        Operation::And => i_type(0x0000_7013, rd, rs1, imm),
    }
}

/// An operation on the low 32 bits of a register, and an immediate.
fn op_imm_word(op: WordOperation, rd: Register, rs1: Register, imm: u64) -> u32
    ensures { result ≡ placed_op_imm_word op rd rs1 imm }
{
    match op {
        WordOperation::Add => i_type(0x0000_001b, rd, rs1, imm),
        WordOperation::Sll => word_shift_type(0x0000_101b, rd, rs1, imm),
        WordOperation::Srl => word_shift_type(0x0000_501b, rd, rs1, imm),
        WordOperation::Sra => word_shift_type(0x4000_501b, rd, rs1, imm),
    }
}

/// The fixed bits of an access to a control and status register with a register as its operand.
fn csr_bits(op: CsrOp) -> u32
    ensures value { result ≡ csr_bits op }
    ensures bound { result ≤ 0x707f }
{
    match op {
        CsrOp::Write => 0x0000_1073,
        CsrOp::Set => 0x0000_2073,
        CsrOp::Clear => 0x0000_3073,
    }
}

/// The fixed bits of an access to a control and status register with a number as its operand.
fn csr_imm_bits(op: CsrOp) -> u32
    ensures value { result ≡ csr_imm_bits op }
    ensures bound { result ≤ 0x707f }
{
    match op {
        CsrOp::Write => 0x0000_5073,
        CsrOp::Set => 0x0000_6073,
        CsrOp::Clear => 0x0000_7073,
    }
}

/// A word with the fields of format U.
fn u_type(fixed: u32, rd: Register, imm: u64) -> u32
    requires { fixed ≤ 0x7f }
    ensures { result ≡ u_word fixed rd imm }
{
    fixed + (u32::from(rd.number()) << 7) + (low_bits(imm >> 12, 20) << 12)
}

/// A word with the fields of format J.
fn j_type(fixed: u32, rd: Register, imm: u64) -> u32
    requires { fixed ≤ 0x7f }
    ensures { result ≡ j_word fixed rd imm }
{
    fixed
        + (u32::from(rd.number()) << 7)
        + (low_bits(imm >> 12, 8) << 12)
        + (low_bits(imm >> 11, 1) << 20)
        + (low_bits(imm >> 1, 10) << 21)
        + (low_bits(imm >> 20, 1) << 31)
}

/// A word with the fields of format I.
fn i_type(fixed: u32, rd: Register, rs1: Register, imm: u64) -> u32
    requires { fixed ≤ 0x707f }
    ensures { result ≡ i_word fixed rd rs1 imm }
{
    fixed
        + (u32::from(rd.number()) << 7)
        + (u32::from(rs1.number()) << 15)
        + (low_bits(imm, 12) << 20)
}

/// A word with the fields of a shift by an immediate.
fn shift_type(fixed: u32, rd: Register, rs1: Register, amount: u64) -> u32
    requires { fixed ≤ 0x4000_707f }
    ensures { result ≡ shift_word fixed rd rs1 amount }
{
    fixed
        + (u32::from(rd.number()) << 7)
        + (u32::from(rs1.number()) << 15)
        + (low_bits(amount, 6) << 20)
}

/// A word with the fields of a shift of 32 bits by an immediate.
fn word_shift_type(fixed: u32, rd: Register, rs1: Register, amount: u64) -> u32
    requires { fixed ≤ 0x4000_707f }
    ensures { result ≡ word_shift_word fixed rd rs1 amount }
{
    fixed
        + (u32::from(rd.number()) << 7)
        + (u32::from(rs1.number()) << 15)
        + (low_bits(amount, 5) << 20)
}

/// A word with the fields of format S.
fn s_type(fixed: u32, rs1: Register, rs2: Register, imm: u64) -> u32
    requires { fixed ≤ 0x707f }
    ensures { result ≡ s_word fixed rs1 rs2 imm }
{
    fixed
        + (low_bits(imm, 5) << 7)
        + (u32::from(rs1.number()) << 15)
        + (u32::from(rs2.number()) << 20)
        + (low_bits(imm >> 5, 7) << 25)
}

/// A word with the fields of format B.
fn b_type(fixed: u32, rs1: Register, rs2: Register, imm: u64) -> u32
    requires { fixed ≤ 0x707f }
    ensures { result ≡ b_word fixed rs1 rs2 imm }
{
    fixed
        + (low_bits(imm >> 11, 1) << 7)
        + (low_bits(imm >> 1, 4) << 8)
        + (u32::from(rs1.number()) << 15)
        + (u32::from(rs2.number()) << 20)
        + (low_bits(imm >> 5, 6) << 25)
        + (low_bits(imm >> 12, 1) << 31)
}

/// A word with the fields of format R.
fn r_type(fixed: u32, rd: Register, rs1: Register, rs2: Register) -> u32
    requires { fixed ≤ 0x4200_707f }
    ensures { result ≡ r_word fixed rd rs1 rs2 }
{
    fixed
        + (u32::from(rd.number()) << 7)
        + (u32::from(rs1.number()) << 15)
        + (u32::from(rs2.number()) << 20)
}

/// The lowest `count` bits.
fn low_bits(value: u64, count: u32) -> u32
    requires { count < 32 }
    ensures value { result ≡ value % 2 ^ count }
    ensures bound { result < 2 ^ count }
{
    (value % (1 << count)) as u32
}
