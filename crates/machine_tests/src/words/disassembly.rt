//! Instructions as text: the mnemonic, and the operands as numbers.

use rv64_core::{
    Condition, CsrOp, Division, Instr, Multiplication, Operation, Register, Width, WordOperation,
};
use std::alloc::{AllocError, Global};

/// A name, a register, and a number.
fn one(alloc: Global, name: &str, rd: Register, number: i64) -> Result<String, AllocError> {
    format!(in alloc; "{name} {} {number}", rd.number())
}

/// A name, two registers, and a number.
fn two(
    alloc: Global,
    name: &str,
    first: Register,
    second: Register,
    number: u64,
) -> Result<String, AllocError> {
    format!(in alloc;
        "{name} {} {} {}",
        first.number(),
        second.number(),
        number.cast_signed()
    )
}

/// A name and three registers.
fn three(
    alloc: Global,
    name: &str,
    rd: Register,
    rs1: Register,
    rs2: Register,
) -> Result<String, AllocError> {
    format!(in alloc; "{name} {} {} {}", rd.number(), rs1.number(), rs2.number())
}

/// A name, a register, a CSR, and a register or a number.
fn csr_access(
    alloc: Global,
    name: &str,
    rd: Register,
    csr: u16,
    operand: u64,
) -> Result<String, AllocError> {
    format!(in alloc; "{name} {} {csr} {operand}", rd.number())
}

/// The 20 bits of an immediate that a word holds.
fn upper(imm: u64) -> i64 {
    (imm >> 12 & 0xf_ffff).cast_signed()
}

/// What an instruction says: registers and CSRs by their numbers, immediates as signed numbers, and of LUI and AUIPC the
/// 20 bits of the word. A load or a store names its base before the offset. Of FENCE there is only the mnemonic.
pub fn text(alloc: Global, instr: Instr) -> Result<String, AllocError> {
    match instr {
        Instr::Lui { rd, imm } => one(alloc, "lui", rd, upper(imm)),
        Instr::Auipc { rd, imm } => one(alloc, "auipc", rd, upper(imm)),
        Instr::Jal { rd, offset } => one(alloc, "jal", rd, offset.cast_signed()),
        Instr::Jalr { rd, rs1, offset } => two(alloc, "jalr", rd, rs1, offset),
        Instr::Branch {
            condition,
            rs1,
            rs2,
            offset,
        } => two(alloc, branch_name(condition), rs1, rs2, offset),
        Instr::Load {
            rd,
            rs1,
            offset,
            width,
            signed,
        } => two(alloc, load_name(width, signed), rd, rs1, offset),
        Instr::Store {
            rs1,
            rs2,
            offset,
            width,
        } => two(alloc, store_name(width), rs2, rs1, offset),
        Instr::OpImm { op, rd, rs1, imm } => two(alloc, op_imm_name(op), rd, rs1, imm),
        Instr::Op { op, rd, rs1, rs2 } => three(alloc, op_name(op), rd, rs1, rs2),
        Instr::Sub { rd, rs1, rs2 } => three(alloc, "sub", rd, rs1, rs2),
        Instr::Mul { op, rd, rs1, rs2 } => three(alloc, mul_name(op), rd, rs1, rs2),
        Instr::Div { op, rd, rs1, rs2 } => three(alloc, div_name(op), rd, rs1, rs2),
        Instr::OpImmWord { op, rd, rs1, imm } => two(alloc, op_imm_word_name(op), rd, rs1, imm),
        Instr::OpWord { op, rd, rs1, rs2 } => three(alloc, op_word_name(op), rd, rs1, rs2),
        Instr::SubWord { rd, rs1, rs2 } => three(alloc, "subw", rd, rs1, rs2),
        Instr::MulWord { rd, rs1, rs2 } => three(alloc, "mulw", rd, rs1, rs2),
        Instr::DivWord { op, rd, rs1, rs2 } => three(alloc, div_word_name(op), rd, rs1, rs2),
        Instr::Fence { .. } => String::from_str(alloc, "fence"),
        Instr::Csr { op, rd, rs1, csr } => csr_access(
            alloc,
            csr_name(op),
            rd,
            csr,
            rs1.number().into(),
        ),
        Instr::CsrImm { op, rd, imm, csr } => csr_access(alloc, csr_imm_name(op), rd, csr, imm),
        Instr::Ecall => String::from_str(alloc, "ecall"),
        Instr::Ebreak => String::from_str(alloc, "ebreak"),
        Instr::Mret => String::from_str(alloc, "mret"),
        Instr::Wfi => String::from_str(alloc, "wfi"),
    }
}

fn branch_name(condition: Condition) -> &'static str {
    match condition {
        Condition::Eq => "beq",
        Condition::Ne => "bne",
        Condition::Lt => "blt",
        Condition::Ge => "bge",
        Condition::Ltu => "bltu",
        Condition::Geu => "bgeu",
    }
}

fn load_name(width: Width, signed: bool) -> &'static str {
    match (width, signed) {
        (Width::Byte, true) => "lb",
        (Width::Half, true) => "lh",
        (Width::Word, true) => "lw",
        (Width::Double, _) => "ld",
        (Width::Byte, false) => "lbu",
        (Width::Half, false) => "lhu",
        (Width::Word, false) => "lwu",
    }
}

fn store_name(width: Width) -> &'static str {
    match width {
        Width::Byte => "sb",
        Width::Half => "sh",
        Width::Word => "sw",
        Width::Double => "sd",
    }
}

fn op_name(op: Operation) -> &'static str {
    match op {
        Operation::Add => "add",
        Operation::Sll => "sll",
        Operation::Slt => "slt",
        Operation::Sltu => "sltu",
        Operation::Xor => "xor",
        Operation::Srl => "srl",
        Operation::Sra => "sra",
        Operation::Or => "or",
        Operation::And => "and",
    }
}

fn op_imm_name(op: Operation) -> &'static str {
    match op {
        Operation::Add => "addi",
        Operation::Sll => "slli",
        Operation::Slt => "slti",
        Operation::Sltu => "sltiu",
        Operation::Xor => "xori",
        Operation::Srl => "srli",
        Operation::Sra => "srai",
        Operation::Or => "ori",
        Operation::And => "andi",
    }
}

fn mul_name(op: Multiplication) -> &'static str {
    match op {
        Multiplication::Mul => "mul",
        Multiplication::Mulh => "mulh",
        Multiplication::Mulhsu => "mulhsu",
        Multiplication::Mulhu => "mulhu",
    }
}

fn div_name(op: Division) -> &'static str {
    match op {
        Division::Div => "div",
        Division::Divu => "divu",
        Division::Rem => "rem",
        Division::Remu => "remu",
    }
}

fn div_word_name(op: Division) -> &'static str {
    match op {
        Division::Div => "divw",
        Division::Divu => "divuw",
        Division::Rem => "remw",
        Division::Remu => "remuw",
    }
}

fn op_imm_word_name(op: WordOperation) -> &'static str {
    match op {
        WordOperation::Add => "addiw",
        WordOperation::Sll => "slliw",
        WordOperation::Srl => "srliw",
        WordOperation::Sra => "sraiw",
    }
}

fn op_word_name(op: WordOperation) -> &'static str {
    match op {
        WordOperation::Add => "addw",
        WordOperation::Sll => "sllw",
        WordOperation::Srl => "srlw",
        WordOperation::Sra => "sraw",
    }
}

fn csr_name(op: CsrOp) -> &'static str {
    match op {
        CsrOp::Write => "csrrw",
        CsrOp::Set => "csrrs",
        CsrOp::Clear => "csrrc",
    }
}

fn csr_imm_name(op: CsrOp) -> &'static str {
    match op {
        CsrOp::Write => "csrrwi",
        CsrOp::Set => "csrrsi",
        CsrOp::Clear => "csrrci",
    }
}
