//! The worked examples, run: each public call with values from outside.

mod disassembly;
mod kinds;
mod walk;

use crate::asserts::{holds, holds_of};
use rv64_core::{
    CsrOp, Division, Instr, Multiplication, Operation, Plan, Register, Regs, Width, WordOperation,
    decode, encode, plan,
};
use std::process::Abort;

/// The register of a number below 32.
fn x(number: u32) -> Register {
    Register::from_low_bits(number)
}

/// What an instruction on x1 and x2 puts into its register, or 0 for any other plan.
fn value(instr: Instr, a: u64, b: u64) -> u64 {
    let mut regs = Regs::new();
    regs.set(x(1), a);
    regs.set(x(2), b);
    match plan(&regs, 0x8000_0000, instr) {
        Plan::Next { value, .. } => value,
        _ => 0,
    }
}

/// A computation on x1 and x2.
#[derive(Clone, Copy)]
enum Computation {
    Divide(Division),
    DivideWord(Division),
    Multiply(Multiplication),
    /// x1 as a signed word, shifted right by 31 places.
    ShiftWord,
}

/// What puts a computation into x3.
fn into_x3(computation: Computation) -> Instr {
    let (rd, rs1, rs2) = (x(3), x(1), x(2));
    match computation {
        Computation::Divide(op) => Instr::Div { op, rd, rs1, rs2 },
        Computation::DivideWord(op) => Instr::DivWord { op, rd, rs1, rs2 },
        Computation::Multiply(op) => Instr::Mul { op, rd, rs1, rs2 },
        Computation::ShiftWord => Instr::OpImmWord {
            op: WordOperation::Sra,
            rd,
            rs1,
            imm: 31,
        },
    }
}

/// A word that says this instruction.
fn says(rt: &impl Abort, word: u32, instr: Instr) {
    assert_read(rt, word);
    assert_written(rt, word, instr);
}

/// A word is read as an instruction whose word it is. Which one, the walk compares.
fn assert_read(rt: &impl Abort, word: u32) {
    let same = match decode(word) {
        Some(instr) => encode(instr) == word,
        None => false,
    };
    holds_of(rt, word, same);
}

fn assert_written(rt: &impl Abort, word: u32, instr: Instr) {
    holds_of(rt, word, encode(instr) == word);
}

#[test]
fn words_are_read_and_written(rt: HostRuntime) {
    says_of_numbers(&rt);
    says_of_memory(&rt);
    says_of_the_system(&rt);
}

fn says_of_numbers(rt: &impl Abort) {
    let lui = Instr::Lui {
        rd: x(5),
        imm: 0x1000_1000,
    };
    says(rt, 0x1000_12b7, lui);
    let addi = Instr::OpImm {
        op: Operation::Add,
        rd: x(6),
        rs1: x(0),
        imm: 1,
    };
    says(rt, 0x0010_0313, addi);
    let sraiw = Instr::OpImmWord {
        op: WordOperation::Sra,
        rd: x(3),
        rs1: x(1),
        imm: 31,
    };
    says(rt, 0x41f0_d19b, sraiw);
}

fn says_of_memory(rt: &impl Abort) {
    let sw = Instr::Store {
        rs1: x(5),
        rs2: x(6),
        offset: 112,
        width: Width::Word,
    };
    says(rt, 0x0662_a823, sw);
    let lw = Instr::Load {
        rd: x(8),
        rs1: x(5),
        offset: 112,
        width: Width::Word,
        signed: true,
    };
    says(rt, 0x0702_a403, lw);
}

fn says_of_the_system(rt: &impl Abort) {
    let jal = Instr::Jal {
        rd: x(0),
        offset: 0,
    };
    says(rt, 0x0000_006f, jal);
    let csrrw = Instr::Csr {
        op: CsrOp::Write,
        rd: x(0),
        rs1: x(0),
        csr: 0xf14,
    };
    says(rt, 0xf140_1073, csrrw);
    says(rt, 0x3020_0073, Instr::Mret);
    says(rt, 0x1050_0073, Instr::Wfi);
}

fn assert_says_nothing(rt: &impl Abort, word: u32) {
    holds_of(rt, word, decode(word).is_none());
}

#[test]
fn other_words_say_nothing(rt: HostRuntime) {
    static WORDS: [u32; 6] = [
        0x0000_0000,
        0xffff_ffff,
        0x0000_100f,
        0x0200_101b,
        0x0000_7003,
        0x0000_4073,
    ];
    for word in &WORDS {
        assert_says_nothing(&rt, *word);
    }
}

/// The least number and the one with all bits set.
const LEAST: u64 = 0x8000_0000_0000_0000;

const ONES: u64 = 0xffff_ffff_ffff_ffff;

/// Computations of two numbers, and what each gives.
static CORNERS: [(Computation, u64, u64, u64); 12] = [
    (Computation::Divide(Division::Div), LEAST, ONES, LEAST),
    (Computation::Divide(Division::Rem), LEAST, ONES, 0),
    (Computation::Divide(Division::Div), 7, 0, ONES),
    (Computation::Divide(Division::Rem), 7, 0, 7),
    (Computation::Divide(Division::Divu), 7, 0, ONES),
    (Computation::Divide(Division::Remu), 7, 0, 7),
    (
        Computation::DivideWord(Division::Remu),
        0xffff_ffff,
        0,
        ONES,
    ),
    (
        Computation::DivideWord(Division::Div),
        0x8000_0000,
        ONES,
        0xffff_ffff_8000_0000,
    ),
    (Computation::DivideWord(Division::Rem), 0x8000_0000, ONES, 0),
    (
        Computation::Multiply(Multiplication::Mulhsu),
        ONES,
        ONES,
        ONES,
    ),
    (
        Computation::Multiply(Multiplication::Mulh),
        LEAST,
        LEAST,
        0x4000_0000_0000_0000,
    ),
    (Computation::ShiftWord, 0x8000_0000, 0, ONES),
];

fn assert_value(rt: &impl Abort, instr: Instr, a: u64, b: u64, wanted: u64) {
    holds(rt, "the value", value(instr, a, b) == wanted);
}

#[test]
fn arithmetic_at_its_corners(rt: HostRuntime) {
    for (computation, a, b, wanted) in &CORNERS {
        assert_value(&rt, into_x3(*computation), *a, *b, *wanted);
    }
}

/// What an instruction does where x1 is 0x80000001.
fn assert_plan(rt: &impl Abort, pc: u64, instr: Instr, wanted: Plan) {
    let mut regs = Regs::new();
    regs.set(x(1), 0x8000_0001);
    holds(rt, "the plan", plan(&regs, pc, instr) == wanted);
}

/// What a word does.
fn assert_word_plan(rt: &impl Abort, pc: u64, word: u32, wanted: Plan) {
    let instr = decode(word).expect(rt, "it is an instruction");
    assert_plan(rt, pc, instr, wanted);
}

/// A trap with this cause and value.
fn trap(cause: u64, value: u64) -> Plan {
    Plan::Trap { cause, value }
}

/// On to this pc, with a value in a register.
fn on(pc: u64, rd: Register, value: u64) -> Plan {
    Plan::Next { pc, rd, value }
}

#[test]
fn jumps_and_traps(rt: HostRuntime) {
    let jalr = Instr::Jalr {
        rd: x(5),
        rs1: x(1),
        offset: 0x100,
    };
    assert_plan(&rt, 0x8000_0000, jalr, on(0x8000_0100, x(5), 0x8000_0004));
    let stays = on(0x8000_0004, Register::zero(), 0);
    assert_word_plan(&rt, 0x8000_0000, 0x0000_1163, stays);
    assert_word_plan(&rt, 0x8000_0004, 0x0000_0163, trap(0, 0x8000_0006));
    assert_plan(&rt, 0x8000_0000, Instr::Ecall, trap(11, 0));
    assert_plan(&rt, 0x8000_0000, Instr::Ebreak, trap(3, 0x8000_0000));
}

/// A register by its number has this value.
fn assert_register(rt: &impl Abort, regs: &Regs, number: u32, value: u64) {
    holds(rt, "the register", regs.get(x(number)) == value);
}

/// Register numbers: 31 is one, 32 isn't, and of 37 the low bits are 5.
fn assert_numbers(rt: &impl Abort) {
    holds(rt, "31 is one", Register::new(31) == Some(x(31)));
    holds(rt, "32 is none", Register::new(32).is_none());
    holds(rt, "the low bits", x(37).number() == 5);
    holds(rt, "two bytes", Width::Half.bytes() == 2);
}

#[test]
fn registers_keep_their_values(rt: HostRuntime) {
    let mut regs = Regs::new();
    regs.set(x(0), 5);
    regs.set(x(31), 6);
    assert_register(&rt, &regs, 0, 0);
    assert_register(&rt, &regs, 31, 6);
    assert_numbers(&rt);
}
