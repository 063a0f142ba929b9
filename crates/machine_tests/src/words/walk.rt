//! A walk over the opcode space: what each word says, compared with what binutils' objdump says of it.

use super::disassembly::text;
use super::kinds::{COMPUTATIONS, ILLEGAL, JUMPS, MEMORY, SYSTEM, UPPER};
use crate::asserts::{holds, holds_of};
use rv64_core::{Instr, decode, encode};
use std::alloc::Global;
use std::process::Abort;

/// The number that 8 hexadecimal digits spell.
fn word_of(rt: &impl Abort, digits: &str) -> u32 {
    u32::from_str_radix(digits, 16).ok().expect(rt, "a word")
}

/// An instruction says this text. The digits of its word name it.
fn assert_text(rt: &impl Abort, alloc: Global, instr: Instr, said: &str, digits: &str) {
    let text = text(alloc, instr).expect(rt, "memory for the text");
    assert!(rt; text.as_str() == said, "{digits} says {text}");
}

/// An instruction is written as this word.
fn assert_written(rt: &impl Abort, instr: Instr, word: u32) {
    holds_of(rt, word, encode(instr) == word);
}

/// What a line says of a word, by its digits: it is read so, and written again.
fn assert_says(rt: &impl Abort, alloc: Global, digits: &str, said: &str) {
    let word = word_of(rt, digits);
    let instr = decode(word).expect(rt, "an instruction");
    let again = instr;
    assert_written(rt, again, word);
    assert_text(rt, alloc, instr, said, digits);
}

/// All lines of a part. Answers how many there are.
fn assert_lines(rt: &impl Abort, alloc: Global, part: &str) -> u64 {
    let mut count = 0u64;
    for line in part.lines() {
        let (digits, said) = line.split_once(' ').expect(rt, "an instruction");
        assert_says(rt, alloc, digits, said);
        count = count.saturating_add(1);
    }
    count
}

#[test]
fn each_word_says_what_objdump_reads(rt: HostRuntime) {
    let mut count = 0u64;
    for part in [UPPER, JUMPS, MEMORY, COMPUTATIONS, SYSTEM] {
        count = count.saturating_add(assert_lines(&rt, rt.alloc(), part));
    }
    holds(&rt, "more than 800 words", count > 800);
}

/// A word, by its digits, is no instruction.
fn assert_illegal(rt: &impl Abort, digits: &str) {
    let word = word_of(rt, digits);
    holds(rt, digits, decode(word).is_none());
}

/// So are all words of a line. Answers how many there are.
fn assert_illegal_line(rt: &impl Abort, line: &str) -> u64 {
    let mut count = 0u64;
    for digits in line.split(' ') {
        assert_illegal(rt, digits);
        count = count.saturating_add(1);
    }
    count
}

#[test]
fn what_objdump_does_not_read_is_illegal(rt: HostRuntime) {
    let mut count = 0u64;
    for line in ILLEGAL.lines() {
        count = count.saturating_add(assert_illegal_line(&rt, line));
    }
    holds(&rt, "more than 3000 words", count > 3000);
}
