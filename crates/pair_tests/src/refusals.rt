//! What a refusal is called: its number, its name, and its text, which is its name.

use crate::asserts::{holds, made};
use memory_wanted::{MemoryWanted, reserve};
use std::alloc::Global;
use std::fmt::Display;
use std::process::Abort;

/// A refused wish for memory.
pub(crate) fn refused(rt: &impl Abort, alloc: Global) -> MemoryWanted {
    match reserve(&mut Vec::<u64>::new(alloc), usize::MAX) {
        Ok(()) => panic!(rt; "no machine has that much"),
        Err(wanted) => wanted,
    }
}

/// It prints so.
pub(crate) fn assert_text(rt: &impl Abort, alloc: Global, it: &impl Display, wanted: &str) {
    let text = made(rt, format!(in alloc; "{it}"));
    holds(rt, "the text", text.as_str() == wanted);
}

/// The refusal, whose number and name were found to be these, has this number and this name.
pub(crate) fn assert_named(
    rt: &impl Abort,
    alloc: Global,
    refusal: &impl Display,
    found: (u8, &str),
    wanted: (u8, &str),
) {
    holds(rt, "the number", found.0 == wanted.0);
    holds(rt, "the name", found.1 == wanted.1);
    assert_text(rt, alloc, refusal, wanted.1);
}
