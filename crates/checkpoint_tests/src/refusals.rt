//! What a refusal is called: its number, its name, and its text, which is its name.

use crate::asserts::{holds, made};
use memory_wanted::{MemoryWanted, reserve};
use std::alloc::Global;
use std::fmt::Display;
use std::process::Abort;

/// A refused wish for memory.
pub(super) fn refused(rt: &impl Abort, alloc: Global) -> MemoryWanted {
    match reserve(&mut Vec::<u64>::new(alloc), usize::MAX) {
        Ok(()) => panic!(rt; "no machine has that much"),
        Err(wanted) => wanted,
    }
}

/// What was found is this number and this name.
pub(super) fn assert_called(rt: &impl Abort, found: (u32, &str), wanted: (u32, &str)) {
    holds(rt, "the number", found.0 == wanted.0);
    holds(rt, "the name", found.1 == wanted.1);
}

/// And so is the refusal's text.
pub(super) fn assert_named(
    rt: &impl Abort,
    alloc: Global,
    refusal: &impl Display,
    found: (u32, &str),
    wanted: (u32, &str),
) {
    assert_called(rt, found, wanted);
    let text = made(rt, format!(in alloc; "{refusal}"));
    holds(rt, "the text", text.as_str() == wanted.1);
}
