//! The comparisons of the tests. Each is proved once here, so that a reading that is compared costs a call.

ghost use Rattle.std.specs.Prelude.{IsTrue};

use std::process::Abort;

/// It is so.
pub(crate) fn holds(rt: &impl Abort, what: &str, fact: bool)
    ensures { IsTrue fact }
{
    assert!(rt; fact, "{what}");
}

/// It is so of this word.
pub(crate) fn holds_of(rt: &impl Abort, word: u32, fact: bool) {
    assert!(rt; fact, "{word:08x}");
}

/// It is so in this line of a test.
pub(crate) fn holds_in(rt: &impl Abort, name: &str, line: usize, fact: bool) {
    assert!(rt; fact, "{name}: line {line}");
}

/// What was found in this line of a test is what was wanted.
pub(crate) fn same_in(rt: &impl Abort, name: &str, line: usize, found: u64, wanted: u64) {
    assert_eq!(rt; found, wanted, "{name}: line {line}");
}
