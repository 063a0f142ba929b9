//! The comparisons of the tests. Each is proved once here, so that a reading that is compared costs a call. What is refused ends a test,
//! since each function that hands a refusal on is slow to prove.

ghost use Rattle.std.specs.Prelude.{◌≡◌, IsTrue, Ok};

use std::process::Abort;

/// It is so.
pub(crate) fn holds(rt: &impl Abort, what: &str, fact: bool)
    ensures { IsTrue fact }
{
    assert!(rt; fact, "{what}");
}

/// It is so at this place, or of this number.
pub(crate) fn holds_at(rt: &impl Abort, what: &str, place: usize, fact: bool) {
    assert!(rt; fact, "{what} {place:#x}");
}

/// What was found at this place is what was wanted.
pub(crate) fn same_at(rt: &impl Abort, what: &str, place: usize, found: u64, wanted: u64) {
    assert_eq!(rt; found, wanted, "{what} {place:#x}");
}

/// What is answered where nothing is refused.
pub(crate) fn made<T: Drop, E: Drop>(rt: &impl Abort, answer: Result<T, E>) -> T
    ensures { answer ≡ Ok result }
{
    match answer {
        Ok(value) => value,
        Err(_) => panic!(rt; "it was refused"),
    }
}
