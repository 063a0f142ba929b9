//! The comparisons of the tests. Each is proved once here, so that a reading that is compared costs a call.

use std::process::Abort;

/// What was found is what was wanted.
pub(crate) fn same(rt: &impl Abort, what: &str, found: u64, wanted: u64) {
    assert_eq!(rt; found, wanted, "{what}");
}

/// It is so.
pub(crate) fn holds(rt: &impl Abort, what: &str, fact: bool) {
    assert!(rt; fact, "{what}");
}

/// It is so at this place.
pub(crate) fn holds_at(rt: &impl Abort, what: &str, place: usize, fact: bool) {
    assert!(rt; fact, "{what} {place}");
}
