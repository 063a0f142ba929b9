//! The comparisons of the tests. Each is proved once here, so that an answer that is compared costs a call.

use hypervisor::Refusal;
use std::process::Abort;

/// It is so.
pub(super) fn holds(rt: &impl Abort, what: &str, fact: bool) {
    assert!(rt; fact, "{what}");
}

/// What was found is what was wanted.
pub(super) fn same(rt: &impl Abort, what: &str, found: u64, wanted: u64) {
    assert_eq!(rt; found, wanted, "{what}");
}

/// A call was answered by this number, or refused so.
pub(super) fn is_number(
    rt: &impl Abort,
    found: &Result<u64, Refusal>,
    wanted: &Result<u64, Refusal>,
) {
    holds(rt, "the number", found == wanted);
}

/// A commit was acknowledged by this generation and number, or refused so.
pub(super) fn is_ack(
    rt: &impl Abort,
    found: &Result<(u64, u64), Refusal>,
    wanted: &Result<(u64, u64), Refusal>,
) {
    holds(rt, "the acknowledgement", found == wanted);
}

/// It was refused so.
pub(super) fn is_refusal(rt: &impl Abort, found: &Refusal, wanted: &Refusal) {
    holds(rt, "the refusal", found == wanted);
}

/// These bytes are this text.
pub(super) fn is_text(rt: &impl Abort, bytes: &[u8], wanted: &str) {
    holds(rt, "the text", bytes == wanted.as_bytes());
}
