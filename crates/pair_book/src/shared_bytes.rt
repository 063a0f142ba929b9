//! Bytes that several handles share.
use std::alloc::Global;
use std::sync::Arc;

/// A handle to bytes: one of several that share them, or, where the place for the count of handles couldn't be had, the only one.
#[derive(Drop)]
pub(crate) enum SharedBytes {
    Shared(Arc<Vec<u8>, Global>),
    Own(Vec<u8>),
}
