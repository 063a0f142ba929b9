//! What no clause of [`memory_wanted`] says: each call at a concrete type, with room and without.

use crate::asserts::{holds, made};
use circular_buffer::HeapCircularBuffer;
use memory_wanted::{
    MemoryWanted, boxed, extend_from_slice, from_slice, push, reserve, resize, ring, with_capacity,
};

#[test]
fn what_can_be_had_is_given(rt: HostRuntime) {
    let mut list: Vec<u64> = made(&rt, with_capacity(rt.alloc(), 2));
    made(&rt, reserve(&mut list, 5));
    made(&rt, push(&mut list, 7));
    made(&rt, extend_from_slice(&mut list, &[8, 9]));
    made(&rt, resize(&mut list, 5, 1));
    holds(
        &rt,
        "the list",
        list.as_slice() == [7, 8, 9, 1, 1].as_slice(),
    );
}

#[test]
fn so_are_a_copy_a_box_and_a_ring(rt: HostRuntime) {
    let copy = made(&rt, from_slice(rt.alloc(), &[7u64, 8]));
    holds(&rt, "the copy", copy.as_slice() == [7, 8].as_slice());
    let own = made(&rt, boxed(rt.alloc(), 6u64));
    holds(&rt, "the box", *own == 6);
    let mut ring: HeapCircularBuffer<u64> = made(&rt, ring(rt.alloc(), 1));
    holds(&rt, "room", ring.try_push_back(3).is_ok());
    holds(&rt, "no more room", ring.try_push_back(4).is_err());
}

#[test]
fn what_no_machine_has_is_refused(rt: HostRuntime) {
    let all: Result<Vec<u64>, MemoryWanted> = with_capacity(rt.alloc(), usize::MAX);
    holds(&rt, "no list", all.is_err());
    let mut list: Vec<u64> = Vec::new(rt.alloc());
    holds(&rt, "no room", reserve(&mut list, usize::MAX).is_err());
    holds(&rt, "no size", resize(&mut list, usize::MAX, 0).is_err());
    holds(&rt, "as before", list.len() == 0);
}
