//! A pair of nodes, of which each call is made, with memory for it: the beacon's frame is let out once its checkpoint is acknowledged, and
//! its standby goes on. What is wanted of lengths and counts comes from `oracle/nodes.py`.
//!
//! A node stands in a box, and is out of it only within the calls that take it by value.

use crate::asserts::{boxed, holds, made};
use guest_kit::beacon;
use pair_core::{Mode, Packet, SECTOR_BYTES, Shape};
use pair_nodes::{Commit, PrimaryNode, StandbyNode};
use std::alloc::Global;
use std::process::Abort;

/// The frame that the beacon sends with its 22nd step.
static FRAME: [u8; 14] = [2, 0, 0, 0, 1, 1, 2, 0, 0, 0, 0, 1, 0x88, 0xb5];

const SHAPE: Shape = Shape {
    pages: 2,
    sectors: 8,
};

/// A primary of the beacon, alone.
fn booted(rt: &impl Abort, alloc: Global) -> Box<PrimaryNode> {
    let image = made(rt, beacon(alloc));
    let primary = made(rt, PrimaryNode::boot(alloc, SHAPE, image.as_slice()));
    boxed(rt, alloc, primary)
}

/// A standby, which waits for the full checkpoint of generation 2.
fn waiting(rt: &impl Abort, alloc: Global) -> Box<StandbyNode> {
    let standby = made(rt, StandbyNode::new(alloc, SHAPE, 2));
    boxed(rt, alloc, standby)
}

/// The primary, with a standby that is to be filled.
fn protected(rt: &impl Abort, alloc: Global, primary: Box<PrimaryNode>) -> Box<PrimaryNode> {
    let (next, most) = made(rt, Box::into_inner(primary).protect());
    // 524 in front of the page records, 4 for their count, 4108 for each page, and 8 for no sectors and no frames
    holds(rt, "the most bytes of the full checkpoint", most == 8752);
    boxed(rt, alloc, next)
}

/// The primary, without its standby.
fn left_alone(rt: &impl Abort, alloc: Global, primary: Box<PrimaryNode>) -> Box<PrimaryNode> {
    let next = made(rt, Box::into_inner(primary).alone());
    boxed(rt, alloc, next)
}

/// The standby, as the primary that goes on.
fn gone_live(rt: &impl Abort, alloc: Global, standby: Box<StandbyNode>) -> Box<PrimaryNode> {
    let next = made(rt, Box::into_inner(standby).go_live());
    boxed(rt, alloc, next)
}

/// The guest makes so many steps.
fn steps(rt: &impl Abort, primary: &mut PrimaryNode, count: u64) {
    holds(rt, "the steps", made(rt, primary.step(count)) == count);
}

/// A checkpoint is cut, whose text has so many bytes.
fn cuts(rt: &impl Abort, primary: &mut PrimaryNode, bytes: usize) {
    holds(rt, "the cut", made(rt, primary.cut()) == bytes);
}

/// A thousand bytes of the pending checkpoint's text go to the standby, or as many as there are.
fn crosses(rt: &impl Abort, primary: &mut PrimaryNode, standby: &mut StandbyNode, number: u64) {
    let text = made(rt, primary.text(number, 0, 1000));
    holds(rt, "the piece", made(rt, standby.piece(text)) == text.len());
}

/// The complete checkpoint is the one of this number. It is committed, and is to be acknowledged.
fn commits(rt: &impl Abort, standby: &mut StandbyNode, number: u64) {
    let wanted = Packet {
        generation: 2,
        number,
    };
    holds(
        rt,
        "a checkpoint is complete",
        standby.whole() == Some(wanted),
    );
    holds(rt, "the next number", standby.to_commit() == number);
    holds(
        rt,
        "it is committed",
        made(rt, standby.commit()) == Commit::Committed(wanted),
    );
}

/// The primary hears of the commit of the checkpoint of this number, which lets so many frames out.
fn hears(rt: &impl Abort, primary: &mut PrimaryNode, number: u64, frames: usize) {
    let ack = Packet {
        generation: 2,
        number,
    };
    holds(
        rt,
        "what is let out",
        made(rt, primary.let_out(ack)).len() == frames,
    );
    made(rt, primary.acknowledge(ack));
}

/// A frame arrives at the guest, and the beacon sends its own, which is held from the cut on.
fn sends(rt: &impl Abort, primary: &mut PrimaryNode) {
    made(rt, primary.arrive(&FRAME));
    steps(rt, primary, 12);
    holds(rt, "a frame was sent", primary.outbox().len() == 1);
    cuts(rt, primary, 630);
    holds(rt, "it is held", primary.held().len() == 1);
}

/// The guest of a node that is alone makes so many steps, and what it sent is let go.
fn goes_on(rt: &impl Abort, primary: &mut PrimaryNode, count: u64) {
    steps(rt, primary, count);
    if !primary.is_backed() {
        primary.release();
    }
    holds(rt, "what was sent is out", primary.outbox().is_empty());
}

/// The calls that only read.
fn is_read(rt: &impl Abort, primary: &PrimaryNode, standby: &StandbyNode) {
    primary.what_it_holds_is_bounded();
    standby.what_it_holds_is_bounded();
    holds(rt, "the mode", primary.mode() == Mode::Paired);
    holds(
        rt,
        "generations",
        primary.generation() == standby.generation(),
    );
    holds(rt, "numbers", primary.to_cut() == standby.to_commit());
    holds(rt, "nothing is pending", primary.pending() == 0);
    holds(rt, "steps", primary.steps() == standby.steps());
    holds(rt, "sectors", primary.sector(7) == standby.sector(7));
    holds(rt, "there is an image", !standby.is_empty());
}

#[test]
fn each_call_of_a_pair_of_nodes_succeeds(rt: HostRuntime) {
    let mut primary = booted(&rt, rt.alloc());
    goes_on(&rt, &mut primary, 10);
    let mut primary = protected(&rt, rt.alloc(), primary);
    let mut standby = waiting(&rt, rt.alloc());
    crosses(&rt, &mut primary, &mut standby, 0);
    commits(&rt, &mut standby, 0);
    hears(&rt, &mut primary, 0, 0);
    sends(&rt, &mut primary);
    crosses(&rt, &mut primary, &mut standby, 1);
    commits(&rt, &mut standby, 1);
    hears(&rt, &mut primary, 1, 1);
    is_read(&rt, &primary, &standby);
    let mut live = gone_live(&rt, rt.alloc(), standby);
    goes_on(&rt, &mut live, 1);
    let mut alone = left_alone(&rt, rt.alloc(), primary);
    goes_on(&rt, &mut alone, 1);
}

/// A stream that broke off begins again.
#[test]
fn a_stream_begins_again(rt: HostRuntime) {
    let mut standby = waiting(&rt, rt.alloc());
    holds(&rt, "a part", made(&rt, standby.piece(b"RMC2")) == 4);
    standby.restart();
    holds(&rt, "a part", made(&rt, standby.piece(b"RMC2")) == 4);
}
