//! The sender's thread.

use crate::messages::{Answer, is_last};
use crate::signals::Signals;
use crossbeam_channel as channel;
use hypervisor::{Ack, Loss, Pair, SealedPacket, Sender};
use std::sync::Wait;
use std::thread;

/// The sender's ends of the two channels.
#[derive(Drop)]
pub(crate) struct SenderEnds<P: Pair> {
    pub(crate) packets: channel::Sender<SealedPacket<P>>,
    pub(crate) answers: channel::Receiver<Answer>,
}

/// What the sender's thread has. It sends over the line whose seat it has.
#[derive(Drop)]
pub(crate) struct Sending<P: Pair> {
    pub(crate) sender: Sender<P>,
    pub(crate) line: Loss<P>,
    pub(crate) ends: SenderEnds<P>,
}

/// Sends each checkpoint that is pending, and hands in what is acknowledged, until the runner has ended and none is pending. Where it
/// can't go on, the run is to end.
pub(crate) fn send_all<P: Pair, R: Wait>(rt: &R, mut sending: Sending<P>, signals: &Signals) {
    for _ in rt.forever() {
        if signals.is_stopped() || !send_next(rt, &mut sending, signals) {
            return;
        }
    }
}

/// Sends the checkpoint that is next, where one is pending. Answers whether there may be more to send.
fn send_next<P: Pair, R: Wait>(rt: &R, sending: &mut Sending<P>, signals: &Signals) -> bool {
    // Asked for first: what was submitted before the runner ended is then pending.
    let has_runner_ended = signals.has_runner_ended();
    let goes_on = match sending.sender.next_over(rt, &mut sending.line) {
        Ok(Some(packet)) => send(rt, &mut sending.sender, &sending.ends, packet),
        Ok(None) => {
            if !has_runner_ended {
                thread::yield_now();
            }
            return !has_runner_ended;
        }
        Err(_) => false,
    };
    if !goes_on {
        signals.stop();
    }
    goes_on
}

/// Sends a packet, and waits for what is answered to it. Answers whether the sender can go on: not where a channel's other end is gone.
fn send<P: Pair, R: Wait>(
    rt: &R,
    sender: &mut Sender<P>,
    ends: &SenderEnds<P>,
    packet: SealedPacket<P>,
) -> bool {
    if ends.packets.send(rt, packet).is_err() {
        return false;
    }
    match ends.answers.recv(rt) {
        Ok(Answer::Committed(ack)) => hand_in(rt, sender, ack),
        Ok(Answer::Refused) => true,
        Err(_) => false,
    }
}

/// Hands in an acknowledgement. Answers whether the sender can go on.
fn hand_in<P: Pair, R: Wait>(rt: &R, sender: &mut Sender<P>, ack: Ack) -> bool {
    match sender.acked(rt, ack) {
        Ok(_landed) => true,
        Err(why) => !is_last(&why),
    }
}
