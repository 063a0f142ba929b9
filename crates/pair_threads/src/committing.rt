//! The backup's thread.

use crate::messages::{Answer, is_last};
use crate::signals::Signals;
use crossbeam_channel as channel;
use hypervisor::{FirstBackup, Pair, SealedPacket};
use std::alloc::Global;
use std::sync::Wait;

/// The backup's ends of the two channels.
#[derive(Drop)]
pub(crate) struct BackupEnds<P: Pair> {
    pub(crate) packets: channel::Receiver<SealedPacket<P>>,
    pub(crate) answers: channel::Sender<Answer>,
}

/// What the backup's thread has. The backup stands in a box.
#[derive(Drop)]
pub(crate) struct Committing<P: Pair> {
    pub(crate) alloc: Global,
    pub(crate) backup: Box<FirstBackup<P>>,
    pub(crate) ends: BackupEnds<P>,
}

/// Reads and commits what comes, and answers to each packet, until the sender has ended. Where it can't go on, the run is to end. Answers
/// the backup.
pub(crate) fn commit_all<P: Pair, R: Wait>(
    rt: &R,
    mut committing: Committing<P>,
    signals: &Signals,
) -> Box<FirstBackup<P>> {
    for _ in rt.forever() {
        if !commit_next(rt, &mut committing, signals) {
            break;
        }
    }
    let Committing { backup, ends, .. } = committing;
    drop(ends);
    backup
}

/// Reads and commits the packet that comes next, and answers to it. Answers whether more may come.
fn commit_next<P: Pair, R: Wait>(
    rt: &R,
    committing: &mut Committing<P>,
    signals: &Signals,
) -> bool {
    let Ok(mut packet) = committing.ends.packets.recv(rt) else {
        return false;
    };
    let alloc = committing.alloc;
    let Some(answer) = answer_to(rt, alloc, committing.backup.as_mut(), &mut packet) else {
        signals.stop();
        return false;
    };
    committing.ends.answers.send(rt, answer).is_ok()
}

/// Reads a packet and commits it. Answers what is to be answered to it; none where the backup can't go on.
fn answer_to<P: Pair, R: Wait>(
    rt: &R,
    alloc: Global,
    backup: &mut FirstBackup<P>,
    packet: &mut SealedPacket<P>,
) -> Option<Answer> {
    if backup.read(alloc, packet).is_err() {
        return None;
    }
    match backup.commit(rt) {
        Ok(ack) => Some(Answer::Committed(ack)),
        Err(why) => (!is_last(&why)).then_some(Answer::Refused),
    }
}
