//! What the calls answer, as the rows of the tables say it.

use crate::rows::{Answer, BEACON};
use pair_book::{Ack, Want};
use pair_history::Frame;

/// What is said of a frame that was taken, where there was one.
pub(crate) fn taken(is_some: bool, frame: &Frame) -> Answer {
    if !is_some {
        return Answer::None;
    }
    if frame.as_slice() == &BEACON[..] {
        Answer::Beacon
    } else {
        Answer::Frame
    }
}

/// What a runner is asked for.
pub(crate) fn wanted(want: Want) -> Answer {
    Answer::Want(want.kind, want.generation, want.number)
}

/// Which checkpoint is acknowledged.
pub(crate) fn acknowledged(ack: Ack) -> Answer {
    Answer::Ack(ack.generation, ack.number)
}

/// This number, where there is one.
pub(crate) fn number(number: Option<u64>) -> Answer {
    match number {
        Some(number) => Answer::Number(number),
        None => Answer::None,
    }
}
