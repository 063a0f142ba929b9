//! A stand-in for the guest. It has no memory and no instructions: it counts steps, and says what the guest program
//! `beacon` has sent after so many.
ghost use Rattle.std.specs.Prelude.{◌≤◌};
ghost use Rattle.frame_ports.specs.Addresses.{IsFrame};

use arrayvec::ArrayVec;
use output_gate::Frame;

/// After so many steps `beacon` has sent its frame.
const STEPS_TO_SEND: u64 = 22;

/// The frame of `beacon`: from the guest to client 1, of no more than a header.
const BEACON_FRAME: [u8; 14] = [2, 0, 0, 0, 1, 1, 2, 0, 0, 0, 0, 1, 0x88, 0xb5];

/// The guest program `beacon`, which sends one frame.
#[derive(Drop)]
pub(crate) struct Beacon {
    /// The steps so far.
    pub(crate) steps: u64,
}

impl Beacon {
    /// Goes one step.
    pub(crate) fn step(&mut self) {
        self.steps = self.steps.wrapping_add(1);
    }

    /// How many frames it has sent, at most one.
    pub(crate) fn sent(&self) -> usize
        ensures { result ≤ 1 }
    {
        usize::from(self.steps >= STEPS_TO_SEND)
    }

    /// The frame that it sends.
    pub(crate) fn frame() -> Frame
        ensures { IsFrame result }
    {
        let mut frame = ArrayVec::new();
        match frame.try_extend_from_slice(&BEACON_FRAME) {
            Ok(()) => frame,
            Err(_) => unreachable!(),
        }
    }
}
