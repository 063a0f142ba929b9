//! The gate.
ghost use Rattle.std.specs.Prelude.{◌≡◌, ℕ, ◌+◌, ◌<◌, ◌≤◌, [], ◌∷◌, ◌++◌, length, All, IfOk, IfErr};
ghost use Rattle.frame_ports.specs.Addresses.{IsFrame};
ghost use Rattle.frame_ports.specs.Limits.{number_limit};
ghost use Rattle.output_gate.specs.Epochs.{epoch, frames_of, frames_to, after_number};
ghost use Rattle.output_gate.specs.Gate.{IsGate, begun, first_held};
ghost use Rattle.output_gate.specs.Landings.{ports_after, landed_count, dropped_count};
ghost use Rattle.output_gate.specs.Limits.{max_epochs, max_frames, max_held};
ghost use Rattle.output_gate.specs.declared.errors.GateError.TheVariants.{NoMemory};
ghost use Rattle.memory_wanted.specs.Wanted.{wanted};

use crate::errors::GateError;
use crate::landing::{Landed, land_numbered};
use crate::limits::{Frame, MAX_EPOCHS, MAX_FRAMES, MAX_HELD};
use crate::marks::{Mark, epochs_to, frames_in};
use crate::room::{drop_first, put_copies, put_last};
use frame_ports::Ports;
use memory_wanted::with_capacity;
use std::alloc::Global;
use std::marker::Model;

/// The guest's frames that may not yet be seen, by epoch, under the number of the checkpoint that ends it. The frames
/// have numbers of their own, in the order sent: those held are consecutive, up to the one before [`Gate::next`].
///
/// Only [`Gate::new`] takes memory: it reserves room for 5 epochs of 256 frames.
#[derive(Drop)]
pub struct Gate {
    /// The held frames, in the order sent, epoch by epoch.
    frames: Vec<Frame>,
    /// The held epochs, by rising number, also those without a frame.
    marks: Vec<Mark>,
    /// The number that the next frame gets, from 1 to 2^62.
    next: u64,
}

impl Model for Gate {
    ghost use Rattle.output_gate.specs.Gate.{GateState};

    ghost Value = { GateState };

    ghost use Rattle.output_gate.specs.internal.Fields.{gate_state, AreFields};

    ghost view = { gate_state };

    ghost invariant = { AreFields };
}

impl Gate {
    /// A gate that holds nothing, before the guest has sent a frame. All room is reserved here.
    ///
    /// # Errors
    ///
    /// [`GateError::NoMemory`] if that room can't be had.
    pub fn new(alloc: Global) -> Result<Gate, GateError>
        ensures ok { IfOk result (λ g. g ≡ begun 0) }
        ensures err { IfErr result (λ e. e ≡ NoMemory wanted) }
    {
        let frames = with_capacity(alloc, MAX_HELD)?;
        let marks = with_capacity(alloc, MAX_EPOCHS)?;
        Ok(Gate {
            frames,
            marks,
            next: 1,
        })
    }

    /// The number that the guest's next frame gets, from 1 to 2^62.
    pub fn next(&self) -> u64
        ensures next { result ≡ self.now.next }
        ensures bound { (1 ≤ result) × (result ≤ number_limit) }
    {
        self.next
    }

    /// The number of the first held frame. Where none is held it is the next number.
    pub fn first(&self) -> u64
        ensures first { result ≡ first_held self.now }
        ensures bound { result + length (frames_of self.now.epochs) ≤ number_limit }
    {
        self.next - self.frames.len() as u64
    }

    /// Holds nothing from here on, and takes the guest's frames for sent up to number `sent`: the next one has the
    /// number after it. Nothing lands. So after frames were rolled back, their numbers are given anew.
    pub fn begin(&mut self, sent: u64)
        requires { sent < number_limit }
        ensures { self.new ≡ begun sent }
    {
        self.discard();
        self.next = sent + 1;
    }

    /// Holds the frames of the epoch that the checkpoint `number` ends, behind those held, and gives them the next
    /// numbers. Nothing lands.
    pub fn hold(&mut self, number: u64, frames: &[Frame])
        requires room { length self.old.epochs < max_epochs }
        requires above { All (λ e. e.number < number) self.old.epochs }
        requires few { length frames.now ≤ max_frames }
        requires frames { All IsFrame frames.now }
        requires numbers { self.old.next + length frames.now ≤ number_limit }
        ensures { self.new ≡ record { next = self.old.next + length frames.now; epochs = self.old.epochs ++ epoch number frames.now ∷ [] } }
    {
        put_copies(&mut self.frames, frames);
        let count = frames.len();
        put_last(&mut self.marks, Mark { number, count });
        self.next += count as u64;
    }

    /// The held frames of the checkpoints up to `number`, in order: those that [`Gate::ack`] of that number would
    /// land.
    pub fn held(&self, number: u64) -> &[Frame]
        ensures held { result.now ≡ frames_to number self.now.epochs }
        ensures frames { All IsFrame result.now }
        ensures most { length result.now ≤ length (frames_of self.now.epochs) }
        ensures few { length result.now ≤ max_held }
        // What is true of every gate.
        ensures gate { IsGate self.now }
    {
        let frames = self.frames.as_slice();
        let marks = self.marks.as_slice();
        let count = frames_in(&marks[..epochs_to(marks, number)]);
        &frames[..count]
    }

    /// Lets go of the held frames of the checkpoints up to `number`, and says how many they were: whoever can let them out has done so from
    /// [`Gate::held`] of that number. The others stay held, under their numbers.
    pub fn let_go(&mut self, number: u64) -> usize
        ensures gate { self.new ≡ record self.old { epochs = after_number number self.old.epochs } }
        ensures count { result ≡ length (frames_to number self.old.epochs) }
    {
        let marks = self.marks.as_slice();
        let epochs = epochs_to(marks, number);
        let count = frames_in(&marks[..epochs]);
        drop_first(&mut self.frames, count);
        drop_first(&mut self.marks, epochs);
        count
    }

    /// Lands the held frames of the checkpoints up to `number` under their numbers, in order, each in the boxes of
    /// its clients in rising order. The others stay held, under their numbers.
    pub fn ack(&mut self, number: u64, ports: &mut Ports) -> Landed
        ensures gate { self.new ≡ record self.old { epochs = after_number number self.old.epochs } }
        ensures ports { ports.new ≡ ports_after ports.old (first_held self.old) (frames_to number self.old.epochs) }
        ensures landed { result.landed ≡ landed_count ports.old (first_held self.old) (frames_to number self.old.epochs) }
        ensures dropped { result.dropped ≡ dropped_count ports.old (first_held self.old) (frames_to number self.old.epochs) }
    {
        let first = self.first();
        let landed = land_numbered(ports, first, self.held(number));
        self.let_go(number);
        landed
    }

    /// Lands all held frames under their numbers, in order, each in the boxes of its clients in rising order. None
    /// stays held.
    pub fn open_all(&mut self, ports: &mut Ports) -> Landed
        ensures gate { self.new ≡ record self.old { epochs = [] } }
        ensures ports { ports.new ≡ ports_after ports.old (first_held self.old) (frames_of self.old.epochs) }
        ensures landed { result.landed ≡ landed_count ports.old (first_held self.old) (frames_of self.old.epochs) }
        ensures dropped { result.dropped ≡ dropped_count ports.old (first_held self.old) (frames_of self.old.epochs) }
    {
        let first = self.first();
        let landed = land_numbered(ports, first, &self.frames);
        self.discard();
        landed
    }

    /// Gives up all held frames. None lands, and the next number stays: [`Gate::begin`] gives the numbers of frames
    /// that were rolled back anew.
    pub fn discard(&mut self)
        ensures { self.new ≡ record self.old { epochs = [] } }
    {
        self.frames.clear();
        self.marks.clear();
    }
}
