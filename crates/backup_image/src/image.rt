//! The backup's image.
ghost use Rattle.std.specs.Prelude.{◌≡◌, ◌↔◌, ◌+◌, ◌*◌, ◌<◌, ◌≤◌, length, replicate, slice_range, IfOk, IfErr, OnErr, IsErr, Some};
ghost use Rattle.std.specs.Prelude.{None, Err};
ghost use Rattle.memory_wanted.specs.Wanted.{wanted};
ghost use Rattle.guest_rules.specs.Limits.{page_bytes};
ghost use Rattle.backup_image.specs.Images.{booted, empty_image, answer_at, stage_answer, after_stage, committed, settled_machine};

use crate::apply::apply;
use crate::errors::ImageError;
use crate::kept::KeptFrames;
use crate::limits::NUMBER_LIMIT;
use crate::standing::{Staged, Standing};
use epoch_snapshot::Checkpoint;
use guest_machine::{Machine, MachineError, SECTOR_BYTES, Shape};
use std::alloc::Global;
use std::marker::Model;

/// The guest as of the last checkpoint that was committed, the checkpoint that is staged, and the frames of the last four commits. An
/// empty image has none yet, and holds zeros. All memory that its calls need is reserved when it is made.
pub struct Image {
    shape: Shape,
    machine: Machine,
    standing: Option<Standing>,
    staged: Option<Checkpoint>,
    kept: KeptFrames,
}

// Proved here, and not in each crate above that keeps one in a `Box` or an `Option`.
impl Drop for Image {
    fn drop(self) {
        let Image {
            shape: _,
            machine: _,
            standing: _,
            staged: _,
            kept: _,
        } = self;
    }
}

/// What an image gives to the node that goes on with its guest.
#[derive(Drop)]
pub struct Resumed {
    /// The machine of the image's guest, just settled.
    pub machine: Machine,
    /// The frames of the last four commits, with their numbers.
    pub kept: KeptFrames,
}

impl Model for Image {
    ghost use Rattle.backup_image.specs.Images.{ImageState};
    ghost use Rattle.backup_image.specs.internal.Invariant.{IsImage, state_of};

    ghost Value = { ImageState };

    ghost view = { λ i. state_of i.shape i.machine i.standing i.staged i.kept };

    ghost invariant = { λ i. IsImage i.shape i.machine i.standing i.staged i.kept.sent };
}

impl Image {
    /// The image of the guest at boot, which counts as checkpoint 0 of generation 1. The bytes fit in memory, as the caller knows.
    ///
    /// # Errors
    /// `NoMemory` where memory is refused.
    pub fn boot(alloc: Global, shape: Shape, image: &[u8]) -> Result<Image, ImageError>
        requires { length image.now ≤ page_bytes * shape.pages }
        ensures ok { IfOk result (λ i. i ≡ booted shape image.now) }
        ensures err { OnErr result (result ≡ Err (ImageError.NoMemory wanted)) }
    {
        let machine = match Machine::boot(alloc, shape, image) {
            Ok(machine) => machine,
            Err(error) => return Err(refusal_of(error)),
        };
        Ok(Image {
            shape,
            machine,
            standing: Some(Standing {
                generation: 1,
                number: 0,
            }),
            staged: None,
            kept: KeptFrames::none(alloc),
        })
    }

    /// An image that no checkpoint was committed to yet: it takes a full one only.
    ///
    /// # Errors
    /// `NoMemory` where memory is refused.
    pub fn empty(alloc: Global, shape: Shape) -> Result<Image, ImageError>
        ensures ok { IfOk result (λ i. i ≡ empty_image shape) }
        ensures err { OnErr result (result ≡ Err (ImageError.NoMemory wanted)) }
    {
        Image::empty_with(alloc, shape, None)
    }

    /// The same, in the memory of a spare machine of that shape, if there is one. It is given up, also where the call is refused.
    ///
    /// # Errors
    /// `NoMemory` where memory is refused.
    pub fn empty_with(
        alloc: Global,
        shape: Shape,
        spare: Option<Machine>,
    ) -> Result<Image, ImageError>
        ensures ok { IfOk result (λ i. i ≡ empty_image shape) }
        ensures err { OnErr result (result ≡ Err (ImageError.NoMemory wanted)) }
    {
        let machine = match Machine::boot_empty(alloc, shape, spare) {
            Ok(machine) => machine,
            Err(error) => return Err(refusal_of(error)),
        };
        Ok(Image {
            shape,
            machine,
            standing: None,
            staged: None,
            kept: KeptFrames::none(alloc),
        })
    }

    /// What a checkpoint is for this image, by its version, its turn and how many frames it has.
    fn answer(&self, checkpoint: &Checkpoint) -> Result<Staged, ImageError>
        ensures { result ≡ stage_answer self.now checkpoint.now }
    {
        if checkpoint.version() == 1 && checkpoint.number() != 0 {
            return Err(ImageError::OldVersion);
        }
        match self.turn(checkpoint) {
            Ok(Staged::New) if self.kept.sent_with(checkpoint) >= NUMBER_LIMIT => {
                Err(ImageError::Exhausted)
            }
            answer => answer,
        }
    }

    /// Whether it is a checkpoint's turn, by its generation and number.
    fn turn(&self, checkpoint: &Checkpoint) -> Result<Staged, ImageError>
        ensures { result ≡ answer_at self.now.stands_at checkpoint.now.generation checkpoint.now.number }
    {
        let number = checkpoint.number();
        let Some(at) = self.standing else {
            return if number == 0 {
                Ok(Staged::New)
            } else {
                Err(ImageError::NoImage)
            };
        };
        if checkpoint.generation() != at.generation {
            Err(ImageError::Stale)
        } else if number > at.number + 1 {
            Err(ImageError::Gap)
        } else if number == at.number + 1 {
            Ok(Staged::New)
        } else {
            Ok(Staged::Again)
        }
    }

    /// Takes a checkpoint of the image's shape, as the caller knows. A new one stands apart until the commit, in the place of what
    /// was staged; one that the image has in it already changes nothing. It takes no memory.
    ///
    /// # Errors
    /// `OldVersion` for a delta of version 1; `NoImage` for a delta at an empty image; `Stale` for one of another generation; `Gap` for one
    /// beyond the next number; last, for a new one, `Exhausted` where the number of its last frame would reach 2^62. Nothing changes then.
    #[tactic(auto, using(crate::proofs::StageLemmas::new_next, crate::proofs::StageLemmas::new_numbered))]
    pub fn stage(&mut self, checkpoint: Checkpoint) -> Result<Staged, ImageError>
        requires { checkpoint.shape ≡ self.old.shape }
        ensures answer { result ≡ stage_answer self.old checkpoint }
        ensures image { self.new ≡ after_stage self.old checkpoint }
    {
        let answer = self.answer(&checkpoint);
        if let Ok(Staged::New) = answer {
            self.staged = Some(checkpoint);
        }
        answer
    }

    /// Applies what is staged, if anything is, in place: from then on the image stands at it and keeps its frames, and nothing is staged.
    /// Of more than four commits the frames of the oldest are let go; a full checkpoint begins anew. It takes no memory.
    pub fn commit(&mut self)
        ensures { self.new ≡ committed self.old }
    {
        let Some(checkpoint) = self.staged.take() else {
            return;
        };
        apply(&mut self.machine, &checkpoint);
        self.standing = Some(Standing {
            generation: checkpoint.generation(),
            number: checkpoint.number(),
        });
        self.kept.commit(checkpoint);
    }

    /// Where the image stands, or `None` while it is empty.
    pub fn standing(&self) -> Option<Standing>
        ensures { result ≡ self.now.stands_at }
    {
        self.standing
    }

    /// The frames of the last four commits, with their numbers. What is staged isn't in it.
    pub fn kept(&self) -> &KeptFrames
        ensures lists { result.now.lists ≡ self.now.kept }
        ensures sent { result.now.sent ≡ self.now.sent }
    {
        &self.kept
    }

    /// How large its guest is.
    pub fn shape(&self) -> Shape
        ensures value { result ≡ self.now.shape }
        ensures pages { length self.now.guest.ram ≡ page_bytes * result.pages }
        ensures sectors { length self.now.guest.sectors ≡ 512 * result.sectors }
    {
        self.shape
    }

    /// How many steps its guest has made since boot, modulo 2^64; 0 while the image is empty.
    pub fn steps(&self) -> u64
        ensures value { result ≡ self.now.guest.steps }
        ensures empty { self.now.stands_at ≡ None → result ≡ 0 }
    {
        self.machine.steps()
    }

    /// The 512 bytes of a sector of its guest's disk, which has it, as the caller knows; zeros while the image is empty.
    pub fn sector(&self, sector: u32) -> &[u8; SECTOR_BYTES]
        requires { sector < self.now.shape.sectors }
        ensures value { result.now ≡ slice_range self.now.guest.sectors (512 * sector) (512 * sector + 512) }
        ensures empty { self.now.stands_at ≡ None → result.now ≡ replicate 512 0 }
    {
        self.machine.sector(sector)
    }

    /// The machine of the image's guest, just settled, and the frames of the last four commits. What is staged is let go. It copies no
    /// page and no frame.
    ///
    /// # Errors
    /// `NoImage`, exactly where the image is empty; it is handed back.
    pub fn resume(self) -> Result<Resumed, (Image, ImageError)>
        ensures ok { IfOk result (λ resumed. resumed.machine ≡ settled_machine self.shape self.guest) }
        ensures lists { IfOk result (λ resumed. resumed.kept.lists ≡ self.kept) }
        ensures sent { IfOk result (λ resumed. resumed.kept.sent ≡ self.sent) }
        ensures refused { IsErr result ↔ (self.stands_at ≡ None) }
        ensures err { IfErr result (λ refusal. (refusal.0 ≡ self) × (refusal.1 ≡ ImageError.NoImage)) }
    {
        if self.standing.is_none() {
            return Err((self, ImageError::NoImage));
        }
        let Image {
            shape: _,
            machine,
            standing: _,
            staged: _,
            kept,
        } = self;
        Ok(Resumed { machine, kept })
    }
}

/// The refusal of an image whose machine wasn't booted.
fn refusal_of(error: MachineError) -> ImageError
    requires { error ≡ MachineError.NoMemory wanted }
    ensures { result ≡ ImageError.NoMemory wanted }
{
    match error {
        MachineError::NoMemory(wanted) => ImageError::NoMemory(wanted),
        MachineError::CutNeeded => unreachable!(),
    }
}
