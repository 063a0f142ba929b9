//! The frames of an image's last commits.
ghost use Rattle.std.specs.Prelude.{◌≡◌, ◌+◌, ◌-◌, ◌<◌, ◌≤◌, ◌++◌, ◌∷◌, [], List, All, length, drop, map, sum_by};
ghost use Rattle.net_device.specs.Frames.{IsFrame};
ghost use Rattle.arrayvec.specs.ArrayVec.{array_vec_len};
ghost use Rattle.backup_image.specs.Limits.{max_kept, number_limit};
ghost use Rattle.backup_image.specs.Kept.{IsKept, none_kept, first_kept, kept_after, kept_with, sent_with};

use crate::limits::MAX_KEPT;
use arrayvec::ArrayVec;
use epoch_snapshot::Checkpoint;
use frame_list::FrameList;
use std::alloc::Global;
use std::marker::Model;

/// The frames of the last commits, at most four, and the number of the last frame committed.
///
/// Frames are numbered from 1, in the order that the guest sent them since boot or the last full checkpoint, those too that go to no
/// client. The kept ones have consecutive numbers, up to that of the last one committed. There are at most 256 of a commit, each of 14
/// to 1514 bytes.
#[derive(Drop)]
pub struct KeptFrames {
    epochs: ArrayVec<FrameList, MAX_KEPT, Global>,
    sent: u64,
}

impl Model for KeptFrames {
    ghost use Rattle.backup_image.specs.Kept.{Kept, IsKept};
    ghost use Rattle.backup_image.specs.internal.Invariant.{kept_of};

    ghost Value = { Kept };

    ghost view = { λ k. kept_of k.epochs.items k.sent };

    ghost invariant = { λ k. IsKept (kept_of k.epochs.items k.sent) };
}

impl KeptFrames {
    /// No checkpoint was committed yet. The places of four commits are reserved here.
    pub(crate) fn none(alloc: Global) -> KeptFrames
        ensures { result ≡ none_kept }
    {
        KeptFrames {
            epochs: ArrayVec::new_in(alloc),
            sent: 0,
        }
    }

    /// The number of the first kept frame, from 1; one more than `sent` where none is kept.
    #[tactic(auto, using(crate::proofs::KeptLemmas::count_map))]
    pub fn first(&self) -> u64
        ensures value { result ≡ first_kept self.now }
        ensures rules { IsKept self.now }
    {
        self.sent + 1 - count(self.epochs.as_slice())
    }

    /// The number of the last frame committed, below 2^62, and 0 if there is none.
    pub fn sent(&self) -> u64
        ensures value { result ≡ self.now.sent }
        ensures rules { IsKept self.now }
    {
        self.sent
    }

    /// The frames of the last commits, at most four, the oldest first: of each those of its checkpoint, in order.
    pub fn epochs(&self) -> &[FrameList]
        ensures value { map (λ epoch. epoch.items) result.now ≡ self.now.lists }
        ensures rules { IsKept self.now }
    {
        self.epochs.as_slice()
    }

    /// The number that the last frame would have once this checkpoint is committed.
    pub(crate) fn sent_with(&self, checkpoint: &Checkpoint) -> u64
        ensures { result ≡ sent_with checkpoint.now self.now.sent }
    {
        let frames = checkpoint.frames().len() as u64;
        if checkpoint.is_full() {
            frames
        } else {
            self.sent + frames
        }
    }

    /// Keeps the frames of this checkpoint, which is committed; of more than four commits the oldest is let go. A full one begins anew.
    /// It takes no memory.
    pub(crate) fn commit(&mut self, checkpoint: Checkpoint)
        requires { sent_with checkpoint self.old.sent < number_limit }
        ensures lists { self.new.lists ≡ kept_with checkpoint self.old.lists }
        ensures sent { self.new.sent ≡ sent_with checkpoint self.old.sent }
    {
        if checkpoint.is_full() {
            self.clear();
        }
        self.keep(checkpoint.into_frames());
    }

    /// As if no checkpoint had been committed.
    fn clear(&mut self)
        ensures { self.new ≡ none_kept }
    {
        self.epochs.clear();
        self.sent = 0;
    }

    /// Keeps the frames of one more commit.
    fn keep(&mut self, frames: FrameList)
        requires short { length frames.items ≤ 256 }
        requires frames { All IsFrame frames.items }
        requires numbers { self.old.sent + length frames.items < number_limit }
        ensures lists { self.new.lists ≡ kept_after self.old.lists frames.items }
        ensures sent { self.new.sent ≡ self.old.sent + length frames.items }
    {
        self.sent += frames.len() as u64;
        make_room(&mut self.epochs);
        self.epochs.push(frames);
    }
}

/// Lets the oldest go where no place is free.
fn make_room(epochs: &mut ArrayVec<FrameList, MAX_KEPT, Global>)
    ensures items { epochs.new.items ≡ drop (length epochs.old.items + 1 - max_kept) epochs.old.items }
    ensures room { array_vec_len epochs.new < max_kept }
{
    if epochs.is_full() {
        epochs.remove(0);
    }
}

/// How many frames these are together: of four commits at most 1024.
fn count(epochs: &[FrameList]) -> u64
    requires { sum_by (λ epoch. length epoch.items) epochs.now < number_limit }
    ensures { result ≡ sum_by (λ epoch. length epoch.items) epochs.now }
{
    let mut count = 0;
    for epoch in epochs {
        count += epoch.len() as u64;
    }
    count
}
