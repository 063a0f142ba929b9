//! Tests of checkpoints: what is recorded of small guests, its text, and the backup's image of it, by what [`epoch_snapshot`],
//! [`epoch_cuts`], [`checkpoint_stream`] and [`backup_image`] have for everyone, and of lists of frames ([`frame_list`]). They stand in a
//! crate of their own since a crate that has tests is proved once more with them. A test is a table of rows or a few calls, and what is large stands in a box, since a long test is slow to prove.
#![tactic(auto)]

#[cfg(test)]
mod asserts;
#[cfg(test)]
mod checkpoints;
#[cfg(test)]
mod guests;
#[cfg(test)]
mod image;
#[cfg(test)]
mod lists;
#[cfg(test)]
mod refusals;
#[cfg(test)]
mod snapshots;
#[cfg(test)]
mod stream;
#[cfg(test)]
mod texts;
