//! The frames that an image keeps, each of bytes that are its number.

use super::rows::{End, Handed, Row, Start, plays};
use crate::checkpoints::Cut;
use crate::guests::Guest;
use backup_image::Staged;

/// Of six commits, with 1, 2, 0, 3, 1 and 2 frames, the last four are kept.
#[test]
fn six_commits_leave_the_last_four(rt: HostRuntime) {
    static ROWS: [Row; 14] = [
        Row::Kept(1, 0, &[]),
        Row::Given(Handed::Framed(1, 1, 1), Ok(Staged::New)),
        Row::Commit,
        Row::Given(Handed::Framed(2, 2, 2), Ok(Staged::New)),
        Row::Commit,
        Row::Given(Handed::Framed(3, 4, 0), Ok(Staged::New)),
        Row::Commit,
        Row::Given(Handed::Framed(4, 4, 3), Ok(Staged::New)),
        Row::Commit,
        Row::Given(Handed::Framed(5, 7, 1), Ok(Staged::New)),
        Row::Commit,
        Row::Given(Handed::Framed(6, 8, 2), Ok(Staged::New)),
        Row::Commit,
        Row::Kept(4, 9, &[0, 3, 1, 2]),
    ];
    static LAST: End = End::Kept(4, 9, &[0, 3, 1, 2]);
    plays(
        &rt,
        rt.alloc(),
        (Guest::Beacon, 22),
        Start::Boot,
        &ROWS,
        &LAST,
    );
}

/// The commit of a full checkpoint counts as one without frames, and frames count from 1 after it.
#[test]
fn a_full_checkpoint_begins_anew(rt: HostRuntime) {
    static ROWS: [Row; 7] = [
        Row::Kept(1, 0, &[]),
        Row::Given(Handed::Cut(Cut::Full(1)), Ok(Staged::New)),
        Row::Commit,
        Row::Kept(1, 0, &[0]),
        Row::Given(Handed::Framed(1, 1, 2), Ok(Staged::New)),
        Row::Commit,
        Row::Kept(1, 2, &[0, 2]),
    ];
    plays(
        &rt,
        rt.alloc(),
        (Guest::Beacon, 22),
        Start::Empty,
        &ROWS,
        &End::Left,
    );
}

/// What is staged isn't kept yet, and a node that goes on doesn't get it.
#[test]
fn staged_frames_are_not_kept(rt: HostRuntime) {
    static ROWS: [Row; 4] = [
        Row::Given(Handed::Framed(1, 1, 1), Ok(Staged::New)),
        Row::Commit,
        Row::Given(Handed::Framed(2, 2, 2), Ok(Staged::New)),
        Row::Kept(1, 1, &[1]),
    ];
    static LAST: End = End::Kept(1, 1, &[1]);
    plays(
        &rt,
        rt.alloc(),
        (Guest::Beacon, 22),
        Start::Boot,
        &ROWS,
        &LAST,
    );
}
