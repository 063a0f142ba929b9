//! What an image answers to checkpoints of version 1, which carry no frames.

use super::rows::{End, Handed, Row, Start, plays};
use crate::checkpoints::Cut;
use crate::guests::Guest;
use backup_image::{ImageError, Staged};

/// The beacon's delta of version 1 is refused before anything else is asked of it, by an image at boot as by an empty one.
#[test]
fn an_old_delta_is_refused(rt: HostRuntime) {
    static AT_BOOT: [Row; 3] = [
        Row::Given(
            Handed::Old(Cut::Delta(1, 1), 22),
            Err(ImageError::OldVersion),
        ),
        Row::Commit,
        Row::Stands((1, 0), 0, (0, 0)),
    ];
    static EMPTY: [Row; 1] = [Row::Given(
        Handed::Old(Cut::Delta(1, 1), 22),
        Err(ImageError::OldVersion),
    )];
    plays(
        &rt,
        rt.alloc(),
        (Guest::Beacon, 22),
        Start::Boot,
        &AT_BOOT,
        &End::Left,
    );
    plays(
        &rt,
        rt.alloc(),
        (Guest::Beacon, 22),
        Start::Empty,
        &EMPTY,
        &End::Left,
    );
}

/// A full one of version 1 fills an empty image.
#[test]
fn an_old_full_checkpoint_is_taken(rt: HostRuntime) {
    static ROWS: [Row; 3] = [
        Row::Given(Handed::Old(Cut::Full(3), 4), Ok(Staged::New)),
        Row::Commit,
        Row::Stands((3, 0), 22, (0, 0)),
    ];
    plays(
        &rt,
        rt.alloc(),
        (Guest::Beacon, 22),
        Start::Empty,
        &ROWS,
        &End::Left,
    );
}
