//! What a live session prints, and how it ends.
use super::asserts::{is_text, same};
use super::writers::Short;
use script_player::live::{live, live_prints_what_sim_prints};
use script_player::streams::{CheckedReader, CheckedWriter};
use std::alloc::Global;
use std::io::{ErrorKind, Read, Result as IoResult};
use std::process::Abort;

/// A reader that gives one piece after another, and then fails or ends.
#[derive(Drop)]
struct Pieces<'a> {
    pieces: &'a [&'a [u8]],
    next: usize,
    fails: bool,
}

impl<'a> Read for Pieces<'a> {
    fn read(&mut self, buf: &mut [u8]) -> IoResult<usize> {
        let Some(piece) = self.pieces.get(self.next) else {
            if self.fails {
                return Err(std::io::Error::from(ErrorKind::BrokenPipe));
            }
            return Ok(0);
        };
        self.next += 1;
        let mut left = *piece;
        left.read(buf)
    }
}

/// Plays these pieces, and compares the status and all that is printed.
fn answers(rt: &impl Abort, alloc: Global, pieces: &[&[u8]], fails: bool, printed: &str) {
    let mut input = CheckedReader::new(Pieces {
        pieces,
        next: 0,
        fails,
    });
    let mut out = CheckedWriter::new(Vec::new(alloc));
    let status = live(alloc, &mut input, &mut out);
    is_text(rt, out.inner.as_slice(), printed);
    same(rt, "the status", status.into(), u64::from(fails));
    live_prints_what_sim_prints();
}

#[test]
fn bad_lines_end_nothing(rt: HostRuntime) {
    let lines = b"x\nboot 2 1 1 idle\nstep 5\nsector 9\nshow now\nstep 2";
    let printed = "bad\nbooted\nsteps 5\nbad\nbad\nsteps 7\n";
    answers(&rt, rt.alloc(), &[lines], false, printed);
}

#[test]
fn lines_come_in_pieces(rt: HostRuntime) {
    let pieces: [&[u8]; 5] = [
        b"bo",
        b"ot 2 1 1 idle\nst",
        b"ep 3",
        b"\n\n# x\n",
        b"show\n",
    ];
    let printed = "booted\nsteps 3\nmode paired generation 1 pending 0 steps 3 entries 0\n";
    answers(&rt, rt.alloc(), &pieces, false, printed);
}

#[test]
fn lines_before_a_failed_read_are_answered(rt: HostRuntime) {
    answers(
        &rt,
        rt.alloc(),
        &[b"boot 2 1 1 idle\ncut\nstep 3"],
        true,
        "booted\ncut 1 1\n",
    );
}

/// The status of a session whose answers have so much room.
fn status_in(alloc: Global, room: usize) -> u8 {
    let pieces: [&[u8]; 1] = [b"boot 2 1 1 idle\ncut\n"];
    let mut input = CheckedReader::new(Pieces {
        pieces: &pieces,
        next: 0,
        fails: false,
    });
    let mut out = CheckedWriter::new(Short(room));
    live(alloc, &mut input, &mut out)
}

#[test]
fn a_failed_write_gives_status_1(rt: HostRuntime) {
    // `booted` and `cut 1 1`, each with its newline, are 15 bytes.
    for room in 0..17usize {
        let status = status_in(rt.alloc(), room);
        same(&rt, "the status", status.into(), u64::from(room < 15));
    }
}
