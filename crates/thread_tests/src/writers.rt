//! Writers that fail, and when answers are written out.
use super::asserts::holds;
use script_player::sim::sim;
use script_player::streams::CheckedWriter;
use std::alloc::Global;
use std::io::{ErrorKind, Result as IoResult, Write};
use std::process::Abort;

/// A writer that takes so many bytes, and then fails.
#[derive(Drop)]
pub(super) struct Short(pub(super) usize);

impl Write for Short {
    fn write(&mut self, buf: &[u8]) -> IoResult<usize> {
        if self.0 < buf.len() {
            return Err(std::io::Error::from(ErrorKind::WriteZero));
        }
        self.0 -= buf.len();
        Ok(buf.len())
    }

    fn flush(&mut self) -> IoResult<()> {
        Ok(())
    }
}

/// A script played to a writer with so much room, of which it needs so much. Nothing is said.
fn assert_status(rt: &impl Abort, alloc: Global, script: &[u8], room: usize, needs: usize) {
    let mut out = CheckedWriter::new(Short(room));
    let mut err = CheckedWriter::new(Vec::new(alloc));
    let status = sim(alloc, script, &mut out, &mut err);
    holds(
        rt,
        "the status",
        (status == 1) == (room < needs) && status < 2,
    );
    holds(rt, "nothing is said", err.inner.is_empty());
}

/// A bad line that can't be named gives status 1 too.
fn assert_unsaid(rt: &impl Abort, alloc: Global) {
    let mut out = CheckedWriter::new(Vec::new(alloc));
    let mut err = CheckedWriter::new(Short(0));
    holds(
        rt,
        "the status",
        sim(alloc, b"cut", &mut out, &mut err) == 1,
    );
}

#[test]
fn a_write_that_fails_gives_status_1(rt: HostRuntime) {
    static ROOMS: [usize; 6] = [7, 15, 16, 1039, 1040, 1041];
    // `booted`, `cut 1 1` and `none`, each with its newline, are 20 bytes.
    for room in 0..21usize {
        let script = b"boot 2 1 1 idle\ncut\ntake 1\n";
        assert_status(&rt, rt.alloc(), script, room, 20);
    }
    // `booted` and the sector's line, each with its newline, are 1041 bytes.
    for room in &ROOMS {
        let script = b"boot 2 1 1 idle\nsector 0\n";
        assert_status(&rt, rt.alloc(), script, *room, 1041);
    }
    assert_unsaid(&rt, rt.alloc());
}

/// A writer that counts bytes, and notes the count at each flush. The flush of the number `fails`, from 0, fails.
#[derive(Drop)]
struct Flushed {
    bytes: usize,
    at: Vec<usize>,
    fails: usize,
}

impl Write for Flushed {
    fn write(&mut self, buf: &[u8]) -> IoResult<usize> {
        self.bytes = self.bytes.saturating_add(buf.len());
        Ok(buf.len())
    }

    fn flush(&mut self) -> IoResult<()> {
        if self.at.len() == self.fails {
            return Err(std::io::Error::from(ErrorKind::WriteZero));
        }
        self.at
            .push(self.bytes)
            .map_err(|_| std::io::Error::from(ErrorKind::OutOfMemory))
    }
}

/// Plays a script whose answers are written out at these counts of bytes, of which the one of this number fails, if there is one.
fn flushes_to(rt: &impl Abort, alloc: Global, script: &[u8], at: &[usize], fails: usize) {
    let mut out = CheckedWriter::new(Flushed {
        bytes: 0,
        at: Vec::new(alloc),
        fails,
    });
    let mut err = CheckedWriter::new(Vec::new(alloc));
    let status = sim(alloc, script, &mut out, &mut err);
    holds(
        rt,
        "the counts",
        Some(out.inner.at.as_slice()) == at.get(..fails),
    );
    holds(
        rt,
        "the status",
        (status == 1) == (fails < at.len()) && status < 2,
    );
}

/// Plays it with each of them failing, and with none.
fn flushes(rt: &impl Abort, alloc: Global, script: &[u8], at: &[usize]) {
    for fails in 0..at.len() + 1 {
        flushes_to(rt, alloc, script, at, fails);
    }
}

#[test]
fn answers_are_written_out_before_long_steps(rt: HostRuntime) {
    // `booted` and its newline are 7 bytes, `cut 1 1` and its newline 8 more.
    flushes(
        &rt,
        rt.alloc(),
        b"boot 2 1 1 idle\ncut\nstep 100000\n",
        &[7, 15, 28],
    );
    // Steps add up: of these lines the second and the fourth reach 100000.
    let script = b"boot 2 1 1 idle\nstep 60000\nstep 60000\nstep 60000\nstep 60000\n";
    flushes(&rt, rt.alloc(), script, &[7, 19, 45, 58]);
    // A script without steps is written out at the end.
    flushes(&rt, rt.alloc(), b"boot 2 1 1 idle\ncut\ncut\n", &[7, 23]);
}
