//! What the program reads from and writes to, and whether that failed.

ghost use Rattle.std.specs.Prelude.{[], List, ℕ};
ghost use Rattle.std.specs.Io.{ReadsAtMost};
ghost use Rattle.std.specs.Io.KnownBytes.{ReadConsumes};
ghost use Rattle.script_player.specs.Session.{memory_answer};
ghost use Rattle.script_player.specs.Streams.{Reading, Writing, IsPut, IsRead};

use crate::output::put;
use crate::replies::write_refusal;
use crate::text::Text;
use memory_wanted::MemoryWanted;
use pair_core::Refusal;
use std::io;
use std::io::{ErrorKind, Read, Write};

/// How many times an interrupted read is tried again.
const MOST_TRIES: u32 = 1000;

/// A read or a write failed.
#[derive(Clone, Copy, Debug, Drop)]
pub struct Failed;

/// A writer that says whether a write failed.
pub trait Sink {
    /// What was written, where that is known, and whether a write failed.
    ghost written: { Self → Writing };

    /// What it prints where memory was wanted. That is its own: who writes to any sink knows nothing of it, and so has only
    /// [`refuse`](Sink::refuse), and a want of memory, to print it.
    ghost no_memory: { List ℕ };

    /// Writes all the bytes.
    ///
    /// # Errors
    ///
    /// Where a write failed, this one or an earlier one. The first of the bytes were written then, or none.
    fn put(&mut self, bytes: &[u8]) -> Result<(), Failed>
        ensures { IsPut (written self.old) (written self.new) result bytes.now };

    /// Writes that memory was wanted.
    ///
    /// # Errors
    ///
    /// Where a write failed, this one or an earlier one. The first of the bytes were written then, or none.
    fn refuse(&mut self, wanted: MemoryWanted) -> Result<(), Failed>
        ensures { IsPut (written self.old) (written self.new) result no_memory };

    /// Writes out what was written.
    ///
    /// # Errors
    ///
    /// Where a write failed, this one or an earlier one.
    fn show(&mut self) -> Result<(), Failed>
        ensures { IsPut (written self.old) (written self.new) result [] };
}

/// A writer of std, which fails from its first failure on.
#[derive(Drop)]
pub struct CheckedWriter<W> {
    pub inner: W,
    pub has_failed: bool,
}

impl<W> CheckedWriter<W> {
    /// One that has not failed.
    pub fn new(inner: W) -> CheckedWriter<W> {
        CheckedWriter {
            inner,
            has_failed: false,
        }
    }
}

impl<W: Write> Sink for CheckedWriter<W> {
    ghost written = { λ w. record { bytes = W.contents w.inner; failed = w.has_failed } };

    ghost no_memory = { memory_answer };

    fn put(&mut self, bytes: &[u8]) -> Result<(), Failed> {
        if self.has_failed {
            return Err(Failed);
        }
        if put(&mut self.inner, bytes).is_err() {
            self.has_failed = true;
            return Err(Failed);
        }
        Ok(())
    }

    fn refuse(&mut self, wanted: MemoryWanted) -> Result<(), Failed> {
        let mut text = Text::new();
        write_refusal(&mut text, &Refusal::NoMemory(wanted));
        self.put(text.as_slice())
    }

    fn show(&mut self) -> Result<(), Failed> {
        if self.has_failed {
            return Err(Failed);
        }
        if self.inner.flush().is_err() {
            self.has_failed = true;
            return Err(Failed);
        }
        Ok(())
    }
}

/// A reader that says whether a read failed.
pub trait Source {
    /// What it has still to give, where that is known, and whether a read failed.
    ghost reading: { Self → Reading };

    /// Reads bytes into the front of the buffer, as many as there are by now. Answers how many: none at the end.
    ///
    /// # Errors
    ///
    /// Where a read failed, this one or an earlier one. Nothing was read then.
    fn read(&mut self, buffer: &mut [u8]) -> Result<usize, Failed>
        ensures bound { ReadsAtMost result buffer.new }
        ensures bytes { IsRead (reading self.old) (reading self.new) result buffer.new };
}

/// A reader of std, which fails from its first failure on.
#[derive(Drop)]
pub struct CheckedReader<R> {
    pub inner: R,
    pub has_failed: bool,
    /// How many more reads it takes on: so many that a program never comes to the last one.
    pub reads: u64,
}

impl<R> CheckedReader<R> {
    /// One that has not failed.
    pub fn new(inner: R) -> CheckedReader<R> {
        CheckedReader {
            inner,
            has_failed: false,
            reads: u64::MAX,
        }
    }
}

impl<R: Read> Source for CheckedReader<R> {
    ghost reading = { λ r. record { left = R.remaining r.inner; failed = r.has_failed; reads = r.reads } };

    fn read(&mut self, buffer: &mut [u8]) -> Result<usize, Failed> {
        if self.has_failed || self.reads == 0 {
            self.has_failed = true;
            return Err(Failed);
        }
        self.reads -= 1;
        let Ok(count) = read_through(&mut self.inner, buffer) else {
            self.has_failed = true;
            return Err(Failed);
        };
        Ok(count)
    }
}

/// Reads, and again where that is interrupted.
///
/// # Errors
///
/// That of the reader.
fn read_through<R: Read>(input: &mut R, buffer: &mut [u8]) -> io::Result<usize>
    ensures bound { ReadsAtMost result buffer.new }
    ensures bytes { ReadConsumes (R.remaining input.old) (R.remaining input.new) result buffer.new }
{
    for _ in 0..MOST_TRIES {
        match input.read(buffer) {
            Err(error) if error.kind() == ErrorKind::Interrupted => {}
            done => return done,
        }
    }
    input.read(buffer)
}
