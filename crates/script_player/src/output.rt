//! What is written out, and how much of it where a write fails.

ghost use Rattle.std.specs.Prelude.{OnOk, OnErr};
ghost use Rattle.std.specs.Io.KnownBytes.{Appends};
ghost use Rattle.script_player.specs.Output.{AppendsFront};

use std::io;
use std::io::{Error, ErrorKind, Write};

/// How many interrupted writes of one text are tried again.
const MOST_TRIES: u32 = 1000;

/// Writes all the bytes.
///
/// # Errors
///
/// That of the writer, where it fails, takes no byte, or is interrupted again and again. The first of the bytes were written then, or none.
pub fn put<W: Write>(out: &mut W, bytes: &[u8]) -> io::Result<()>
    ensures ok { OnOk result (Appends (W.contents out.old) (W.contents out.new) bytes.now) }
    ensures err { OnErr result (AppendsFront (W.contents out.old) (W.contents out.new) bytes.now) }
{
    let mut written = 0;
    let mut tries = 0;
    while written < bytes.len() {
        match out.write(&bytes[written..]) {
            Ok(0) => return Err(Error::from(ErrorKind::WriteZero)),
            Ok(count) => written += count,
            Err(error) => {
                if error.kind() != ErrorKind::Interrupted || tries == MOST_TRIES {
                    return Err(error);
                }
                tries += 1;
            }
        }
    }
    Ok(())
}
