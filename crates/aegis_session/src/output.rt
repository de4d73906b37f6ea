//! Writing. An interruption counts as a failure.

ghost use Rattle.std.specs.Prelude.{◌≡◌, ℕ, OnErr, OnOk, take};
ghost use Rattle.std.specs.Io.KnownBytes.{Appends};

use std::io;
use std::io::{ErrorKind, Write};

/// Writes all bytes. An interrupted write is a failure, and so is a write of no byte.
pub fn write_whole<W: Write>(output: &mut W, bytes: &[u8]) -> io::Result<()>
    ensures ok { OnOk result (Appends (W.contents output.old) (W.contents output.new) bytes.now) }
    ensures err { OnErr result ((n : ℕ)
        × Appends (W.contents output.old) (W.contents output.new) (take n bytes.now)) }
{
    let mut sent = 0;
    'writes: while sent < bytes.len() {
        let count = output.write(&bytes[sent..])?;
        if count == 0 {
            return Err(io::Error::from(ErrorKind::WriteZero));
        }
        sent += count;
    }
    Ok(())
}
