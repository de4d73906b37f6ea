//! Writing.

ghost use Rattle.std.specs.Prelude.{◌≡◌, ℕ, IfErr, OnErr, OnOk, take};
ghost use Rattle.std.specs.Io.KnownBytes.{Appends, Keeps};
ghost use Rattle.aegis_files.specs.Opening.{IsWriteError};

use crate::error::FileError;
use std::io;
use std::io::{ErrorKind, Write};

// Writes all bytes. An interrupted write is tried again. After an error a beginning of the bytes was written.
#[tactic(auto, using(std::proofs::lemmas::Grind::common_steps, crate::proofs::Pieces::write_laws))]
fn write_whole<W: Write>(output: &mut W, bytes: &[u8]) -> io::Result<()>
    ensures ok { OnOk result (Appends (W.contents output.old) (W.contents output.new) bytes.now) }
    ensures beginning { OnErr result ((n : ℕ)
        × Appends (W.contents output.old) (W.contents output.new) (take n bytes.now)) }
{
    let mut sent = 0;
    'writes: for _ in 0..u64::MAX {
        if sent == bytes.len() {
            return Ok(());
        }
        match output.write(&bytes[sent..]) {
            Ok(0) => return Err(io::Error::from(ErrorKind::WriteZero)),
            Ok(count) => sent += count,
            Err(error) => {
                if error.kind() != ErrorKind::Interrupted {
                    return Err(error);
                }
            }
        }
    }
    Err(io::Error::from(ErrorKind::TimedOut))
}

/// Writes all bytes. Returns [`FileError::Write`] if a write fails; a beginning of the bytes was written then.
pub fn write<W: Write>(output: &mut W, bytes: &[u8]) -> Result<(), FileError>
    ensures ok { OnOk result (Appends (W.contents output.old) (W.contents output.new) bytes.now) }
    ensures err { IfErr result IsWriteError }
    ensures beginning { OnErr result ((n : ℕ)
        × Appends (W.contents output.old) (W.contents output.new) (take n bytes.now)) }
{
    match write_whole(output, bytes) {
        Ok(()) => Ok(()),
        Err(error) => Err(FileError::Write(error)),
    }
}

/// Writes the last bytes, and flushes the writer.
#[tactic(auto, using(crate::proofs::Pieces::last_laws))]
pub fn write_last<W: Write>(output: &mut W, bytes: &[u8]) -> Result<(), FileError>
    ensures ok { OnOk result (Appends (W.contents output.old) (W.contents output.new) bytes.now) }
    ensures err { IfErr result IsWriteError }
    ensures beginning { OnErr result ((n : ℕ)
        × Appends (W.contents output.old) (W.contents output.new) (take n bytes.now)) }
{
    write(output, bytes)?;
    flush(output)
}

// Flushes the writer.
fn flush<W: Write>(output: &mut W) -> Result<(), FileError>
    ensures kept { Keeps (W.contents output.old) (W.contents output.new) }
    ensures err { IfErr result IsWriteError }
{
    match output.flush() {
        Ok(()) => Ok(()),
        Err(error) => Err(FileError::Write(error)),
    }
}
