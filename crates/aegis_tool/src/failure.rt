//! The errors of commands, and the exit statuses.

use crate::command::Place;
use crate::shown::{Lost, Name, Verified};
use aegis::record::{RECORD_BYTES, RecordError, RecordPosition};
use aegis_files::{BEGINNING_BYTES, FIRST, FileError};
use std::alloc::AllocError;
use std::io;
use thiserror::Error;

/// The error of a command. Each names the file, and says what to do where something can be done.
#[derive(Debug, Drop, Error)]
pub enum Failure<'a> {
    #[error("{0} is not a sealed file: its bytes 24 to 27 are not AGR2")]
    NotSealed(Name<'a>),
    #[error("{0}: the key is probably wrong, or the file is damaged at its start")]
    Key(Name<'a>),
    #[error("{0} is damaged: record {2} does not open{3}{1}")]
    Damaged(Name<'a>, Verified, u64, Lost),
    #[error("{0} is damaged: the head of a record is invalid{1}")]
    NoRecord(Name<'a>, Verified),
    #[error("{0} is truncated{1}")]
    Truncated(Name<'a>, Verified),
    #[error("{0} is truncated, or a length in it is damaged: at least {1} bytes are missing")]
    Missing(Name<'a>, u64),
    #[error("{0} is damaged: bytes follow its last record")]
    Trailing(Name<'a>),
    #[error("{0} is longer than a sealed file can be")]
    TooLong(Name<'a>),
    #[error("{0}: the key is wrong, or the file is damaged in or before record {1}{2}")]
    DamagedPart(Name<'a>, u64, Lost),
    #[error("{0} is damaged in or before the requested part")]
    NoPart(Name<'a>),
    #[error("{0} is truncated in or before the requested part")]
    TruncatedPart(Name<'a>),
    #[error("{0} has only {1} bytes of contents: --from is past their end")]
    PastBytes(Name<'a>, u64),
    #[error("{0} cannot be read: {1}")]
    Input(Name<'a>, io::Error),
    #[error("{0} is not a stream socket, so a part of a message may be lost: read from a pipe or a file")]
    Messages(Name<'a>),
    #[error("{0} is a folder: give a file, or seal a folder with tar -cf - FOLDER | hunkravy seal -k KEY - OUT")]
    Folder(Name<'a>),
    #[error("{0} cannot be written: {1}")]
    Output(Name<'a>, io::Error),
    #[error("cannot tell whether {0} was written, so check it: {1}")]
    Unseen(Name<'a>, io::Error),
    #[error("{0} is complete, but a power loss may undo it, since its folder cannot be synced: {1}")]
    Unsynced(Name<'a>, io::Error),
    #[error("{0} is complete, but .OUT.hunkravy-* beside it remains: delete that name")]
    SecondName(Name<'a>),
    #[error("{0} cannot be written: its folder, or its temporary file .OUT.hunkravy-*, was renamed, removed or mounted over")]
    Moved(Name<'a>),
    #[error("{0} exists: use --force to replace it")]
    Exists(Name<'a>),
    #[error("{0} exists: keygen never replaces a file, so give another name")]
    KeyExists(Name<'a>),
    #[error("{0} is a link to a missing file: give the path of that file")]
    DanglingLink(Name<'a>),
    #[error("{0} is a link to a file that has no path here: give another path")]
    NoNameHere(Name<'a>),
    #[error("{0} is a folder or a block device: give a file")]
    NoOutput(Name<'a>),
    #[error("{0} appeared or was exchanged during the run: give another OUT")]
    Exchanged(Name<'a>),
    #[error("{0} is also the input: input and output must be different files")]
    SameFile(Name<'a>),
    #[error("{0} is a pipe that only this run reads, so what is written would be lost: give another OUT")]
    OwnPipe(Name<'a>),
    #[error("{0} is where standard output or standard error leads: give another OUT, or - for standard output")]
    Redirected(Name<'a>),
    #[error("{0} is the key file {1}: writing it would destroy the key")]
    OverKey(Name<'a>, Name<'a>),
    #[error("{0} is the key file {1}: the input must be another file")]
    KeyAsInput(Name<'a>, Name<'a>),
    #[error("standard output is a terminal: give a file as OUT, redirect with >, or give - to print")]
    Terminal,
    #[error("the contents are not printable text: give a file as OUT, redirect with >, or give - to print")]
    NoText,
    #[error("the key cannot be read from {0}: {1}")]
    KeyFile(Name<'a>, io::Error),
    #[error("{0} holds no key: expected 64 hexadecimal digits")]
    NoKey(Name<'a>),
    #[error("the system returned no random bytes: {0}")]
    Random(io::Error),
    #[error("--from and --length need a file as IN")]
    NoFile,
    #[error("standard input can be used only once: give files for IN and for any second key")]
    StandardKey,
    // It is not printed.
    #[error("standard error leads to what is read")]
    Unsaid,
    #[error("no command: see hunkravy --help")]
    NoCommand,
    #[error("out of memory")]
    OutOfMemory,
}

impl From<AllocError> for Failure<'_> {
    fn from(_error: AllocError) -> Self {
        Failure::OutOfMemory
    }
}

/// The exit status for a file that is rejected.
const REFUSED: u8 = 1;

/// The exit status for a command line that is not understood.
pub const MISUSED: u8 = 2;

/// The exit status for an I/O error, if memory runs out, or for a file that is no key.
pub const FAILED: u8 = 3;

impl<'a> Failure<'a> {
    /// Returns the exit status.
    pub fn status(&self) -> u8 {
        match self {
            Failure::NotSealed(_)
            | Failure::Key(..)
            | Failure::Damaged(..)
            | Failure::NoRecord(..)
            | Failure::Truncated(..)
            | Failure::Missing(..)
            | Failure::Trailing(_)
            | Failure::TooLong(_)
            | Failure::DamagedPart(..)
            | Failure::NoPart(_)
            | Failure::TruncatedPart(_)
            | Failure::PastBytes(..) => REFUSED,
            Failure::NoCommand | Failure::NoFile | Failure::StandardKey => MISUSED,
            _ => FAILED,
        }
    }

    /// Returns the failure of reading `input` and writing `output`.
    pub fn of_files(error: FileError, input: Place<'a>, output: Place<'a>, seen: Seen) -> Self {
        let input = input.input_name();
        match error {
            FileError::Read(error) => match error.kind() {
                io::ErrorKind::IsADirectory => Failure::Folder(input),
                _ => Failure::Input(input, error),
            },
            FileError::Write(error) => match error.kind() {
                io::ErrorKind::InvalidData => Failure::NoText,
                _ => Failure::Output(output.output_name(), error),
            },
            FileError::TooLong => Failure::TooLong(input),
            FileError::Stream(fault) => Failure::of_stream(fault, input, seen),
        }
    }

    // The failure of a sealed file with this fault.
    fn of_stream(fault: RecordError, input: Name<'a>, seen: Seen) -> Self {
        let verified = seen.verified;
        match fault {
            RecordError::Header => Failure::NotSealed(input),
            RecordError::Damaged(0) => Failure::Key(input),
            RecordError::Damaged(number) => {
                Failure::Damaged(input, verified, number, seen.lost(number))
            }
            RecordError::Flag | RecordError::TooLong => Failure::NoRecord(input, verified),
            RecordError::Truncated => Failure::Truncated(input, verified),
            RecordError::Trailing => Failure::Trailing(input),
            RecordError::OutOfMemory => Failure::OutOfMemory,
        }
    }

    /// Returns the failure of opening a part of `input`, and writing `output`.
    pub fn of_part(error: PartError, input: Place<'a>, output: Place<'a>, seen: Seen) -> Self {
        let name = input.input_name();
        match error {
            PartError::PastBytes(bytes) => Failure::PastBytes(name, bytes),
            PartError::File(FileError::Stream(fault)) => match fault {
                RecordError::Damaged(number) if 0 < number && number == seen.start.number => {
                    Failure::DamagedPart(name, number, seen.lost(number))
                }
                RecordError::Flag | RecordError::TooLong => Failure::NoPart(name),
                RecordError::Truncated => Failure::TruncatedPart(name),
                _ => Failure::of_stream(fault, name, seen),
            },
            PartError::File(error) => Failure::of_files(error, input, output, seen),
        }
    }

    /// Returns the failure of finding the records of `input` by their lengths.
    pub fn of_outline(error: FileError, input: Place<'a>) -> Self {
        Failure::of_files(error, input, Place::Standard, Seen::NOTHING)
    }
}

/// The state of a sealed file when an error is found in it.
#[derive(Clone, Copy)]
pub struct Seen {
    /// How many bytes of the contents are right, if they were counted.
    pub verified: Verified,
    /// The record at which reading began.
    pub start: RecordPosition,
    /// How many bytes were read of the records from that one on, if they were counted.
    pub read: Option<u64>,
    /// At which byte of the contents the first record begins that was not opened.
    pub next: u64,
}

impl Seen {
    /// Nothing is known.
    pub const NOTHING: Seen = Seen {
        verified: Verified(None),
        start: FIRST,
        read: None,
        next: 0,
    };

    /// A whole file after `read` bytes of it were read, and `verified` bytes of its contents were verified.
    pub fn whole(read: u64, verified: u64) -> Self {
        Seen {
            verified: Verified(Some(verified)),
            start: FIRST,
            read: Some(read.saturating_sub(BEGINNING_BYTES as u64)),
            next: verified,
        }
    }

    // The bytes of the contents that the record of this number has, if it is the last one that was read.
    fn lost(&self, number: u64) -> Lost {
        let Some(read) = self.read else {
            return Lost(None);
        };
        let records = number.saturating_sub(self.start.number).saturating_add(1);
        let end = self
            .start
            .before
            .saturating_add(read)
            .saturating_sub(records.saturating_mul(RECORD_BYTES));
        Lost(Some((self.next, end)))
    }
}

/// The error of opening a part of the contents.
#[derive(Debug, Drop)]
pub enum PartError {
    File(FileError),
    /// The part begins after the last byte of the contents. Their length is the field.
    PastBytes(u64),
}

impl From<FileError> for PartError {
    fn from(error: FileError) -> PartError {
        PartError::File(error)
    }
}

/// Returns the result of printing to standard output.
pub fn printed<'a>(printing: io::Result<()>) -> Result<(), Failure<'a>> {
    match printing {
        Ok(()) => Ok(()),
        Err(error) => Err(Failure::Output(Name("standard output"), error)),
    }
}

/// A failure, and whether a part of the output was written and stays.
#[derive(Debug, Drop)]
pub struct Stopped<'a> {
    pub failure: Failure<'a>,
    pub incomplete: bool,
}

impl<'a> From<Failure<'a>> for Stopped<'a> {
    fn from(failure: Failure<'a>) -> Self {
        Stopped {
            failure,
            incomplete: false,
        }
    }
}
