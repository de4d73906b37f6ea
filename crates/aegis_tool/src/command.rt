//! The command line.

use crate::shown::Name;
use clap::{Arg, ArgAction, ArgMatches, Command, value_parser};
use std::alloc::{AllocError, Global};

/// A file, or standard input or output.
#[derive(Clone, Copy)]
pub enum Place<'a> {
    /// Standard input or output, since no file is named.
    Default,
    /// Standard input or output, which `-` names.
    Standard,
    File(&'a str),
}

impl<'a> Place<'a> {
    /// Returns the name of an input for messages.
    pub fn input_name(self) -> Name<'a> {
        match self {
            Place::File(name) => Name(name),
            _ => Name("standard input"),
        }
    }

    /// Returns the name of an output for messages.
    pub fn output_name(self) -> Name<'a> {
        match self {
            Place::File(name) => Name(name),
            _ => Name("standard output"),
        }
    }
}

/// The key file, the input and the output of a command.
#[derive(Clone, Copy)]
pub struct Transfer<'a> {
    /// The name of the key file.
    pub key: &'a str,
    pub input: Place<'a>,
    pub output: Place<'a>,
    /// Whether an output file that exists is replaced.
    pub force: bool,
    /// Whether only errors are printed.
    pub quiet: bool,
    /// Whether there was nothing at the output's name when the run began.
    pub is_new: bool,
}

/// The part of the contents that is opened: at most `length` bytes, from byte `from` on.
#[derive(Clone, Copy)]
pub struct Span {
    pub from: u64,
    pub length: u64,
}

/// The action that a command line asks for.
#[derive(Clone, Copy)]
pub enum Action<'a> {
    Keygen {
        output: Place<'a>,
    },
    Seal(Transfer<'a>),
    Open(Transfer<'a>),
    /// Opens a part of the contents.
    OpenPart {
        span: Span,
        paths: Transfer<'a>,
    },
    Rekey {
        new_key: &'a str,
        paths: Transfer<'a>,
    },
    Check(Transfer<'a>),
    Info(Transfer<'a>),
}

fn key_argument<'a>(alloc: Global) -> Arg<'a> {
    Arg::new(alloc, "KEY")
        .long("key-file")
        .short('k')
        .required(true)
        .help("The key file; - for standard input")
}

fn new_key_argument<'a>(alloc: Global) -> Arg<'a> {
    Arg::new(alloc, "NEW")
        .long("new-key-file")
        .short('n')
        .required(true)
        .help("The new key file; - for standard input")
}

fn from_argument<'a>(alloc: Global) -> Arg<'a> {
    Arg::new(alloc, "BYTE")
        .long("from")
        .allow_negative_numbers(true)
        .value_parser(value_parser!(u64))
        .help("Start at this byte of the contents (counted from 0)")
}

fn length_argument<'a>(alloc: Global) -> Arg<'a> {
    Arg::new(alloc, "N")
        .long("length")
        .allow_negative_numbers(true)
        .value_parser(value_parser!(u64))
        .help("Write at most N bytes")
}

fn input_argument<'a>(alloc: Global) -> Arg<'a> {
    Arg::new(alloc, "IN").help("The file to read; standard input if - or omitted")
}

fn output_argument<'a>(alloc: Global) -> Arg<'a> {
    Arg::new(alloc, "OUT").help("The file to write; standard output if - or omitted")
}

fn force_argument<'a>(alloc: Global) -> Arg<'a> {
    Arg::new(alloc, "force")
        .action(ArgAction::SetTrue)
        .long("force")
        .help("Replace OUT if it exists")
}

fn quiet_argument<'a>(alloc: Global) -> Arg<'a> {
    Arg::new(alloc, "quiet")
        .action(ArgAction::SetTrue)
        .long("quiet")
        .short('q')
        .help("Print only errors")
}

// Adds the arguments that name a part of the contents.
fn with_part<'a>(alloc: Global, command: Command<'a>) -> Result<Command<'a>, AllocError> {
    command
        .arg(from_argument(alloc))?
        .arg(length_argument(alloc))
}

fn keygen<'a>(alloc: Global) -> Result<Command<'a>, AllocError> {
    Command::new(alloc, "keygen")
        .about("Generates a random key")
        .arg(output_argument(alloc))
}

// Adds the arguments of a command that reads one file and writes another.
fn with_files<'a>(alloc: Global, command: Command<'a>) -> Result<Command<'a>, AllocError> {
    command
        .arg(force_argument(alloc))?
        .arg(quiet_argument(alloc))?
        .arg(input_argument(alloc))?
        .arg(output_argument(alloc))
}

fn seal<'a>(alloc: Global) -> Result<Command<'a>, AllocError> {
    let command = Command::new(alloc, "seal")
        .about("Encrypts a file under a key")
        .arg(key_argument(alloc))?;
    with_files(alloc, command)
}

fn open<'a>(alloc: Global) -> Result<Command<'a>, AllocError> {
    let command = Command::new(alloc, "open")
        .about("Decrypts a sealed file, or a part of it")
        .arg(key_argument(alloc))?;
    with_files(alloc, with_part(alloc, command)?)
}

fn rekey<'a>(alloc: Global) -> Result<Command<'a>, AllocError> {
    let command = Command::new(alloc, "rekey")
        .about("Encrypts the contents of a sealed file under another key")
        .arg(key_argument(alloc))?
        .arg(new_key_argument(alloc))?;
    with_files(alloc, command)
}

fn check<'a>(alloc: Global) -> Result<Command<'a>, AllocError> {
    Command::new(alloc, "check")
        .about("Verifies a whole sealed file and writes nothing")
        .arg(key_argument(alloc))?
        .arg(quiet_argument(alloc))?
        .arg(input_argument(alloc))
}

fn info<'a>(alloc: Global) -> Result<Command<'a>, AllocError> {
    Command::new(alloc, "info")
        .about("Prints how many records and bytes a file has; needs no key, verifies nothing")
        .arg(quiet_argument(alloc))?
        .arg(input_argument(alloc))
}

// Adds a command to the program's.
fn with_command<'a>(
    program: Command<'a>,
    command: Result<Command<'a>, AllocError>,
) -> Result<Command<'a>, AllocError> {
    program.subcommand(command?)
}

/// The commands and their arguments. `--help` ends with the notes.
pub fn command<'a>(
    alloc: Global,
    version: &'a str,
    notes: &'a str,
) -> Result<Command<'a>, AllocError> {
    let program = Command::new(alloc, "hunkravy")
        .about("Encrypts and decrypts files with AEGIS-256")
        .version(version)
        .after_help(notes)
        .subcommand_required(true)
        .arg_required_else_help(true);
    let program = with_command(program, keygen(alloc))?;
    let program = with_command(program, seal(alloc))?;
    let program = with_command(program, open(alloc))?;
    let program = with_command(program, rekey(alloc))?;
    let program = with_command(program, check(alloc))?;
    with_command(program, info(alloc))
}

fn name<'a>(matches: &ArgMatches<'a>, id: &str) -> &'a str {
    matches.get_str(id).unwrap_or("-")
}

fn place_of<'a>(matches: &ArgMatches<'a>, id: &str) -> Place<'a> {
    match matches.get_str(id) {
        None => Place::Default,
        Some("-") => Place::Standard,
        Some(file) => Place::File(file),
    }
}

fn transfer_of<'a>(matches: &ArgMatches<'a>) -> Transfer<'a> {
    Transfer {
        key: name(matches, "KEY"),
        input: place_of(matches, "IN"),
        output: place_of(matches, "OUT"),
        force: matches.get_flag("force"),
        quiet: matches.get_flag("quiet"),
        is_new: false,
    }
}

// The action of `open`.
fn open_of<'a>(found: &ArgMatches<'a>) -> Action<'a> {
    let paths = transfer_of(found);
    let from: Option<u64> = found.get_one("BYTE");
    let length: Option<u64> = found.get_one("N");
    if from.is_none() && length.is_none() {
        return Action::Open(paths);
    }
    let span = Span {
        from: from.unwrap_or(0),
        length: length.unwrap_or(u64::MAX),
    };
    Action::OpenPart { span, paths }
}

/// Returns the action of the arguments, or `None` if there is no subcommand, which [`command`] does not allow.
pub fn parse<'a>(matches: &ArgMatches<'a>) -> Option<Action<'a>> {
    let (subcommand, found) = matches.subcommand()?;
    match subcommand {
        "keygen" => Some(Action::Keygen {
            output: place_of(found, "OUT"),
        }),
        "seal" => Some(Action::Seal(transfer_of(found))),
        "open" => Some(open_of(found)),
        "rekey" => Some(Action::Rekey {
            new_key: name(found, "NEW"),
            paths: transfer_of(found),
        }),
        "check" => Some(Action::Check(transfer_of(found))),
        "info" => Some(Action::Info(transfer_of(found))),
        _ => None,
    }
}
