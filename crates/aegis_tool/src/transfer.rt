//! Sealing, opening and checking files, and generating keys.

use crate::command::{Place, Span, Transfer};
use crate::failure::{Failure, PartError, Seen, Stopped, printed};
use crate::key;
use crate::key::KeyFile;
use crate::output::{
    Target, is_terminal, open_target, refuse_errors, refuse_inputs, refuse_key,
    refuse_own_descriptor, refuse_terminal,
};
use crate::progress::{Counted, Display, Measured, buffered};
use crate::range::{Start, is_reachable, start_of};
use crate::shown::Name;
use crate::socket::keeps_messages;
use crate::terminal::TextOnly;
use aegis::aegis256::Key;
use aegis_files::{FileError, open_range, open_stream, rekey_stream, seal_stream};
use std::alloc::Global;
use std::fs::File;
use std::io::{IsTerminal, Read, Write};
use std::random::RandomSource;
use std::time::Instant;
use std::{env, io};

/// The context that every file is sealed under, with its key and its prefix.
const CONTEXT: [u8; 11] = *b"hunkravy v1";

// What is done with an input.
#[derive(Clone, Copy)]
enum Task {
    Seal {
        key: Key,
        prefix: [u8; 24],
    },
    Open {
        key: Key,
    },
    OpenPart {
        key: Key,
        start: Start,
    },
    Rekey {
        key: Key,
        new_key: Key,
        prefix: [u8; 24],
    },
}

// Opens a part of the contents. The input begins at the record that it starts in.
fn carry_part<R: Read, W: Write>(
    alloc: Global,
    key: &Key,
    start: &Start,
    input: &mut R,
    output: &mut W,
) -> Result<(), PartError> {
    let Start { prefix, range, .. } = *start;
    if !is_reachable(&range) {
        return Err(PartError::File(FileError::TooLong));
    }
    let opened = open_range(alloc, key, &prefix, &CONTEXT, range, input, output)?;
    start.reached(&opened)
}

// Reads the input, and writes its sealed file, its contents, or a part of them.
fn carry<R: Read, W: Write>(
    alloc: Global,
    task: &Task,
    input: &mut R,
    output: &mut W,
) -> Result<(), PartError> {
    match task {
        Task::Seal { key, prefix } => seal_stream(alloc, key, prefix, &CONTEXT, input, output)?,
        Task::Open { key } => open_stream(alloc, key, &CONTEXT, input, output)?,
        Task::OpenPart { key, start } => carry_part(alloc, key, start, input, output)?,
        Task::Rekey {
            key,
            new_key,
            prefix,
        } => rekey_stream(alloc, key, new_key, prefix, &CONTEXT, input, output)?,
    }
    Ok(())
}

// The state of a sealed file after a task has failed that wrote `written` bytes.
fn seen<R: Read + Drop>(task: &Task, input: &Counted<'_, R>, written: u64) -> Seen {
    match task {
        Task::Open { .. } => Seen::whole(input.count(), written),
        Task::OpenPart { start, .. } => {
            let position = start.range.position;
            Seen {
                start: position,
                read: Some(input.count()),
                next: if written == 0 {
                    position.before
                } else {
                    start.from.saturating_add(written)
                },
                ..Seen::NOTHING
            }
        }
        Task::Seal { .. } | Task::Rekey { .. } => Seen::NOTHING,
    }
}

// Carries out a task, and returns how many bytes were written.
fn carry_out<'a, R: Read + Drop, W: Write + Drop>(
    rt: &HostRuntime,
    task: &Task,
    paths: Transfer<'a>,
    input: &mut Counted<'_, R>,
    output: W,
) -> Result<u64, Stopped<'a>> {
    let mut output = Measured::new(output);
    let Err(error) = carry(rt.alloc(), task, input, &mut output) else {
        return Ok(output.written);
    };
    let seen = seen(task, input, output.written);
    let failure = match (task, error) {
        (Task::Seal { .. } | Task::Open { .. } | Task::Rekey { .. }, PartError::File(error)) => {
            Failure::of_files(error, paths.input, paths.output, seen)
        }
        (_, error) => Failure::of_part(error, paths.input, paths.output, seen),
    };
    // Of the write that has failed a part may be there.
    let incomplete = output.written > 0 || matches!(failure, Failure::Output(..));
    Err(Stopped {
        failure,
        incomplete,
    })
}

// Reads the input, and writes the output, which is whole or is said to be incomplete.
fn write_to<'a, R: Read + Drop>(
    rt: &HostRuntime,
    task: &Task,
    paths: Transfer<'a>,
    keys: &[&KeyFile<'a>],
    input: &mut Counted<'_, R>,
) -> Result<(), Stopped<'a>> {
    let name = match paths.output {
        Place::File(name) => name,
        Place::Default if rt.stdout().is_terminal() => {
            carry_out(rt, task, paths, input, TextOnly::new(rt.stdout()))?;
            return Ok(());
        }
        _ => {
            carry_out(rt, task, paths, input, rt.stdout())?;
            return Ok(());
        }
    };
    match open_target(rt, name, paths.force, paths.quiet)? {
        Target::Direct(file) => {
            carry_out(rt, task, paths, input, file)?;
            Ok(())
        }
        Target::Part(mut part) => {
            let written = match part.refuse_inputs(rt, paths, keys) {
                Ok(()) => match carry_out(rt, task, paths, input, &mut part.file) {
                    Ok(_) => Ok(()),
                    Err(stopped) => Err(stopped.failure),
                },
                Err(failure) => Err(failure),
            };
            Ok(part.end(rt, written)?)
        }
    }
}

// Whether the terminal only shows what is written to it, and acts on no escape sequence.
fn is_dumb(rt: &HostRuntime) -> bool {
    match env::var(rt, "TERM") {
        Ok(name) => name.as_str() == "dumb",
        Err(_) => false,
    }
}

// Progress is shown on standard error if it is a terminal that can keep it in one row.
fn display<'r>(rt: &'r HostRuntime, quiet: bool, length: Option<u64>) -> Option<Display<'r>> {
    if quiet || !rt.stderr().is_terminal() || is_dumb(rt) {
        return None;
    }
    let begun = Instant::now(rt).ok()?;
    Some(Display {
        terminal: rt,
        begun,
        length,
    })
}

// The length of a file, if it is a regular one.
fn length_of(file: &File) -> Option<u64> {
    let found = file.metadata().ok()?;
    if found.is_file() {
        Some(found.len())
    } else {
        None
    }
}

// Opens an input of this name. A named output may lead elsewhere then: that may have taken long, if it is a pipe, or it
// has the descriptor that the output names.
fn open_input<'a>(
    rt: &HostRuntime,
    name: &'a str,
    paths: Transfer<'a>,
    keys: &[&KeyFile<'a>],
) -> Result<File, Failure<'a>> {
    let file = File::open(rt, name).map_err(|error| Failure::Input(Name(name), error))?;
    if let Place::File(_) = paths.output {
        refuse_inputs(rt, paths, keys)?;
        refuse_own_descriptor(rt, paths)?;
    }
    Ok(file)
}

// Carries out a task on the input and the output that the paths name. No progress is shown in an output on a terminal.
fn transfer<'a>(
    rt: &HostRuntime,
    task: &Task,
    paths: Transfer<'a>,
    keys: &[&KeyFile<'a>],
) -> Result<(), Stopped<'a>> {
    let quiet = paths.quiet || is_terminal(rt, paths.output);
    match paths.input {
        Place::File(name) => {
            let file = open_input(rt, name, paths, keys)?;
            let shown = display(rt, quiet, length_of(&file));
            let mut input = buffered(rt, file, shown)?;
            let written = write_to(rt, task, paths, keys, &mut input);
            input.end();
            written
        }
        _ => {
            let mut input = buffered(rt, rt.stdin(), display(rt, quiet, None))?;
            let written = write_to(rt, task, paths, keys, &mut input);
            input.end();
            written
        }
    }
}

// Reads the key, which may not come from the input.
fn key_of<'a>(rt: &HostRuntime, paths: Transfer<'a>) -> Result<KeyFile<'a>, Failure<'a>> {
    let key = match paths.input {
        Place::Default | Place::Standard if paths.key == key::STANDARD => {
            return Err(Failure::StandardKey);
        }
        _ => key::read(rt, paths.key, paths.quiet)?,
    };
    refuse_key(rt, paths.input, &key)?;
    Ok(key)
}

// Generates the prefix of a new sealed file.
fn draw_prefix<'a>(rt: &HostRuntime) -> Result<[u8; 24], Failure<'a>> {
    let mut prefix = [0; 24];
    match rt.fill_bytes(&mut prefix) {
        Ok(()) => Ok(prefix),
        Err(error) => Err(Failure::Random(error)),
    }
}

// Returns an error if the input may lose bytes. The other commands would see that.
fn refuse_messages<'a>(rt: &HostRuntime, input: Place<'a>) -> Result<(), Failure<'a>> {
    match input {
        Place::Default | Place::Standard if keeps_messages(rt)? => Err(Failure::Messages(
            input.input_name(),
        )),
        _ => Ok(()),
    }
}

/// Seals a file under a random prefix.
pub fn seal<'a>(rt: &HostRuntime, paths: Transfer<'a>) -> Result<(), Stopped<'a>> {
    let key = key_of(rt, paths)?;
    refuse_inputs(rt, paths, &[&key])?;
    refuse_terminal(rt, paths.output)?;
    refuse_messages(rt, paths.input)?;
    let prefix = draw_prefix(rt)?;
    let task = Task::Seal {
        key: key.key,
        prefix,
    };
    transfer(rt, &task, paths, &[&key])
}

/// Opens a sealed file. On standard output the contents are written as they are opened, so the exit status must be
/// checked before they are used.
pub fn open<'a>(rt: &HostRuntime, paths: Transfer<'a>) -> Result<(), Stopped<'a>> {
    let key = key_of(rt, paths)?;
    refuse_inputs(rt, paths, &[&key])?;
    transfer(rt, &Task::Open { key: key.key }, paths, &[&key])
}

/// Opens a part of the contents of a sealed file, without the rest.
pub fn open_part<'a>(rt: &HostRuntime, span: Span, paths: Transfer<'a>) -> Result<(), Stopped<'a>> {
    let key = key_of(rt, paths)?;
    let keys = &[&key];
    refuse_inputs(rt, paths, keys)?;
    let Place::File(name) = paths.input else {
        return Err(Stopped::from(Failure::NoFile));
    };
    let mut file = open_input(rt, name, paths, keys)?;
    match start_of(&mut file, span) {
        Ok(start) => {
            let key = key.key;
            let mut input = Counted::new(file, None);
            write_to(rt, &Task::OpenPart { key, start }, paths, keys, &mut input)
        }
        Err(error) => {
            let failure = Failure::of_part(error, paths.input, paths.output, Seen::NOTHING);
            Err(Stopped::from(failure))
        }
    }
}

/// Seals the contents of a sealed file under another key and a random prefix.
pub fn rekey<'a>(
    rt: &HostRuntime,
    new_key: &'a str,
    paths: Transfer<'a>,
) -> Result<(), Stopped<'a>> {
    if new_key == key::STANDARD && paths.key == key::STANDARD {
        return Err(Stopped::from(Failure::StandardKey));
    }
    refuse_errors(rt, key::place_of(new_key))?;
    let key = key_of(rt, paths)?;
    let new = key_of(
        rt,
        Transfer {
            key: new_key,
            ..paths
        },
    )?;
    refuse_inputs(rt, paths, &[&key, &new])?;
    refuse_terminal(rt, paths.output)?;
    let task = Task::Rekey {
        key: key.key,
        new_key: new.key,
        prefix: draw_prefix(rt)?,
    };
    transfer(rt, &task, paths, &[&key, &new])
}

// Reads a sealed file, and discards its contents. Returns how many bytes it has.
fn check_from<'a, R: Read + Drop>(
    rt: &HostRuntime,
    task: &Task,
    paths: Transfer<'a>,
    input: &mut Counted<'_, R>,
) -> Result<u64, Failure<'a>> {
    carry_out(rt, task, paths, input, io::sink()).map_err(|stopped| stopped.failure)
}

/// Opens a sealed file without writing its contents, and prints how many bytes it has.
pub fn check<'a>(rt: &HostRuntime, paths: Transfer<'a>) -> Result<(), Failure<'a>> {
    let key = key_of(rt, paths)?;
    if !paths.quiet {
        refuse_inputs(rt, paths, &[&key])?;
    }
    let task = Task::Open { key: key.key };
    let bytes = match paths.input {
        Place::File(name) => {
            let file = File::open(rt, name).map_err(|error| Failure::Input(Name(name), error))?;
            let shown = display(rt, paths.quiet, length_of(&file));
            let mut input = buffered(rt, file, shown)?;
            let checked = check_from(rt, &task, paths, &mut input);
            input.end();
            checked?
        }
        _ => {
            let mut input = buffered(rt, rt.stdin(), display(rt, paths.quiet, None))?;
            let checked = check_from(rt, &task, paths, &mut input);
            input.end();
            checked?
        }
    };
    if paths.quiet {
        return Ok(());
    }
    printed(println!(rt; "{bytes} bytes of contents, all verified"))
}

// The failure of `keygen`, which has no `--force`.
fn key_exists<'a>(failure: Failure<'a>) -> Failure<'a> {
    match failure {
        Failure::Exists(name) => Failure::KeyExists(name),
        _ => failure,
    }
}

/// Writes a random key.
pub fn keygen<'a>(rt: &HostRuntime, output: Place<'a>) -> Result<(), Failure<'a>> {
    refuse_terminal(rt, output)?;
    let text = key::draw(rt)?;
    let failed = |error| Failure::Output(output.output_name(), error);
    let name = match output {
        Place::File(name) => name,
        _ => return rt.stdout().write_all(text.as_bytes()).map_err(failed),
    };
    match open_target(rt, name, false, false).map_err(key_exists)? {
        Target::Direct(mut file) => file.write_all(text.as_bytes()).map_err(failed),
        Target::Part(mut part) => {
            let written = part.file.write_all(text.as_bytes()).map_err(failed);
            part.end(rt, written).map_err(key_exists)
        }
    }
}
