//! The file tool: its command line, and what it does with files.
#![tactic(auto)]

mod command;
mod failure;
mod info;
mod key;
mod notes;
mod output;
mod progress;
mod range;
mod shown;
mod socket;
mod terminal;
mod transfer;

use command::{Action, command, parse};
use failure::{FAILED, Failure, MISUSED, Stopped, printed};
use notes::NOTES;
use output::at_the_start;
use shown::Word;
use std::alloc::AllocError;
use std::io::ErrorKind;

// The version of the program, which is that of the C header too.
const VERSION: &str = "0.1.0";

fn act<'a>(rt: &HostRuntime, action: Option<Action<'a>>) -> Result<(), Stopped<'a>> {
    match action {
        Some(Action::Keygen { output }) => Ok(transfer::keygen(rt, output)?),
        Some(Action::Seal(paths)) => transfer::seal(rt, at_the_start(rt, paths)?),
        Some(Action::Open(paths)) => transfer::open(rt, at_the_start(rt, paths)?),
        Some(Action::OpenPart { span, paths }) => {
            transfer::open_part(rt, span, at_the_start(rt, paths)?)
        }
        Some(Action::Rekey { new_key, paths }) => {
            transfer::rekey(rt, new_key, at_the_start(rt, paths)?)
        }
        Some(Action::Check(paths)) => Ok(transfer::check(rt, at_the_start(rt, paths)?)?),
        Some(Action::Info(paths)) => Ok(info::info(rt, paths)?),
        None => Err(Stopped::from(Failure::NoCommand)),
    }
}

// Says what failed, if anything did, and returns the exit status. It is the same if standard error cannot be written.
// Nothing is written to a standard error that leads to a key or an input.
fn end(rt: &HostRuntime, ended: Result<(), Stopped<'_>>) -> u8 {
    let Err(stopped) = ended else {
        return 0;
    };
    if matches!(stopped.failure, Failure::Unsaid) {
        return FAILED;
    }
    let _ = eprintln!(rt; "hunkravy: {}", stopped.failure);
    if stopped.incomplete {
        let _ = eprintln!(rt; "hunkravy: the output is incomplete: discard it");
    }
    stopped.failure.status()
}

// Prints help or the version, and returns the exit status.
fn inform(rt: &HostRuntime, text: &clap::Error) -> u8 {
    match printed(text.print(rt)) {
        Ok(()) => 0,
        Err(failure) => end(rt, Err(Stopped::from(failure))),
    }
}

// The error of a command line, if it is not understood.
fn error_of(rt: &HostRuntime, words: &[String]) -> anyhow::Result<Option<clap::Error>> {
    match command(rt.alloc(), VERSION, NOTES)?.try_get_matches_from(words) {
        Ok(_) => Ok(None),
        Err(error) => Ok(Some(error)),
    }
}

// Prints the error of a command line that is not understood, and returns the exit status.
fn say_error(rt: &HostRuntime, error: &clap::Error) -> u8 {
    if matches!(error.kind(), clap::error::ErrorKind::OutOfMemory) {
        return end(rt, Err(Stopped::from(Failure::OutOfMemory)));
    }
    let _ = eprint!(rt; "{error}");
    MISUSED
}

// Returns the words as messages show them.
fn escaped(rt: &HostRuntime, words: &[String]) -> Result<Vec<String>, AllocError> {
    let mut shown = Vec::new(rt.alloc());
    for word in words {
        shown.push(format!(in rt.alloc(); "{}", Word(word.as_str()))?)?;
    }
    Ok(shown)
}

// Says what is wrong with a command line, and returns the exit status. The words are escaped before the error is made
// of them, so that none adds a line to it.
fn misuse(rt: &HostRuntime, words: &[String]) -> anyhow::Result<u8> {
    let shown = escaped(rt, words)?;
    match error_of(rt, shown.as_slice())? {
        Some(error) => Ok(say_error(rt, &error)),
        // The words are understood: before, memory ran out.
        None => Ok(end(rt, Err(Stopped::from(Failure::OutOfMemory)))),
    }
}

// Carries out the command line, and returns the exit status. It is an error if memory runs out.
fn carry_out(rt: &HostRuntime, words: &[String]) -> anyhow::Result<u8> {
    match command(rt.alloc(), VERSION, NOTES)?.try_get_matches_from(words) {
        Ok(matches) => Ok(end(rt, act(rt, parse(&matches)))),
        Err(error) if error.use_stderr() => misuse(rt, words),
        Err(text) => Ok(inform(rt, &text)),
    }
}

// Reads the command line and carries it out.
fn carry_out_words(rt: &HostRuntime) -> anyhow::Result<u8> {
    let mut words: Vec<String> = match std::env::args(rt) {
        Ok(words) => words.collect(rt.alloc())?,
        Err(error) if error.kind() == ErrorKind::InvalidData => {
            let _ = eprintln!(rt;
                "hunkravy: an argument, or the program's own name, is not UTF-8: rename the file"
            );
            return Ok(MISUSED);
        }
        Err(error) => return Err(anyhow::Error::from(error)),
    };
    // By whatever name it is called, which help would print as it is.
    if !words.is_empty() {
        words[0] = String::from_str(rt.alloc(), "hunkravy")?;
    }
    carry_out(rt, words.as_slice())
}

/// Carries out the command line that the program was called with, and returns the exit status.
pub fn run(rt: &HostRuntime) -> u8 {
    match carry_out_words(rt) {
        Ok(status) => status,
        Err(error) => {
            let _ = eprintln!(rt; "hunkravy: {error}");
            FAILED
        }
    }
}
