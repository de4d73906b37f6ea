//! The lines of `data/` and their stored answers.

use std::{fs, io};

// The name of each file of lines, without its ending, and the exit status of the line program for it.
const FILES: [(&str, u8); 9] = [
    ("published", 0),
    // The AEGIS tests of Wycheproof (testvectors_v1, Apache-2.0), with its own answers.
    ("wycheproof", 0),
    ("round", 0),
    ("calls", 0),
    ("in-pieces", 0),
    ("records", 0),
    ("record-tables", 1),
    ("examples", 1),
    ("faults", 1),
];

/// Runs the lines of each file by the line program's `run`, and prints whether the answers are the stored ones. Returns
/// whether all are.
pub fn all_agree(rt: &HostRuntime) -> io::Result<bool> {
    let mut all_agree = true;
    for (name, status) in FILES {
        if agrees(rt, name, status)? {
            println!(rt; "{name}: the answers agree")?;
        } else {
            println!(rt; "{name}: an answer differs")?;
            all_agree = false;
        }
    }
    Ok(all_agree)
}

// Whether the answers to the lines of a file are the stored ones, and the status is this one.
fn agrees(rt: &HostRuntime, name: &str, status: u8) -> io::Result<bool> {
    let lines = format!(in rt.alloc(); "{name}.in")?;
    let answers = format!(in rt.alloc(); "{name}.out")?;
    let lines = fs::read(rt, lines.as_str())?;
    let expected = fs::read(rt, answers.as_str())?;
    let mut output = Vec::new(rt.alloc());
    let answered = aegis_session::run(rt.alloc(), &mut lines.as_slice(), &mut output);
    Ok(answered == status && output.as_slice() == expected.as_slice())
}
