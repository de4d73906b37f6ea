//! Encrypts and decrypts files under a key.
//!
//! The exit status is 0 on success, 1 if a sealed file is rejected, 2 if the command line is wrong, and 3 for any other
//! failure: I/O, memory, a bad key file, or a rejected output.
#![tactic(auto)]

use std::process::ExitCode;

fn main(rt: HostRuntime) -> ExitCode {
    ExitCode::from(aegis_tool::run(&rt))
}
