//! The line program: reads lines of test vectors from standard input, and writes the answer to each to standard output.
//!
//! The exit status is 0 if all lines were understood, 1 if some answer begins with `error `, and 2 if a read, a write
//! or an allocation failed. Arguments are ignored.
#![tactic(auto)]

use std::process::ExitCode;

fn main(rt: HostRuntime) -> ExitCode {
    let status = aegis_session::run(rt.alloc(), &mut rt.stdin(), &mut rt.stdout());
    ExitCode::from(status)
}
