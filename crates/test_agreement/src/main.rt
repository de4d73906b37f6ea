//! The library and the line program, checked against stored answers and a slow reference.
//!
//! The lines of `data/` are run first, and the answers are compared with the stored ones. Then the library is
//! compared with the slow functions of `reference`, one lane at a time. The exit status is 1 if an answer differs.
#![tactic(auto)]

mod lane_by_lane;
mod reference;
mod stored;

use reference::SubstitutionTable;
use std::io;
use std::process::ExitCode;

fn main(rt: HostRuntime) -> io::Result<ExitCode> {
    let table = SubstitutionTable::new();
    if stored::all_agree(&rt)? && lane_by_lane::all_agree(&rt, &table)? {
        Ok(ExitCode::SUCCESS)
    } else {
        Ok(ExitCode::FAILURE)
    }
}
