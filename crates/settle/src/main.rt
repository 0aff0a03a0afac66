// Settles a batch: one client's season, its calls, its meters' readings and the statements wanted.
#![tactic(auto)]

use desk::failure::Stopped;
use desk::program::run_settle;
use std::process::ExitCode;

// A match on two cases: a conversion of the result would be longer, and say the same.
fn main(rt: HostRuntime) -> ExitCode {
    match run_settle(&rt) {
        Ok(()) => ExitCode::SUCCESS,
        Err(Stopped) => ExitCode::FAILURE,
    }
}
