// Settles each of the sample batches, and shows it in both forms; and shows what is said of those that cannot be read.
#![tactic(auto)]

use desk::failure::{Failure, Stopped};
use desk::program::{obey, text_for};
use std::process::ExitCode;

const BATCHES: [&str; 3] = ["summer-2015.batch", "refusals.batch", "gaps.batch"];

const UNREADABLE: [&str; 2] = ["unreadable.batch", "unreadable-readings.batch"];

// What is said of a batch that is not settled; where it is, its text.
fn said_of(rt: &HostRuntime, batch: &'static str) -> Result<String, Stopped> {
    match text_for(rt, &[batch]) {
        Ok(said) | Err(Failure::Said(said)) => Ok(said),
        Err(Failure::NoMemory) => Err(Stopped),
    }
}

fn show_fault(rt: &HostRuntime, batch: &'static str) -> Result<(), Stopped> {
    let said = said_of(rt, batch)?;
    println!(rt; "Not settled: {said}").map_err(|_| Stopped)
}

fn show_all(rt: &HostRuntime) -> Result<(), Stopped> {
    for batch in BATCHES {
        obey(rt, &[batch])?;
        obey(rt, &["--csv", batch])?;
    }
    for batch in UNREADABLE {
        show_fault(rt, batch)?;
    }
    Ok(())
}

// A match on two cases: a conversion of the result would be longer, and say the same.
fn main(rt: HostRuntime) -> ExitCode {
    match show_all(&rt) {
        Ok(()) => ExitCode::SUCCESS,
        Err(Stopped) => ExitCode::FAILURE,
    }
}
