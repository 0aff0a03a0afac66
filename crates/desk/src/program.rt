// The program `settle`.
use crate::asked::{Asked, asked_for};
use crate::failure::{Failure, Stopped};
use crate::settle::settle_source;
use std::fmt::Display;
use std::io::Write;
use std::{env, io};

// How the program is used.
const USAGE: &str = "\
settle BATCH          settles the batch and writes a report that people read
settle --csv BATCH    writes the same as comma-separated rows, for spreadsheets and other programs
settle --help         says this

Where no BATCH is named, the batch is read from standard input.

A batch is a text with an entry a line. Words are separated by spaces or tabs, and # begins a comment. First comes the label:
    label TEXT
Then, in any order and number:
    open YEAR                                  open the season of a year
    enrol MOMENT KIND KW                       a site, which is numbered from 1
    nominate MOMENT SITE WEEK KW               a site's figure for a week and the weeks after it
    announce MOMENT START LENGTH               an event: the hour of the day in which it starts, and its hours
    revoke MOMENT                              the event of the moment's day
    close                                      close the season
    meter NAME hourly NUMBER FILE              a meter, with a file of hourly readings
    meter NAME quarter NUMBER FILE             a meter, with a file of quarter-hourly readings
    meter NAME pair NAME NAME                  two meters named before, as one
    statement SITE NAME                        a site's statement, on a meter named before
    compare SITE NAME NAME                     a site's statements on two meters, and how they differ
A MOMENT is whole minutes since June 1, 00:00, or a stamp MM-DDTHH:MM from 06-01T00:00 to 08-15T23:59.
A KIND is single, aggregated or a number.
A FILE is looked for in the batch file's own folder, or in the current one where the batch comes from standard input.
Its lines are TIME,WH: the start of the hour or quarter-hour as a stamp, or its number from 0 at June 1, 00:00, and the load in Wh.
Its first line may be time,wh.

A call that is refused is a result, and the report says why. A batch that cannot be read is an error: a message with file and
line on standard error, status 1, and nothing is settled.
";

// Says on standard error why the program stops.
fn stop(rt: &HostRuntime, why: impl Display + Drop) -> Stopped {
    let _ = eprintln!(rt; "settle: {why}");
    Stopped
}

// Writes a text to standard output.
fn show(rt: &HostRuntime, text: &str) -> Result<(), Stopped> {
    rt.stdout()
        .write_all(text.as_bytes())
        .map_err(|error| stop(rt, format_args!("standard output: {error}")))
}

// The text that the words of a command ask for: how the program is used, or a settled batch.
pub fn text_for(rt: &HostRuntime, words: &[&str]) -> Result<String, Failure> {
    let heap = rt.alloc();
    let asked = asked_for(words).map_err(|fault| Failure::said(
        heap,
        format_args!("{fault}\n\n{USAGE}"),
    ))?;
    match asked {
        Asked::Help => Ok(String::from_str(heap, USAGE)?),
        Asked::Settle { form, path } => settle_source(rt, path, form),
    }
}

// Shows what the words of a command ask for, or says on standard error why there is nothing to show.
pub fn obey(rt: &HostRuntime, words: &[&str]) -> Result<(), Stopped> {
    let text = text_for(rt, words).map_err(|failure| stop(rt, failure))?;
    show(rt, text.as_str())
}

// Does what the program's arguments ask for, its own name left out.
fn obey_arguments(rt: &HostRuntime) -> io::Result<Result<(), Stopped>> {
    let arguments: Vec<String> = env::args(rt)?.skip(1).collect(rt.alloc())?;
    let words: Vec<&str> = arguments
        .iter()
        .map(|word| word.as_str())
        .collect(rt.alloc())?;
    Ok(obey(rt, words.as_slice()))
}

// The program: does what its arguments ask for, and says on standard error why it stops where it cannot.
pub fn run_settle(rt: &HostRuntime) -> Result<(), Stopped> {
    obey_arguments(rt).map_err(|error| stop(rt, format_args!("its arguments: {error}")))?
}
