// What is said of a text that cannot be read, with its name and its line.
use crate::failure::Failure;
use batch::faults::{BatchFault, ReadingsFault};
use entries::entry::EntryFault;
use meter::kind::TableKind;
use std::alloc::Global;

// What is wrong with a text, in one of its lines.
#[derive(Clone, Copy)]
pub(crate) struct Wrong {
    line: usize,
    what: &'static str,
}

// What is wrong with a line that is no entry.
// One text a variant: a type with `Display` around the fault would say no more.
fn no_entry(fault: EntryFault) -> &'static str {
    match fault {
        EntryFault::UnknownWord => "a word that no entry has",
        EntryFault::TooFewWords => "too few words",
        EntryFault::TooManyWords => "too many words",
        EntryFault::NoNumber => "a word that is no number where a number stands",
        EntryFault::NumberTooLarge => "a number above 4,294,967,295",
        EntryFault::NoMoment => {
            "a word that is neither whole minutes nor a stamp from 06-01T00:00 to 08-15T23:59"
        }
        EntryFault::NoKind => "a word that is neither single nor aggregated nor a number",
    }
}

// What a stamp that stands between two cells of a table does not do. One text a variant, as above.
fn between_cells(kind: TableKind) -> &'static str {
    match kind {
        TableKind::Hourly => "a stamp that starts no hour",
        TableKind::Quarter => "a stamp that starts no quarter-hour",
    }
}

impl Wrong {
    // What is wrong with a text that is no batch; nothing, where only memory was wanting.
    pub(crate) fn with_batch(fault: BatchFault) -> Option<Wrong> {
        let (line, what) = match fault {
            BatchFault::NoEntry { line, fault } => (line, no_entry(fault)),
            BatchFault::LabelNotFirst { line } => (line, "the first entry is not a label"),
            BatchFault::SecondLabel { line } => (line, "a second label"),
            BatchFault::NamedTwice { line } => (line, "a meter with the name of one before it"),
            BatchFault::NoSuchMeter { line } => (line, "no meter before this line has such a name"),
            BatchFault::NoLabel => (1, "no label, and no other entry"),
            BatchFault::NoMemory => return None,
        };
        Some(Wrong { line, what })
    }

    // What is wrong with a text that is no file of readings; nothing, where only memory was wanting.
    pub(crate) fn with_readings(fault: ReadingsFault, kind: TableKind) -> Option<Wrong> {
        let (line, what) = match fault {
            ReadingsFault::NotTimeAndLoad { line } => {
                (
                    line,
                    "a reading is a time and a load with a comma between them",
                )
            }
            ReadingsFault::NumberTooLarge { line } => (line, "a number above 4,294,967,295"),
            ReadingsFault::NoNumber { line } => (
                line,
                "a time that is neither a number nor a stamp of the summer, or a load that is no number",
            ),
            ReadingsFault::BetweenCells { line } => (line, between_cells(kind)),
            ReadingsFault::NoMemory => return None,
        };
        Some(Wrong { line, what })
    }
}

// Why the text of a name is not settled: for what is wrong with it, or else for want of memory.
pub(crate) fn unread(heap: Global, name: &str, wrong: Option<Wrong>) -> Failure {
    wrong.map_or(Failure::NoMemory, |Wrong { line, what }| {
        Failure::said(heap, format_args!("{name}, line {line}: {what}"))
    })
}
