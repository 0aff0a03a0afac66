// Lines of a batch: each is read as an entry and written again, or the first fault decides.
use entries::read::read_entry;
use entries::write::write_entry;
use std::alloc::{AllocError, Global};
use std::process::Abort;
use std::test::*;

// What is read of a line, written again.
fn again(heap: Global, line: &str) -> Result<String, AllocError> {
    match read_entry(line) {
        Ok(Some(entry)) => write_entry(heap, &entry),
        Ok(None) => format!(in heap; "nothing"),
        Err(fault) => format!(in heap; "{fault:?}"),
    }
}

// Each line is read as the text beside it says.
fn reads(rt: &impl Abort, heap: Global, lines: &[(&str, &str)]) -> Result<(), Fail> {
    for (line, said) in lines {
        let text = again(heap, line)?;
        assert_eq!(rt; text.as_str(), *said);
    }
    Ok(())
}

#[test]
fn entries_are_read(rt: HostRuntime) -> Result<(), Fail> {
    reads(
        &rt,
        rt.alloc(),
        &[
            (" \t# nothing here", "nothing"),
            ("label\t Mill and Co. \r", "label Mill and Co."),
            (
                "enrol 06-15T12:00 aggregated 250 # a block",
                "enrol 20880 1 250",
            ),
            ("nominate 5 4294967295 2 7", "nominate 5 4294967295 2 7"),
            (
                "  meter\tcold  quarter 12 cold.csv",
                "meter cold quarter 12 cold.csv",
            ),
        ],
    )
}

#[test]
fn the_first_fault_decides(rt: HostRuntime) -> Result<(), Fail> {
    reads(
        &rt,
        rt.alloc(),
        &[
            ("opens 2026", "UnknownWord"),
            ("meter mill daily 1 a.csv", "UnknownWord"),
            ("announce 1 x", "NoNumber"),
            ("announce 1 2", "TooFewWords"),
            ("close now", "TooManyWords"),
            ("open 4294967296", "NumberTooLarge"),
            ("revoke 08-16T00:00", "NoMoment"),
            ("enrol 1 double 5", "NoKind"),
        ],
    )
}
