// A batch or a readings file that cannot be read: what is said of it. Nothing of it is settled.
use crate::shown::shown;
use batch::faults::ReadingsFault;
use batch::readings::read_readings;
use desk::asked::Form;
use desk::settle::settle_text;
use meter::kind::TableKind;
use std::test::*;

#[test]
fn a_line_is_no_entry(rt: HostRuntime) -> Result<(), Fail> {
    let cases = [
        (
            "label a\nopne 2015\n",
            "b.txt, line 2: a word that no entry has",
        ),
        ("label a\n\nopen\n", "b.txt, line 3: too few words"),
        ("label a\nclose now\n", "b.txt, line 2: too many words"),
        (
            "label a\r\nopen x\r\n",
            "b.txt, line 2: a word that is no number where a number stands",
        ),
        (
            "label a\nopen 4294967296\n",
            "b.txt, line 2: a number above 4,294,967,295",
        ),
        (
            "label a\nrevoke 08-16T00:00\n",
            "b.txt, line 2: a word that is neither whole minutes nor a stamp from 06-01T00:00 to 08-15T23:59",
        ),
        (
            "label a\nenrol 0 double 40\n",
            "b.txt, line 2: a word that is neither single nor aggregated nor a number",
        ),
    ];
    for (text, message) in cases {
        let settled = settle_text(&rt, Some("b.txt"), text, Form::People);
        assert_eq!(rt; shown(&settled), Err(message), "{text}");
    }
    Ok(())
}

#[test]
fn a_label_or_a_meter_is_not_there(rt: HostRuntime) -> Result<(), Fail> {
    let cases = [
        (
            "# a\nopen 2015\n",
            "b.txt, line 2: the first entry is not a label",
        ),
        ("label a\nlabel b\n", "b.txt, line 2: a second label"),
        ("# nothing\n", "b.txt, line 1: no label, and no other entry"),
        (
            "label a\nmeter m hourly 1 m.csv\nmeter m quarter 2 m.csv\n",
            "b.txt, line 3: a meter with the name of one before it",
        ),
        (
            "label a\nstatement 1 m\n",
            "b.txt, line 2: no meter before this line has such a name",
        ),
        (
            "label a\n\nmeter m hourly 1 none.csv\n",
            "b.txt, line 3: none.csv: No such file or directory (os error 2)",
        ),
    ];
    for (text, message) in cases {
        let settled = settle_text(&rt, Some("b.txt"), text, Form::People);
        assert_eq!(rt; shown(&settled), Err(message), "{text}");
    }
    Ok(())
}

#[test]
fn a_line_is_no_reading(rt: HostRuntime) -> Result<(), Fail> {
    let cases = [
        ("time,wh\n5\n", ReadingsFault::NotTimeAndLoad { line: 2 }),
        ("1,4294967296\n", ReadingsFault::NumberTooLarge { line: 1 }),
        ("1,2\nx,5\n", ReadingsFault::NoNumber { line: 2 }),
        ("06-01T00:15,5\n", ReadingsFault::BetweenCells { line: 1 }),
    ];
    for (text, why) in cases {
        let read = read_readings(rt.alloc(), text, TableKind::Hourly);
        assert_eq!(rt; read.err(), Some(why), "{text}");
    }
    Ok(())
}
