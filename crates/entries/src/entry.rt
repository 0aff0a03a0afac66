use meter::kind::TableKind;
use tariff::call::Call;

// What one line of a batch asks for. Meters go by their names, and a file of readings by its own.
#[derive(Clone, Copy)]
pub enum Entry<'a> {
    Label {
        text: &'a str,
    },
    Open {
        year: u32,
    },
    Call {
        call: Call,
    },
    TableMeter {
        name: &'a str,
        kind: TableKind,
        number: u32,
        file: &'a str,
    },
    PairMeter {
        name: &'a str,
        first: &'a str,
        second: &'a str,
    },
    Statement {
        site: u32,
        meter: &'a str,
    },
    Compare {
        site: u32,
        first: &'a str,
        second: &'a str,
    },
}

// Why a line with words is no entry.
#[derive(Clone, Copy, PartialEq, Eq, Debug)]
pub enum EntryFault {
    // Its first word, or a meter's second, is none that an entry has.
    UnknownWord,
    TooFewWords,
    TooManyWords,
    // A word stands for a number and is none, or its number is above 4,294,967,295.
    NoNumber,
    NumberTooLarge,
    // A word stands for a moment, and is neither a number nor a stamp of the summer.
    NoMoment,
    // A word stands for a site's kind, and is neither a number nor the name of a kind.
    NoKind,
}
