use meter::kind::TableKind;
use meter::refusal::RecordRefusal;
use tariff::call::{Answer, SeasonRefusal};
use tariff::statement::{Statement, StatementRefusal};

// A meter with its readings: a table of its kind, with the number under which an hour without a load is missing; or two meters that
// stand before it in the list, by their places there.
#[derive(Drop)]
pub enum ReadMeter {
    Table {
        kind: TableKind,
        number: u32,
        cells: Vec<u32>,
    },
    // Places and no boxes: two pairs may name one meter, whose cells a box could hold for only one of them.
    Pair {
        first: usize,
        second: usize,
    },
}

// A reading that was refused, with its line in the file of readings.
#[derive(Clone, Copy)]
pub struct RefusedReading {
    pub line: usize,
    pub refusal: RecordRefusal,
}

// What came of a task. Of a statement or a compare that was answered: the number of event hours of each statement.
#[derive(Clone, Copy)]
pub enum Outcome {
    Opened(Result<u32, SeasonRefusal>),
    Called(Result<Answer, SeasonRefusal>),
    // A meter answers nothing.
    Metered,
    Stated(Result<u32, StatementRefusal>),
    Compared(Result<u32, StatementRefusal>),
}

// What came of the tasks, one for each in their order, and the statements that were written, in their order: one for each statement
// that was answered and two for each compare, the first meter's first.
#[derive(Drop)]
pub struct Done {
    pub outcomes: Vec<Outcome>,
    pub statements: Vec<Statement>,
}

// What is read aloud of a batch: the sites enrolled at the end, the hours that hold a load in the hourly and quarter meters
// handed in, the hour lines of the statements written, and the statements written. A sum over a list of any length fits.
#[derive(Clone, Copy, PartialEq, Eq, Debug)]
pub struct Counts {
    pub sites: u32,
    pub meter_hours: u128,
    pub event_hours: u128,
    pub statements: u128,
}
