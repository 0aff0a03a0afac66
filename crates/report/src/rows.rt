// The rows that spreadsheets and other programs read.
use crate::settled::{HandedIn, Settled};
use crate::telling::{Compared, Stated, Teller, Told, Written};
use batch::plan::BatchMeter;
use settlement::results::Counts;
use std::alloc::{AllocError, Global};
use std::fmt;
use std::fmt::{Display, Formatter, Write};
use tariff::call::{Answer, Call};
use tariff::fault::{BaselineFault, HourGap};
use tariff::reading::Gap;
use tariff::statement::{EventFault, HourLine, Statement, StatementRefusal, WeekLine};

// A text as a field: as it stands, or between quotes with its own quotes doubled where it has a comma or a quote.
#[derive(Clone, Copy)]
struct Field<'a>(&'a str);

impl Display for Field<'_> {
    fn fmt<W: Write>(&self, f: &mut Formatter<W>) -> fmt::Result {
        let Field(text) = *self;
        if !text.contains(',') && !text.contains('"') {
            return f.write_str(text);
        }
        f.write_char('"')?;
        f.write_joined(text.split('"'), "\"\"")?;
        f.write_char('"')
    }
}

// The word with which a line of the batch asks for a call.
// One word a variant: a type with `Display` around the call would say no more.
fn word_of(call: Call) -> &'static str {
    match call {
        Call::Enrol { .. } => "enrol",
        Call::Nominate { .. } => "nominate",
        Call::Announce { .. } => "announce",
        Call::Revoke { .. } => "revoke",
        Call::Close => "close",
    }
}

// The answer of a call that was taken, by its numbers.
#[derive(Clone, Copy)]
struct Numbers(Answer);

impl Display for Numbers {
    fn fmt<W: Write>(&self, f: &mut Formatter<W>) -> fmt::Result {
        match self.0 {
            Answer::Site(n) | Answer::Week(n) | Answer::Announced(n) | Answer::Revoked(n) => {
                write!(f, "{n}")
            }
            Answer::Closed(events, hours) => write!(f, "{events},{hours}"),
        }
    }
}

// Why a statement was refused, by its number. One that is refused for an hour tells its event, its use, its day and its hour too, and
// for a missing one the meter's number.
#[derive(Clone, Copy)]
struct Refusal(StatementRefusal);

impl Display for Refusal {
    fn fmt<W: Write>(&self, f: &mut Formatter<W>) -> fmt::Result {
        let Refusal(refusal) = *self;
        write!(f, "{}", refusal.number())?;
        let StatementRefusal::EventWithoutBaseline(EventFault { event, fault }) = refusal else {
            return Ok(());
        };
        let BaselineFault::HourWithoutLoad(
            HourGap {
                gap,
                purpose,
                day,
                hour,
            },
        ) = fault;
        write!(f, ",{event},{},{day},{hour}", purpose.number())?;
        match gap {
            Gap::Missing(meter) => write!(f, ",{meter}"),
            Gap::Over => Ok(()),
        }
    }
}

// The row of an event hour of a site's statement.
fn write_hour<W: Write>(f: &mut Formatter<W>, site: u32, line: &HourLine) -> fmt::Result {
    let HourLine {
        event,
        day,
        hour,
        base,
        adjusted,
        reduction,
        shortfall,
        energy,
        adjustment,
    } = *line;
    write!(f, "hour,{site},{event},{day},{hour},{base},{adjusted},")?;
    writeln!(f, "{reduction},{shortfall},{energy},{adjustment}")
}

// The row of a week of a site's statement.
fn write_week<W: Write>(
    f: &mut Formatter<W>,
    site: u32,
    week: u32,
    line: &WeekLine,
) -> fmt::Result {
    let WeekLine {
        nomination,
        hours,
        counted,
        days,
        capacity,
    } = *line;
    writeln!(
        f,
        "week,{site},{week},{nomination},{hours},{counted},{days},{capacity}"
    )
}

// The row of the totals of a site's statement.
fn write_totals<W: Write>(f: &mut Formatter<W>, site: u32, statement: &Statement) -> fmt::Result {
    let Statement {
        incentive,
        charged,
        taken,
        net,
        paid,
        ..
    } = *statement;
    writeln!(f, "total,{site},{incentive},{charged},{taken},{net},{paid}")
}

// The rows of a site's statement: one for each of its event hours, one for each week of the season, and one for its totals.
#[derive(Clone, Copy)]
struct StatementRows<'a> {
    site: u32,
    written: Written<'a>,
}

impl Display for StatementRows<'_> {
    fn fmt<W: Write>(&self, f: &mut Formatter<W>) -> fmt::Result {
        let StatementRows { site, written } = *self;
        for line in written.hour_lines() {
            write_hour(f, site, line)?;
        }
        for (week, line) in written.week_lines() {
            write_week(f, site, week, line)?;
        }
        write_totals(f, site, written.statement)
    }
}

// The rows of a meter's refused readings. The name of its file is made a field once, for all of them.
fn write_readings<W: Write>(
    f: &mut Formatter<W>,
    heap: Global,
    handed: &HandedIn<'_>,
) -> fmt::Result {
    let BatchMeter::Table { file, .. } = handed.meter else {
        return Ok(());
    };
    let file = format!(in heap; "{}", Field(file))?;
    for reading in handed.refused.iter() {
        let number = reading.refusal.number();
        writeln!(f, "reading,{file},{},refused,{number}", reading.line)?;
    }
    Ok(())
}

// The rows of two statements that were asked for together.
fn write_compared<W: Write>(
    f: &mut Formatter<W>,
    line: usize,
    compared: Compared<'_>,
) -> fmt::Result {
    let Compared { site, answer, .. } = compared;
    write!(f, "call,{line},compare,")?;
    match answer {
        Ok((one, two)) => {
            let first = StatementRows { site, written: one };
            let second = StatementRows { site, written: two };
            write!(f, "answer,{}\n{first}{second}", one.hours)
        }
        Err(refusal) => writeln!(f, "refused,{}", Refusal(refusal)),
    }
}

// The rows of a step, which stands in a line of the batch, and the heap on which a file's name is made a field.
#[derive(Clone, Copy)]
struct StepRows<'a> {
    heap: Global,
    line: usize,
    told: Told<'a>,
}

impl Display for StepRows<'_> {
    fn fmt<W: Write>(&self, f: &mut Formatter<W>) -> fmt::Result {
        let line = self.line;
        match self.told {
            Told::Opened { answer, .. } => {
                write!(f, "call,{line},open,")?;
                match answer {
                    Ok(week) => writeln!(f, "answer,{week}"),
                    Err(refusal) => writeln!(f, "refused,{}", refusal.number()),
                }
            }
            Told::Called { call, answer, .. } => {
                write!(f, "call,{line},{},", word_of(call))?;
                match answer {
                    Ok(answer) => writeln!(f, "answer,{}", Numbers(answer)),
                    Err(refusal) => writeln!(f, "refused,{}", refusal.number()),
                }
            }
            Told::Metered(handed) => write_readings(f, self.heap, handed),
            Told::Stated(Stated { site, answer, .. }) => {
                write!(f, "call,{line},statement,")?;
                match answer {
                    Ok(written) => {
                        let rows = StatementRows { site, written };
                        write!(f, "answer,{}\n{rows}", written.hours)
                    }
                    Err(refusal) => writeln!(f, "refused,{}", Refusal(refusal)),
                }
            }
            Told::Compared(compared) => write_compared(f, line, compared),
        }
    }
}

// The last row, with what is read aloud.
fn write_counts(text: &mut String, label: &str, counts: Counts) -> Result<(), AllocError> {
    let Counts {
        sites,
        meter_hours,
        event_hours,
        statements,
    } = counts;
    let label = Field(label);
    writeln!(
        text,
        "batch,{label},{sites},{meter_hours},{event_hours},{statements}"
    )
}

// The rows of a settled batch.
pub fn rows(heap: Global, settled: &Settled<'_>) -> Result<String, AllocError> {
    let mut text = String::new(heap);
    let mut teller = Teller::new(settled);
    for (step, outcome) in settled.steps.iter().zip(settled.done.outcomes.iter()) {
        if let Some(told) = teller.tell(step.task, *outcome) {
            let line = step.line;
            write!(text, "{}", StepRows { heap, line, told })?;
        }
    }
    write_counts(&mut text, settled.label, settled.counts)?;
    Ok(text)
}
