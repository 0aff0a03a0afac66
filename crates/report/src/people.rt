// The report that people read.
use crate::INDENT;
use crate::calls::{Answered, Asked, Count};
use crate::differences::Differences;
use crate::gaps::Unstated;
use crate::meters::Meters;
use crate::refusals::Refused;
use crate::settled::{HandedIn, Settled};
use crate::tables::Tables;
use crate::telling::{Compared, Stated, Teller, Told, Written};
use batch::plan::BatchMeter;
use meter::kind::TableKind;
use settlement::results::{Counts, RefusedReading};
use std::alloc::{AllocError, Global};
use std::fmt;
use std::fmt::{Display, Formatter, Write};

// How to read the tables of a statement.
const LEGEND: &str = "\
In the tables of a statement, an hour's baseline is the mean of what the site drew in it on the three highest of the ten business
days before the event on which no event stood. Adjusted, it is moved by what the site drew on the day itself before the event was
announced. Shed is how far below that the site's load lay, short is what of the nomination was not shed, and counted is what was
shed, in each hour at most 120 % of the nomination. Capacity pay is for being ready, energy pay for what was shed from the
fourth event on, and adjustments are charged for what was short. Baselines are rounded down to the Wh.
";

// How often a table has readings.
// One word a variant: a type with `Display` around the kind would say no more.
fn readings_of(kind: TableKind) -> &'static str {
    match kind {
        TableKind::Hourly => "hourly",
        TableKind::Quarter => "quarter-hourly",
    }
}

// What is said of the readings of a file: those that were refused, or that all were taken.
fn write_readings<W: Write>(
    f: &mut Formatter<W>,
    kind: TableKind,
    file: &str,
    refused: &[RefusedReading],
) -> fmt::Result {
    if refused.is_empty() {
        return writeln!(f, "{INDENT}every reading taken");
    }
    for reading in refused {
        let why = Refused::reading(reading.refusal, kind);
        writeln!(f, "{INDENT}{file} line {} {why}", reading.line)?;
    }
    Ok(())
}

// Two statements, on the meters of two names, and how they differ.
fn write_both<W: Write>(
    f: &mut Formatter<W>,
    (first, second): (&str, &str),
    (one, two): (Written<'_>, Written<'_>),
) -> fmt::Result {
    writeln!(
        f,
        "{INDENT}written, with {} each",
        Count(one.hours, "event hour")
    )?;
    writeln!(f, "\n    First summer, on meter {first}\n\n{}", Tables(one))?;
    writeln!(f, "    Second summer, on meter {second}\n\n{}", Tables(two))?;
    write!(
        f,
        "    The difference: the second summer, on meter {second}, "
    )?;
    writeln!(
        f,
        "less the first, on meter {first}\n\n{}",
        Differences { one, two }
    )
}

// What a report says of a step and of what came of it, each line with its end.
#[derive(Clone, Copy)]
struct Paragraph<'a> {
    meters: Meters<'a>,
    told: Told<'a>,
}

impl Paragraph<'_> {
    // A meter with its readings, or a pair with its two meters.
    fn write_meter<W: Write>(self, f: &mut Formatter<W>, handed: &HandedIn<'_>) -> fmt::Result {
        match handed.meter {
            BatchMeter::Table {
                name,
                kind,
                number,
                file,
            } => {
                let often = readings_of(kind);
                writeln!(
                    f,
                    "meter {name}, made with number {number}: {often} readings of {file}"
                )?;
                write_readings(f, kind, file, handed.refused.as_slice())
            }
            BatchMeter::Pair {
                name,
                first,
                second,
            } => {
                let first = self.meters.name_at(first);
                let second = self.meters.name_at(second);
                writeln!(f, "meter {name}: the pair of {first} and {second}")
            }
        }
    }

    // A statement with its tables, or why there is none.
    fn write_stated<W: Write>(self, f: &mut Formatter<W>, stated: Stated<'_>) -> fmt::Result {
        let Stated {
            year,
            site,
            meter,
            answer,
        } = stated;
        let meters = self.meters;
        writeln!(
            f,
            "statement of site {site} on meter {}",
            meters.name_at(meter)
        )?;
        match answer {
            Ok(written) => {
                let hours = Count(written.hours, "event hour");
                writeln!(f, "{INDENT}written, with {hours}\n\n{}", Tables(written))
            }
            Err(refusal) => {
                let asked = &[meter];
                write!(
                    f,
                    "{}",
                    Unstated {
                        meters,
                        year,
                        asked,
                        refusal
                    }
                )
            }
        }
    }

    // Two statements with their tables and how they differ, or why there are none.
    fn write_compared<W: Write>(self, f: &mut Formatter<W>, compared: Compared<'_>) -> fmt::Result {
        let Compared {
            year,
            site,
            first,
            second,
            answer,
        } = compared;
        let meters = self.meters;
        let names = (meters.name_at(first), meters.name_at(second));
        writeln!(
            f,
            "compare site {site} on meter {} and on meter {}",
            names.0, names.1
        )?;
        match answer {
            Ok(both) => write_both(f, names, both),
            Err(refusal) => {
                let asked = &[first, second];
                write!(
                    f,
                    "{}",
                    Unstated {
                        meters,
                        year,
                        asked,
                        refusal
                    }
                )
            }
        }
    }
}

impl Display for Paragraph<'_> {
    fn fmt<W: Write>(&self, f: &mut Formatter<W>) -> fmt::Result {
        match self.told {
            Told::Opened { year, answer } => {
                writeln!(f, "open the season of {year}")?;
                match answer {
                    Ok(week) => writeln!(f, "{INDENT}opened, with weeks 1 to {week}"),
                    Err(refusal) => writeln!(f, "{INDENT}{}", Refused::from(refusal)),
                }
            }
            Told::Called { year, call, answer } => {
                writeln!(f, "{}", Asked { year, call })?;
                match answer {
                    Ok(answer) => writeln!(f, "{INDENT}{}", Answered(answer)),
                    Err(refusal) => writeln!(f, "{INDENT}{}", Refused::from(refusal)),
                }
            }
            Told::Metered(handed) => self.write_meter(f, handed),
            Told::Stated(stated) => self.write_stated(f, stated),
            Told::Compared(compared) => self.write_compared(f, compared),
        }
    }
}

// The line that is read aloud.
fn write_counts(text: &mut String, label: &str, counts: Counts) -> Result<(), AllocError> {
    let Counts {
        sites,
        meter_hours,
        event_hours,
        statements,
    } = counts;
    write!(
        text,
        "batch {label}: sites in {sites}, meter hours in {meter_hours}, "
    )?;
    writeln!(
        text,
        "event hours out {event_hours}, statements out {statements}"
    )
}

// The report of a settled batch.
pub fn report(heap: Global, settled: &Settled<'_>) -> Result<String, AllocError> {
    let label = settled.label;
    let mut text = format!(in heap; "Batch {label}\n\n")?;
    if settled.counts.statements > 0 {
        writeln!(text, "{LEGEND}")?;
    }
    let meters = Meters {
        heap,
        list: settled.meters.as_slice(),
    };
    let mut teller = Teller::new(settled);
    for (step, outcome) in settled.steps.iter().zip(settled.done.outcomes.iter()) {
        if let Some(told) = teller.tell(step.task, *outcome) {
            write!(
                text,
                "line {:>4}  {}",
                step.line,
                Paragraph { meters, told }
            )?;
        }
    }
    if !text.as_str().ends_with("\n\n") {
        writeln!(text, "")?;
    }
    write_counts(&mut text, label, settled.counts)?;
    Ok(text)
}
