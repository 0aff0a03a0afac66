// A statement that was refused, in words: why, and of an event without a baseline the day, the hour and the meters.
use crate::INDENT;
use crate::dates::{Date, Hour};
use crate::meters::Meters;
use crate::refusals::Refused;
use batch::plan::BatchMeter;
use std::fmt;
use std::fmt::{Display, Formatter, Write};
use tariff::fault::{BaselineFault, HourGap, Use};
use tariff::reading::Gap;
use tariff::statement::{EventFault, StatementRefusal};

// Why a request for one statement or two was refused, each line with its end: the meters of the batch, the year of the season in
// force, the places of the meters that the request names, and the refusal.
#[derive(Clone, Copy)]
pub(crate) struct Unstated<'a> {
    pub meters: Meters<'a>,
    pub year: Option<u32>,
    pub asked: &'a [usize],
    pub refusal: StatementRefusal,
}

// What a day is needed for.
#[derive(Clone, Copy)]
struct Needed {
    purpose: Use,
    event: u8,
}

impl Display for Needed {
    fn fmt<W: Write>(&self, f: &mut Formatter<W>) -> fmt::Result {
        let event = self.event;
        match self.purpose {
            Use::Comparison => write!(f, "a day that event {event} is compared with"),
            Use::EventDay => write!(f, "the day of event {event}"),
        }
    }
}

// The name of a meter that is the table under a number.
fn table_name<'a>(meter: &BatchMeter<'a>, missing: u32) -> Option<&'a str> {
    match *meter {
        BatchMeter::Table { name, number, .. } if number == missing => Some(name),
        _ => None,
    }
}

// The name of a meter that is a pair.
fn pair_name<'a>(meter: &BatchMeter<'a>) -> Option<&'a str> {
    match *meter {
        BatchMeter::Pair { name, .. } => Some(name),
        BatchMeter::Table { .. } => None,
    }
}

impl Unstated<'_> {
    // Whose load is not there, or whose loads are too much together.
    fn write_meters<W: Write>(self, f: &mut Formatter<W>, gap: Gap) -> fmt::Result {
        let marks = self.meters.standing_in(self.asked)?;
        let standing = self
            .meters
            .list
            .iter()
            .zip(marks.iter())
            .filter(|(_, stands)| **stands);
        match gap {
            Gap::Missing(number) => {
                write!(f, "{INDENT}the meter is ")?;
                let names = standing.filter_map(|(handed, _)| table_name(&handed.meter, number));
                f.write_joined(names, " and ")?;
                writeln!(f, ", made with number {number}")
            }
            Gap::Over => {
                write!(f, "{INDENT}its meters are paired in ")?;
                f.write_joined(
                    standing.filter_map(|(handed, _)| pair_name(&handed.meter)),
                    " and ",
                )?;
                writeln!(f, "")
            }
        }
    }
}

impl Display for Unstated<'_> {
    fn fmt<W: Write>(&self, f: &mut Formatter<W>) -> fmt::Result {
        writeln!(f, "{INDENT}{}", Refused::from(self.refusal))?;
        let StatementRefusal::EventWithoutBaseline(EventFault { event, fault }) = self.refusal
        else {
            return Ok(());
        };
        let BaselineFault::HourWithoutLoad(
            HourGap {
                gap,
                purpose,
                day,
                hour,
            },
        ) = fault;
        let date = Date {
            year: self.year,
            day: u32::from(day),
        };
        let hour = Hour(hour);
        writeln!(
            f,
            "{INDENT}the hour is {hour} on {date}, {}",
            Needed { purpose, event }
        )?;
        self.write_meters(f, gap)
    }
}
