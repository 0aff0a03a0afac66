// Columns that several tables have. In each table a figure stands at the end of its column, after a blank.
use crate::dates::{Date, Hour};
use calendar::first_monday;
use std::fmt;
use std::fmt::{Display, Formatter, Write};
use tariff::statement::HourLine;

// The heading of a table of event hours.
pub(crate) const HOURS_HEADING: &str =
    "    event  day            hour        baseline kWh adjusted kWh     shed kWh    short kWh      energy pay      adjustment";

// The first columns of an event hour: its event, its day and its hour.
#[derive(Clone, Copy)]
pub(crate) struct EventHour {
    event: u8,
    day: Date,
    hour: Hour,
}

impl EventHour {
    // The hour of a line, in a season of a year.
    pub(crate) fn of(year: u32, line: &HourLine) -> EventHour {
        EventHour {
            event: line.event,
            day: Date {
                year: Some(year),
                day: u32::from(line.day),
            },
            hour: Hour(line.hour),
        }
    }
}

impl Display for EventHour {
    fn fmt<W: Write>(&self, f: &mut Formatter<W>) -> fmt::Result {
        let EventHour { event, day, hour } = *self;
        write!(f, "    {event:>5}  {day:<13}  {hour:<11}")
    }
}

// The first columns of a week: its number, and the Monday on which it begins.
#[derive(Clone, Copy)]
pub(crate) struct Week {
    pub year: u32,
    pub number: u32,
}

impl Display for Week {
    fn fmt<W: Write>(&self, f: &mut Formatter<W>) -> fmt::Result {
        let Week { year, number } = *self;
        let weeks_before = number.saturating_sub(1).min(9);
        let begins = Date {
            year: Some(year),
            day: first_monday(year) + 7 * weeks_before,
        };
        write!(f, "    {number:>5}  {begins:<13} ")
    }
}
