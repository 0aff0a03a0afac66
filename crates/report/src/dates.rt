// Days, moments and hours of a summer as people read them.
use crate::figures::{Grouped, pad};
use calendar::weekday;
use std::fmt;
use std::fmt::{Display, Formatter, Write};

// The minutes of a summer's day, and the first minute after a summer.
const DAY: u32 = 1440;

const SUMMER: u32 = 109_440;

// The names of the weekdays, which are counted from 0 at Monday.
const WEEKDAYS: [&str; 7] = ["Mon", "Tue", "Wed", "Thu", "Fri", "Sat", "Sun"];

// A day of the summer, counted from 0 at June 1, shown as a date, with its weekday where the year is known. Days past the summer
// count on in August.
#[derive(Clone, Copy)]
pub(crate) struct Date {
    pub year: Option<u32>,
    pub day: u32,
}

impl Display for Date {
    fn fmt<W: Write>(&self, f: &mut Formatter<W>) -> fmt::Result {
        let day = self.day;
        let (number, month) = match day {
            0..30 => (day + 1, "June"),
            30..61 => (day - 29, "July"),
            _ => (day - 60, "August"),
        };
        match self.year {
            Some(year) => {
                let name = WEEKDAYS[weekday(year, day) as usize];
                pad(f, format_args!("{name} {number} {month}"))
            }
            None => pad(f, format_args!("{number} {month}")),
        }
    }
}

// A moment, in minutes since June 1, 00:00, shown as a date and a time of day.
#[derive(Clone, Copy)]
pub(crate) struct Moment {
    pub year: Option<u32>,
    pub minutes: u32,
}

impl Display for Moment {
    fn fmt<W: Write>(&self, f: &mut Formatter<W>) -> fmt::Result {
        let Moment { year, minutes } = *self;
        if minutes >= SUMMER {
            return write!(
                f,
                "minute {} after 1 June 00:00",
                Grouped(u64::from(minutes))
            );
        }
        let date = Date {
            year,
            day: minutes / DAY,
        };
        write!(f, "{date} {:02}:{:02}", minutes % DAY / 60, minutes % 60)
    }
}

// An hour of the day, shown by the two full hours that it lies between.
#[derive(Clone, Copy)]
pub(crate) struct Hour(pub u8);

impl Display for Hour {
    fn fmt<W: Write>(&self, f: &mut Formatter<W>) -> fmt::Result {
        let start = u32::from(self.0);
        pad(f, format_args!("{start:02}:00–{:02}:00", start + 1))
    }
}
