// The calls of a season and their answers, in words.
use crate::dates::Moment;
use crate::figures::Grouped;
use std::fmt;
use std::fmt::{Display, Formatter, Write};
use tariff::call::{Answer, Call};
use tariff::season::Kind;

// How many there are of something, as `3 hours` or `1 hour`.
#[derive(Clone, Copy)]
pub(crate) struct Count(pub u32, pub &'static str);

impl Display for Count {
    fn fmt<W: Write>(&self, f: &mut Formatter<W>) -> fmt::Result {
        let Count(count, noun) = *self;
        let ending = if count == 1 { "" } else { "s" };
        write!(f, "{count} {noun}{ending}")
    }
}

// A kind of site, by the number that a call gives for it.
#[derive(Clone, Copy)]
struct SiteOfKind(u32);

impl Display for SiteOfKind {
    fn fmt<W: Write>(&self, f: &mut Formatter<W>) -> fmt::Result {
        match Kind::try_from(self.0) {
            Ok(Kind::Single) => write!(f, "a single site"),
            Ok(Kind::Aggregated) => write!(f, "an aggregated site"),
            Err(_) => write!(f, "a site of kind {}", self.0),
        }
    }
}

// The hour in which an event starts, which may be none of the day.
#[derive(Clone, Copy)]
struct Start(u32);

impl Display for Start {
    fn fmt<W: Write>(&self, f: &mut Formatter<W>) -> fmt::Result {
        let Start(hour) = *self;
        if hour < 24 {
            write!(f, "{hour:02}:00")
        } else {
            write!(f, "hour {hour}")
        }
    }
}

// A call, in words: what it asks for, and its moment. The year is that of the season in force, if one was opened.
#[derive(Clone, Copy)]
pub(crate) struct Asked {
    pub year: Option<u32>,
    pub call: Call,
}

impl Asked {
    // A moment of the season in force.
    fn at(self, minutes: u32) -> Moment {
        Moment {
            year: self.year,
            minutes,
        }
    }
}

impl Display for Asked {
    fn fmt<W: Write>(&self, f: &mut Formatter<W>) -> fmt::Result {
        match self.call {
            Call::Enrol { moment, kind, kw } => {
                let site = SiteOfKind(kind);
                let kw = Grouped(u64::from(kw));
                write!(f, "enrol {site} with {kw} kW, {}", self.at(moment))
            }
            Call::Nominate {
                moment,
                site,
                week,
                kw,
            } => {
                let kw = Grouped(u64::from(kw));
                let when = self.at(moment);
                write!(
                    f,
                    "nominate {kw} kW for site {site} from week {week} on, {when}"
                )
            }
            Call::Announce {
                moment,
                start,
                length,
            } => {
                let hours = Count(length, "hour");
                let start = Start(start);
                write!(
                    f,
                    "announce an event of {hours} from {start}, {}",
                    self.at(moment)
                )
            }
            Call::Revoke { moment } => {
                let when = self.at(moment);
                write!(f, "revoke the event of the day, {when}")
            }
            Call::Close => write!(f, "close the season"),
        }
    }
}

// What a call that was taken answered, in words.
#[derive(Clone, Copy)]
pub(crate) struct Answered(pub Answer);

impl Display for Answered {
    fn fmt<W: Write>(&self, f: &mut Formatter<W>) -> fmt::Result {
        match self.0 {
            Answer::Site(site) => write!(f, "enrolled as site {site}"),
            Answer::Week(week) => write!(f, "taken for week {week} and the weeks after it"),
            Answer::Announced(count) => write!(f, "accepted as announcement {count}"),
            Answer::Revoked(hours) => write!(f, "revoked, with its {}", Count(hours, "hour")),
            Answer::Closed(events, hours) => {
                let events = Count(events, "event");
                write!(
                    f,
                    "closed, with {events} and {}",
                    Count(hours, "event hour")
                )
            }
        }
    }
}
