// What a season holds: its sites, and its days with their events.
ghost use Rattle.std.specs.Prelude.{◌≡◌, Ok};
ghost use Rattle.tariff.specs.Events.{standing_event};
ghost use Rattle.tariff.specs.Kinds.{kind_number, kind_numbered};

use crate::call::SeasonRefusal;

// The kind of a site: one plant, or several that are metered together.
#[derive(Clone, Copy, PartialEq, Eq, Debug)]
pub enum Kind {
    Single,
    Aggregated,
}

impl Kind {
    // The number that callers and reports have for a kind.
    // A method and no `From`: `kind.number()` names what `u32::from(kind)` would leave to guess, as for refusals and uses.
    pub fn number(self) -> u32
        ensures is { result ≡ kind_number self }
        ensures back { kind_numbered result ≡ Ok self }
    {
        match self {
            Kind::Single => 0,
            Kind::Aggregated => 1,
        }
    }
}

impl TryFrom<u32> for Kind {
    type Error = SeasonRefusal;

    ghost try_from_gives = { λ number r. r ≡ kind_numbered number };

    fn try_from(number: u32) -> Result<Kind, SeasonRefusal> {
        match number {
            0 => Ok(Kind::Single),
            1 => Ok(Kind::Aggregated),
            _ => Err(SeasonRefusal::NoSuchKind),
        }
    }
}

// A site: its kind, the highest figure taken for it before the third accepted announcement, and its nomination for each of
// ten weeks, in kW.
#[derive(Clone, Copy, PartialEq, Eq)]
pub struct Site {
    pub kind: Kind,
    pub highest: u32,
    pub weeks: [u32; 10],
}

// An event: the hour of the day in which it starts, its length in hours, and its notice, the moment at which it was announced,
// in minutes since June 1, 00:00.
#[derive(Clone, Copy, PartialEq, Eq)]
pub struct Event {
    pub start: u8,
    pub length: u8,
    pub notice: u32,
}

// A day of the summer: without an event, with one that stands, or with one that was announced and then revoked.
#[derive(Clone, Copy, PartialEq, Eq)]
pub enum Day {
    NoEvent,
    Standing(Event),
    Revoked(Event),
}

impl Day {
    // The event that stands on the day, where one does.
    pub fn standing(self) -> Option<Event>
        ensures { result ≡ standing_event self }
    {
        match self {
            Day::Standing(event) => Some(event),
            Day::NoEvent | Day::Revoked(_) => None,
        }
    }
}

// One hour of a standing event: the event's number, its day and the hour of the day.
#[derive(Clone, Copy, Default)]
pub struct EventHour {
    pub event: u8,
    pub day: u8,
    pub hour: u8,
}
