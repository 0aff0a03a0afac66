// What a statement is made of, and why a request for one is refused.
ghost use Rattle.std.specs.Prelude.{◌≡◌};
ghost use Rattle.tariff.specs.Refusals.{statement_refusal_number};
ghost use Rattle.tariff.specs.declared.statement.StatementRefusal.TheVariants.{EventWithoutBaseline};

use crate::fault::BaselineFault;

// What was measured in one hour of a standing event. B is three times the original baseline in Wh, the adjusted baseline is in
// thirtieths of a Wh, and the reduction and what it falls short of the nomination are in Wh.
#[derive(Clone, Copy, Default)]
pub struct MeasuredHour {
    pub event: u8,
    pub day: u8,
    pub hour: u8,
    pub base: u64,
    pub adjusted: u64,
    pub reduction: u64,
    pub shortfall: u64,
}

// A line of a statement for one event hour: what was measured, and what it pays and costs in millicents.
#[derive(Clone, Copy, PartialEq, Eq, Default)]
pub struct HourLine {
    pub event: u8,
    pub day: u8,
    pub hour: u8,
    pub base: u64,
    pub adjusted: u64,
    pub reduction: u64,
    pub shortfall: u64,
    pub energy: u64,
    pub adjustment: u64,
}

// A line of a statement for one week: its nomination in kW, its event hours, the sum of their counted reductions in Wh, its
// programme days, and what it pays in millicents.
#[derive(Clone, Copy, PartialEq, Eq, Default)]
pub struct WeekLine {
    pub nomination: u32,
    pub hours: u8,
    pub counted: u64,
    pub days: u8,
    pub capacity: u64,
}

// A site's statement. The totals are in millicents, and what is paid in cents.
#[derive(Clone, Copy, PartialEq, Eq, Default)]
pub struct Statement {
    pub hours: [HourLine; 60],
    pub weeks: [WeekLine; 10],
    pub incentive: u64,
    pub charged: u64,
    pub taken: u64,
    pub net: u64,
    pub paid: u64,
}

// What keeps the baseline of an event from being worked out, with the event's number.
#[derive(Clone, Copy, PartialEq, Eq, Debug)]
pub struct EventFault {
    pub event: u8,
    pub fault: BaselineFault,
}

// Why a request for a statement is refused.
#[derive(Clone, Copy, PartialEq, Eq, Debug)]
pub enum StatementRefusal {
    SeasonNotClosed,
    NoSuchSite,
    EventWithoutBaseline(EventFault),
}

impl StatementRefusal {
    // The number that a caller is shown for a refusal.
    // A method and no `From`: `u32::from(refusal)` would not tell it from the number of the event that lacks a baseline.
    pub fn number(self) -> u32
        ensures { result ≡ statement_refusal_number self }
    {
        match self {
            StatementRefusal::SeasonNotClosed => 3,
            StatementRefusal::NoSuchSite => 9,
            StatementRefusal::EventWithoutBaseline(event) => event.fault.number(),
        }
    }
}

impl From<EventFault> for StatementRefusal {
    ghost from_gives = { λ x r. r ≡ EventWithoutBaseline x };

    fn from(x: EventFault) -> StatementRefusal {
        StatementRefusal::EventWithoutBaseline(x)
    }
}
