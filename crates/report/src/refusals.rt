// What a refusal means, in words.
use meter::kind::TableKind;
use meter::refusal::RecordRefusal;
use std::fmt;
use std::fmt::{Display, Formatter, Write};
use tariff::call::SeasonRefusal;
use tariff::fault::BaselineFault;
use tariff::reading::Gap;
use tariff::statement::{EventFault, StatementRefusal};

// A refusal: its number, and what it means.
#[derive(Clone, Copy)]
pub(crate) struct Refused {
    number: u32,
    meaning: &'static str,
}

impl Display for Refused {
    fn fmt<W: Write>(&self, f: &mut Formatter<W>) -> fmt::Result {
        let Refused { number, meaning } = *self;
        write!(f, "refused, number {number}: {meaning}")
    }
}

// Why a call was refused.
// One text a variant: a type with `Display` around the refusal would say no more.
fn why_called_in_vain(refusal: SeasonRefusal) -> &'static str {
    match refusal {
        SeasonRefusal::YearOutside => "the year is not from 2015 to 2099",
        SeasonRefusal::SeasonClosed => "the season is closed, or none was opened",
        SeasonRefusal::MomentPastEnd => "the moment lies after 15 August",
        SeasonRefusal::MomentBeforeClock => {
            "the moment lies before the last announcement or revocation that was taken"
        }
        SeasonRefusal::EnrolmentTooLate => "sites enrol before 15 June",
        SeasonRefusal::NoSuchKind => "a site is single (0) or aggregated (1)",
        SeasonRefusal::SitesFull => "64 sites are enrolled, and there is room for no more",
        SeasonRefusal::NoSuchSite => "no site has this number",
        SeasonRefusal::NoSuchWeek => "the season has no such week",
        SeasonRefusal::NominationTooLate => {
            "nominations for a week end on Thursday of the week before, at 10:00"
        }
        SeasonRefusal::FigureOutside => {
            "a site nominates 20 kW (an aggregated one 35 kW) to 100,000 kW"
        }
        SeasonRefusal::FigureAboveHighest => {
            "after the third announcement no site goes above its highest figure from before"
        }
        SeasonRefusal::NoBusinessDay => {
            "events are on business days from 15 June to 15 August, without the holiday"
        }
        SeasonRefusal::HoursOutside => {
            "an event has 2 to 4 hours, from 14:00 at the earliest to 20:00 at the latest"
        }
        SeasonRefusal::NoticeOutside => "the notice is 3 hours to 1 hour before the start",
        SeasonRefusal::DayAnnounced => "an event was announced for this day before",
        SeasonRefusal::WeekFull => "the week would have more than 15 event hours",
        SeasonRefusal::SeasonFull => "the season would have more than 60 event hours",
        SeasonRefusal::NoEventStands => "no event stands on this day",
        SeasonRefusal::RevocationTooLate =>
            "an event is revoked 30 minutes before its start or earlier",
    }
}

impl From<SeasonRefusal> for Refused {
    fn from(refusal: SeasonRefusal) -> Refused {
        Refused {
            number: refusal.number(),
            meaning: why_called_in_vain(refusal),
        }
    }
}

// Why a request for a statement was refused.
impl From<StatementRefusal> for Refused {
    fn from(refusal: StatementRefusal) -> Refused {
        let meaning = match refusal {
            StatementRefusal::SeasonNotClosed => "the season is not closed",
            StatementRefusal::NoSuchSite => "no site has this number",
            StatementRefusal::EventWithoutBaseline(EventFault { fault, .. }) => missing_load(fault),
        };
        Refused {
            number: refusal.number(),
            meaning,
        }
    }
}

// Why an event has no baseline. One text a variant, as above.
fn missing_load(fault: BaselineFault) -> &'static str {
    let BaselineFault::HourWithoutLoad(hour) = fault;
    match hour.gap {
        Gap::Missing(_) => "an hour that is needed has no reading",
        Gap::Over => "in an hour that is needed two meters together are above 100,000 kWh",
    }
}

impl Refused {
    // Why a reading was refused.
    pub(crate) fn reading(refusal: RecordRefusal, kind: TableKind) -> Refused {
        let meaning = match (refusal, kind) {
            (RecordRefusal::NoSuchCell, TableKind::Hourly) => {
                "the summer has hours 0 to 1,823, and not this one"
            }
            (RecordRefusal::NoSuchCell, TableKind::Quarter) => {
                "the summer has quarter-hours 0 to 7,295, and not this one"
            }
            (RecordRefusal::LoadAboveLimit, TableKind::Hourly) => {
                "an hour holds at most 100,000,000 Wh"
            }
            (RecordRefusal::LoadAboveLimit, TableKind::Quarter) => {
                "a quarter-hour holds at most 25,000,000 Wh"
            }
            (RecordRefusal::CellTaken, TableKind::Hourly) => "the hour holds a load already",
            (RecordRefusal::CellTaken, TableKind::Quarter) =>
                "the quarter-hour holds a load already",
        };
        Refused {
            number: refusal.number(),
            meaning,
        }
    }
}
