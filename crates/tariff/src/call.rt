// The calls of a season, their answers, and why one is refused.
ghost use Rattle.std.specs.Prelude.{◌≡◌};
ghost use Rattle.tariff.specs.Refusals.{season_refusal_number};

// A call of a season that is open. Moments are minutes since June 1, 00:00, and figures are kW.
#[derive(Clone, Copy)]
pub enum Call {
    Enrol {
        moment: u32,
        // a number and no `Kind`: a caller may give any, and the season refuses those of no kind
        kind: u32,
        kw: u32,
    },
    Nominate {
        moment: u32,
        site: u32,
        week: u32,
        kw: u32,
    },
    Announce {
        moment: u32,
        start: u32,
        length: u32,
    },
    Revoke {
        moment: u32,
    },
    Close,
}

// What a call that is taken answers: the new site's number, the week nominated, how many announcements have been accepted,
// the revoked event's length, or the standing events and their hours.
#[derive(Clone, Copy, PartialEq, Eq, Debug)]
pub enum Answer {
    Site(u32),
    Week(u32),
    Announced(u32),
    Revoked(u32),
    Closed(u32, u32),
}

// Why a call of a season is refused.
#[derive(Clone, Copy, PartialEq, Eq, Debug)]
pub enum SeasonRefusal {
    YearOutside,
    SeasonClosed,
    MomentPastEnd,
    MomentBeforeClock,
    EnrolmentTooLate,
    NoSuchKind,
    SitesFull,
    NoSuchSite,
    NoSuchWeek,
    NominationTooLate,
    FigureOutside,
    FigureAboveHighest,
    NoBusinessDay,
    HoursOutside,
    NoticeOutside,
    DayAnnounced,
    WeekFull,
    SeasonFull,
    NoEventStands,
    RevocationTooLate,
}

impl SeasonRefusal {
    // The number that a caller is shown for a refusal.
    // A method and no `From`: `u32::from(refusal)` would not say that the number shown to a caller is meant.
    pub fn number(self) -> u32
        ensures { result ≡ season_refusal_number self }
    {
        match self {
            SeasonRefusal::YearOutside => 1,
            SeasonRefusal::SeasonClosed => 2,
            SeasonRefusal::MomentPastEnd => 4,
            SeasonRefusal::MomentBeforeClock => 5,
            SeasonRefusal::EnrolmentTooLate => 6,
            SeasonRefusal::NoSuchKind => 7,
            SeasonRefusal::SitesFull => 8,
            SeasonRefusal::NoSuchSite => 9,
            SeasonRefusal::NoSuchWeek => 10,
            SeasonRefusal::NominationTooLate => 11,
            SeasonRefusal::FigureOutside => 12,
            SeasonRefusal::FigureAboveHighest => 13,
            SeasonRefusal::NoBusinessDay => 14,
            SeasonRefusal::HoursOutside => 15,
            SeasonRefusal::NoticeOutside => 16,
            SeasonRefusal::DayAnnounced => 17,
            SeasonRefusal::WeekFull => 18,
            SeasonRefusal::SeasonFull => 19,
            SeasonRefusal::NoEventStands => 20,
            SeasonRefusal::RevocationTooLate => 21,
        }
    }
}
