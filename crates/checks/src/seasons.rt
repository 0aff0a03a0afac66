// What the tests of calls and statements share: moments, calls and seasons.
use season::Season;
use std::process::Abort;
use tariff::call::{Answer, Call, SeasonRefusal};

// A call that a test expects to be refused, with the refusal and its number.
#[derive(Clone, Copy)]
pub(crate) struct Expected {
    pub(crate) call: Call,
    pub(crate) refusal: SeasonRefusal,
    pub(crate) number: u32,
}

// A minute of a day of the summer.
pub(crate) fn at(day: u32, minute: u32) -> u32 {
    day.saturating_mul(1440).saturating_add(minute)
}

pub(crate) fn noon(day: u32) -> u32 {
    at(day, 720)
}

pub(crate) fn enrol(moment: u32, kind: u32, kw: u32) -> Call {
    Call::Enrol { moment, kind, kw }
}

pub(crate) fn nominate(moment: u32, site: u32, week: u32, kw: u32) -> Call {
    Call::Nominate {
        moment,
        site,
        week,
        kw,
    }
}

pub(crate) fn announce(moment: u32, start: u32, length: u32) -> Call {
    Call::Announce {
        moment,
        start,
        length,
    }
}

pub(crate) fn revoke(moment: u32) -> Call {
    Call::Revoke { moment }
}

// A newly opened season of a year.
pub(crate) fn opened(rt: &impl Abort, year: u32) -> Season {
    let mut season = Season::new();
    assert!(rt; season.open(year).is_ok());
    season
}

// The call is taken, with this answer.
pub(crate) fn taken(rt: &impl Abort, season: &mut Season, call: Call, answer: Answer) {
    assert!(rt; season.call(call) == Ok(answer));
}

// Each call is taken, with its answer.
pub(crate) fn all_taken(rt: &impl Abort, season: &mut Season, calls: &[(Call, Answer)]) {
    for (call, answer) in calls {
        taken(rt, season, *call, *answer);
    }
}

// A closed season of 2015 with one site of a kind, at 60 kW, and one event, on June 15 from 14:00 to 18:00.
pub(crate) fn one_event(rt: &impl Abort, kind: u32) -> Season {
    let mut season = opened(rt, 2015);
    let calls = [
        (enrol(0, kind, 60), Answer::Site(1)),
        (announce(noon(14), 14, 4), Answer::Announced(1)),
        (Call::Close, Answer::Closed(1, 4)),
    ];
    all_taken(rt, &mut season, &calls);
    season
}

// The call is refused, with this number, and leaves the whole record.
pub(crate) fn refused(rt: &impl Abort, season: &mut Season, case: Expected) {
    let before = *season;
    assert!(rt; season.call(case.call) == Err(case.refusal));
    assert!(rt; case.refusal.number() == case.number);
    assert!(rt; *season == before);
}

pub(crate) fn all_refused(rt: &impl Abort, season: &mut Season, cases: &[Expected]) {
    for case in cases {
        refused(rt, season, *case);
    }
}

pub(crate) fn case(call: Call, refusal: SeasonRefusal, number: u32) -> Expected {
    Expected {
        call,
        refusal,
        number,
    }
}
