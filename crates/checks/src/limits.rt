// The limits of a season: 64 sites, 15 hours a week, 60 hours in all, and no figure above the highest after the third announcement.
use crate::seasons::{
    all_taken, announce, at, case, enrol, nominate, noon, opened, refused, revoke, taken,
};
use season::Season;
use std::process::Abort;
use tariff::call::{Answer, Call, SeasonRefusal};

// 8.
#[test]
fn a_season_has_64_sites(rt: HostRuntime) {
    let mut season = opened(&rt, 2015);
    for number in 1..=64u32 {
        taken(&rt, &mut season, enrol(0, 0, 60), Answer::Site(number));
    }
    refused(
        &rt,
        &mut season,
        case(enrol(0, 0, 60), SeasonRefusal::SitesFull, 8),
    );
}

// 18: events of 4, 4, 4 and 3 hours fit a week, and a revoked event's hours are free.
#[test]
fn a_week_has_15_hours(rt: HostRuntime) {
    let mut season = opened(&rt, 2015);
    let calls = [
        (announce(noon(14), 14, 4), Answer::Announced(1)),
        (announce(noon(15), 14, 4), Answer::Announced(2)),
        (announce(noon(16), 14, 4), Answer::Announced(3)),
        (announce(noon(17), 14, 3), Answer::Announced(4)),
    ];
    all_taken(&rt, &mut season, &calls);
    refused(
        &rt,
        &mut season,
        case(announce(noon(18), 14, 2), SeasonRefusal::WeekFull, 18),
    );
    let later = [
        (revoke(at(17, 721)), Answer::Revoked(3)),
        (announce(noon(18), 14, 3), Answer::Announced(5)),
        (Call::Close, Answer::Closed(4, 15)),
    ];
    all_taken(&rt, &mut season, &later);
}

// Three days in each of five weeks.
pub(crate) const FIFTEEN_DAYS: [u32; 15] = [
    14, 15, 16, 21, 22, 23, 28, 29, 30, 35, 36, 37, 42, 43, 44,
];

// An event of four hours on each of these days.
pub(crate) fn sixty_hours(rt: &impl Abort, season: &mut Season) {
    for (day, number) in FIFTEEN_DAYS.iter().zip(1..=15u32) {
        let answer = Answer::Announced(number);
        taken(rt, season, announce(noon(*day), 14, 4), answer);
    }
}

// 19.
#[test]
fn a_season_has_60_hours(rt: HostRuntime) {
    let mut season = opened(&rt, 2015);
    sixty_hours(&rt, &mut season);
    refused(
        &rt,
        &mut season,
        case(announce(noon(49), 14, 2), SeasonRefusal::SeasonFull, 19),
    );
    taken(&rt, &mut season, Call::Close, Answer::Closed(15, 60));
}

// 13: revoked announcements count among the three.
#[test]
fn no_figure_rises_above_the_highest_after_the_third_announcement(rt: HostRuntime) {
    let mut season = opened(&rt, 2015);
    let calls = [
        (enrol(0, 0, 60), Answer::Site(1)),
        (nominate(0, 1, 3, 70), Answer::Week(3)),
        (announce(noon(14), 14, 2), Answer::Announced(1)),
        (revoke(at(14, 721)), Answer::Revoked(2)),
        (announce(noon(15), 14, 2), Answer::Announced(2)),
        (nominate(noon(15), 1, 9, 80), Answer::Week(9)),
        (announce(noon(16), 14, 2), Answer::Announced(3)),
    ];
    all_taken(&rt, &mut season, &calls);
    refused(
        &rt,
        &mut season,
        case(
            nominate(noon(16), 1, 9, 81),
            SeasonRefusal::FigureAboveHighest,
            13,
        ),
    );
    taken(
        &rt,
        &mut season,
        nominate(noon(16), 1, 5, 80),
        Answer::Week(5),
    );
}
