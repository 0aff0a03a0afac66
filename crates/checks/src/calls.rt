// Each refusal of a call at its edge.
use crate::seasons::{
    all_refused, announce, at, case, enrol, nominate, noon, opened, revoke, taken,
};
use season::{ListRefusal, Season};
use std::test::Fail;
use tariff::call::{Answer, Call, SeasonRefusal};

// 1, and an opened record in place of one that was never opened, and of a closed one.
#[test]
fn years_from_2015_to_2099_open(rt: HostRuntime) {
    let mut season = Season::new();
    let never = season;
    assert!(rt; season.open(2014) == Err(SeasonRefusal::YearOutside));
    assert!(rt; season.open(2100) == Err(SeasonRefusal::YearOutside));
    assert!(rt; SeasonRefusal::YearOutside.number() == 1);
    assert!(rt; season == never);
    assert!(rt; season.open(2015) == Ok(9));
    let new = season;
    assert!(rt; season.close() == Ok((0, 0)));
    assert!(rt; season.open(2019) == Ok(10));
    assert!(rt; season.open(2099).is_ok());
    assert!(rt; season.open(2015) == Ok(9));
    assert!(rt; season == new);
}

// 2: a closed record, and one that was never opened, take no call but opening.
#[test]
fn a_closed_season_takes_no_call(rt: HostRuntime) {
    let cases = [
        case(enrol(0, 0, 60), SeasonRefusal::SeasonClosed, 2),
        case(nominate(0, 1, 2, 60), SeasonRefusal::SeasonClosed, 2),
        case(announce(noon(14), 14, 4), SeasonRefusal::SeasonClosed, 2),
        case(revoke(noon(14)), SeasonRefusal::SeasonClosed, 2),
        case(Call::Close, SeasonRefusal::SeasonClosed, 2),
    ];
    let mut never = Season::new();
    all_refused(&rt, &mut never, &cases);
    let mut season = opened(&rt, 2015);
    taken(&rt, &mut season, Call::Close, Answer::Closed(0, 0));
    all_refused(&rt, &mut season, &cases);
}

// 4, 6, 7 and 12 of an enrolment.
#[test]
fn enrolments_keep_their_bounds(rt: HostRuntime) {
    let mut season = opened(&rt, 2015);
    let cases = [
        case(enrol(109_440, 0, 60), SeasonRefusal::MomentPastEnd, 4),
        case(enrol(109_439, 0, 60), SeasonRefusal::EnrolmentTooLate, 6),
        case(enrol(20_160, 0, 60), SeasonRefusal::EnrolmentTooLate, 6),
        case(enrol(0, 2, 60), SeasonRefusal::NoSuchKind, 7),
        case(enrol(0, 0, 19), SeasonRefusal::FigureOutside, 12),
        case(enrol(0, 1, 34), SeasonRefusal::FigureOutside, 12),
        case(enrol(0, 0, 100_001), SeasonRefusal::FigureOutside, 12),
    ];
    all_refused(&rt, &mut season, &cases);
    taken(&rt, &mut season, enrol(20_159, 0, 20), Answer::Site(1));
    taken(&rt, &mut season, enrol(0, 1, 35), Answer::Site(2));
    taken(&rt, &mut season, enrol(0, 0, 100_000), Answer::Site(3));
}

// 9, 10, 11 and 12 of a nomination.
#[test]
fn nominations_keep_their_bounds(rt: HostRuntime) {
    let mut season = opened(&rt, 2015);
    taken(&rt, &mut season, enrol(0, 0, 60), Answer::Site(1));
    let cases = [
        case(nominate(109_440, 1, 2, 60), SeasonRefusal::MomentPastEnd, 4),
        case(nominate(0, 0, 2, 60), SeasonRefusal::NoSuchSite, 9),
        case(nominate(0, 2, 2, 60), SeasonRefusal::NoSuchSite, 9),
        case(nominate(0, 1, 0, 60), SeasonRefusal::NoSuchWeek, 10),
        case(nominate(0, 1, 10, 60), SeasonRefusal::NoSuchWeek, 10),
        case(
            nominate(25_081, 1, 2, 60),
            SeasonRefusal::NominationTooLate,
            11,
        ),
        case(nominate(25_080, 1, 2, 19), SeasonRefusal::FigureOutside, 12),
        case(
            nominate(25_080, 1, 2, 100_001),
            SeasonRefusal::FigureOutside,
            12,
        ),
    ];
    all_refused(&rt, &mut season, &cases);
    taken(
        &rt,
        &mut season,
        nominate(25_080, 1, 2, 80),
        Answer::Week(2),
    );
    taken(&rt, &mut season, nominate(0, 1, 9, 20), Answer::Week(9));
}

// 14, 15 and 16 of an announcement.
#[test]
fn announcements_keep_their_bounds(rt: HostRuntime) {
    let mut season = opened(&rt, 2015);
    let cases = [
        case(announce(noon(11), 14, 4), SeasonRefusal::NoBusinessDay, 14),
        case(announce(noon(19), 14, 4), SeasonRefusal::NoBusinessDay, 14),
        case(announce(noon(32), 14, 4), SeasonRefusal::NoBusinessDay, 14),
        case(announce(noon(14), 14, 1), SeasonRefusal::HoursOutside, 15),
        case(announce(noon(14), 14, 5), SeasonRefusal::HoursOutside, 15),
        case(announce(noon(14), 13, 4), SeasonRefusal::HoursOutside, 15),
        case(announce(noon(14), 17, 4), SeasonRefusal::HoursOutside, 15),
        case(announce(noon(14), 16, 4), SeasonRefusal::NoticeOutside, 16),
        case(
            announce(at(14, 659), 14, 4),
            SeasonRefusal::NoticeOutside,
            16,
        ),
        case(
            announce(at(14, 781), 14, 4),
            SeasonRefusal::NoticeOutside,
            16,
        ),
    ];
    all_refused(&rt, &mut season, &cases);
    taken(
        &rt,
        &mut season,
        announce(at(14, 660), 14, 2),
        Answer::Announced(1),
    );
    taken(
        &rt,
        &mut season,
        announce(at(15, 780), 14, 4),
        Answer::Announced(2),
    );
}

// 5, 17, 20 and 21.
#[test]
fn revocations_keep_their_bounds(rt: HostRuntime) {
    let mut season = opened(&rt, 2015);
    taken(
        &rt,
        &mut season,
        announce(noon(14), 14, 4),
        Answer::Announced(1),
    );
    let cases = [
        case(announce(noon(14), 14, 2), SeasonRefusal::DayAnnounced, 17),
        case(revoke(at(14, 719)), SeasonRefusal::MomentBeforeClock, 5),
        case(enrol(0, 0, 60), SeasonRefusal::MomentBeforeClock, 5),
        case(revoke(at(14, 811)), SeasonRefusal::RevocationTooLate, 21),
        case(revoke(noon(15)), SeasonRefusal::NoEventStands, 20),
    ];
    all_refused(&rt, &mut season, &cases);
    taken(&rt, &mut season, revoke(at(14, 810)), Answer::Revoked(4));
    let later = [
        case(revoke(at(14, 810)), SeasonRefusal::NoEventStands, 20),
        case(
            announce(at(14, 810), 16, 2),
            SeasonRefusal::DayAnnounced,
            17,
        ),
    ];
    all_refused(&rt, &mut season, &later);
    taken(&rt, &mut season, Call::Close, Answer::Closed(0, 0));
}

// A list of calls is run on a newly opened season, refused ones included; a refused year leaves the record.
#[test]
fn a_list_of_calls_is_run(rt: HostRuntime) -> Result<(), Fail> {
    let calls = [
        enrol(0, 0, 60),
        announce(noon(19), 14, 4),
        announce(noon(21), 14, 4),
        Call::Close,
        Call::Close,
    ];
    let mut season = Season::new();
    assert!(rt;
        season.run(rt.alloc(), 2014, &calls)
            == Err(ListRefusal::NotOpened(SeasonRefusal::YearOutside))
    );
    assert!(rt; season == Season::new());
    let answers = season.run(rt.alloc(), 2015, &calls)?;
    assert!(rt; answers.len() == 5);
    assert!(rt;
        answers[0] == Ok(Answer::Site(1)) && answers[1] == Err(SeasonRefusal::NoBusinessDay)
    );
    assert!(rt; answers[2] == Ok(Answer::Announced(1)) && answers[3] == Ok(Answer::Closed(1, 4)));
    assert!(rt; answers[4] == Err(SeasonRefusal::SeasonClosed));
    Ok(())
}
