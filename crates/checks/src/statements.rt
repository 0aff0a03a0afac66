// Statements worked out by hand, and their refusals.
use crate::limits::{FIFTEEN_DAYS, sixty_hours};
use crate::seasons::{enrol, one_event, opened, taken};
use crate::summers::{cut, held, hourly, put, summer};
use meter::pair::PairMeter;
use season::Season;
use statement::compare::compare;
use statement::request::statement;
use std::process::Abort;
use std::test::Fail;
use tariff::call::{Answer, Call};
use tariff::fault::{BaselineFault, HourGap, Use};
use tariff::reading::Gap;
use tariff::statement::{EventFault, StatementRefusal};

// A closed season of a year without events, with one site at 60 kW.
fn without_events(rt: &impl Abort, year: u32) -> Season {
    let mut season = opened(rt, year);
    taken(rt, &mut season, enrol(0, 0, 60), Answer::Site(1));
    taken(rt, &mut season, Call::Close, Answer::Closed(0, 0));
    season
}

// Nine weeks of five programme days at 65,000 × 60 each, and no hour is asked of the meter.
#[test]
fn a_summer_without_events_pays_capacity_alone(rt: HostRuntime) {
    let season = without_events(&rt, 2015);
    let mut meter = hourly(&[], 1);
    let mut record = held();
    assert!(rt; statement(&season, 1, &mut meter, &mut record) == Ok(0));
    assert!(rt;
        record.incentive == 175_500_000 && record.net == 175_500_000 && record.paid == 175_500
    );
    assert!(rt; record.weeks[8].capacity == 19_500_000 && record.weeks[9].capacity == 0);
}

// Week 1 of 2019 has no programme day, and week 10 has four.
#[test]
fn a_week_without_programme_days_pays_nothing(rt: HostRuntime) {
    let season = without_events(&rt, 2019);
    let mut meter = hourly(&[], 1);
    let mut record = held();
    assert!(rt; statement(&season, 1, &mut meter, &mut record) == Ok(0));
    assert!(rt; record.weeks[0].days == 0 && record.weeks[0].capacity == 0);
    assert!(rt; record.weeks[9].days == 4 && record.paid == 171_600);
}

// 305 kWh in every hour and 250 in the event's: 55 kWh are shed in each, and 5 are missing at 60 kW.
#[test]
fn one_event_is_measured_and_paid(rt: HostRuntime) -> Result<(), Fail> {
    let season = one_event(&rt, 1);
    let mut cells = summer(rt.alloc(), 305_000)?;
    cut(&mut cells, &[14], 250_000);
    let mut meter = hourly(cells.as_slice(), 1);
    let mut record = held();
    assert!(rt; statement(&season, 1, &mut meter, &mut record) == Ok(4));
    let line = record.hours[3];
    assert!(rt; line.event == 1 && line.day == 14 && line.hour == 17 && line.base == 915_000);
    assert!(rt; line.adjusted == 9_150_000 && line.reduction == 55_000 && line.shortfall == 5_000);
    assert!(rt; line.energy == 0 && line.adjustment == 1_000_000);
    assert!(rt; record.hours[4].event == 0 && record.hours[4].adjusted == 0);
    assert!(rt; record.weeks[0].counted == 220_000 && record.weeks[0].capacity == 17_875_000);
    assert!(rt;
        record.incentive == 173_875_000 && record.charged == 4_000_000 && record.taken == 4_000_000
    );
    assert!(rt; record.net == 169_875_000 && record.paid == 169_875);
    Ok(())
}

// Fifteen events of four hours: energy and the lower adjustment begin with the fourth.
#[test]
fn sixty_hours_are_measured_and_paid(rt: HostRuntime) -> Result<(), Fail> {
    let mut season = opened(&rt, 2015);
    taken(&rt, &mut season, enrol(0, 0, 60), Answer::Site(1));
    sixty_hours(&rt, &mut season);
    taken(&rt, &mut season, Call::Close, Answer::Closed(15, 60));
    let mut cells = summer(rt.alloc(), 305_000)?;
    cut(&mut cells, &FIFTEEN_DAYS, 250_000);
    let mut meter = hourly(cells.as_slice(), 1);
    let mut record = held();
    assert!(rt; statement(&season, 1, &mut meter, &mut record) == Ok(60));
    assert!(rt;
        record.hours[59].event == 15 && record.hours[59].day == 44 && record.hours[59].hour == 17
    );
    assert!(rt; record.hours[12].energy == 880_000 && record.hours[12].adjustment == 125_000);
    assert!(rt; record.incentive == 209_615_000 && record.charged == 18_000_000);
    assert!(rt; record.net == 191_615_000 && record.paid == 191_615);
    Ok(())
}

// 3 and 9.
#[test]
fn a_statement_needs_a_closed_season_and_a_site(rt: HostRuntime) {
    let mut season = opened(&rt, 2015);
    taken(&rt, &mut season, enrol(0, 0, 60), Answer::Site(1));
    let mut meter = hourly(&[], 1);
    let mut record = held();
    assert!(rt;
        statement(&season, 1, &mut meter, &mut record) == Err(StatementRefusal::SeasonNotClosed)
    );
    assert!(rt; StatementRefusal::SeasonNotClosed.number() == 3);
    taken(&rt, &mut season, Call::Close, Answer::Closed(0, 0));
    assert!(rt;
        statement(&season, 0, &mut meter, &mut record) == Err(StatementRefusal::NoSuchSite)
    );
    assert!(rt;
        statement(&season, 2, &mut meter, &mut record) == Err(StatementRefusal::NoSuchSite)
    );
    assert!(rt;
        statement(&Season::new(), 1, &mut meter, &mut record) == Err(StatementRefusal::NoSuchSite)
    );
    assert!(rt; StatementRefusal::NoSuchSite.number() == 9);
    assert!(rt; record == held());
}

// 25: the earliest day first, hours rising, then the event's own day.
#[test]
fn the_first_missing_hour_is_told(rt: HostRuntime) -> Result<(), Fail> {
    let season = one_event(&rt, 1);
    let mut cells = summer(rt.alloc(), 305_000)?;
    put(&mut cells, 14, 0, u32::MAX);
    put(&mut cells, 11, 0, u32::MAX);
    put(&mut cells, 0, 23, u32::MAX);
    let mut meter = hourly(cells.as_slice(), 7);
    let mut record = held();
    let fault = BaselineFault::HourWithoutLoad(HourGap {
        gap: Gap::Missing(7),
        purpose: Use::Comparison,
        day: 0,
        hour: 23,
    });
    let refusal = StatementRefusal::EventWithoutBaseline(EventFault { event: 1, fault });
    assert!(rt; statement(&season, 1, &mut meter, &mut record) == Err(refusal));
    assert!(rt; refusal.number() == 25);
    assert!(rt; record == held());
    Ok(())
}

// 26: two meters that come to more than an hour may hold, on the event's own day.
#[test]
fn an_hour_that_is_over_is_told(rt: HostRuntime) -> Result<(), Fail> {
    let season = one_event(&rt, 1);
    let mut cells = summer(rt.alloc(), 305_000)?;
    put(&mut cells, 14, 20, 60_000_000);
    let first = hourly(cells.as_slice(), 1);
    let second = hourly(cells.as_slice(), 2);
    let mut pair = PairMeter { first, second };
    let mut record = held();
    let fault = BaselineFault::HourWithoutLoad(HourGap {
        gap: Gap::Over,
        purpose: Use::EventDay,
        day: 14,
        hour: 20,
    });
    let refusal = StatementRefusal::EventWithoutBaseline(EventFault { event: 1, fault });
    assert!(rt; statement(&season, 1, &mut pair, &mut record) == Err(refusal));
    assert!(rt; refusal.number() == 26);
    assert!(rt; record == held());
    Ok(())
}

// A pair in a pair settles as one meter does that has the sum.
#[test]
fn an_aggregated_site_is_settled_on_pairs(rt: HostRuntime) -> Result<(), Fail> {
    let season = one_event(&rt, 1);
    let whole = summer(rt.alloc(), 305_000)?;
    let part = summer(rt.alloc(), 100_000)?;
    let rest = summer(rt.alloc(), 105_000)?;
    let mut single = hourly(whole.as_slice(), 1);
    let a = hourly(part.as_slice(), 2);
    let b = hourly(rest.as_slice(), 3);
    let c = hourly(part.as_slice(), 4);
    let inner = PairMeter {
        first: a,
        second: b,
    };
    let mut pairs = PairMeter {
        first: inner,
        second: c,
    };
    let mut one = held();
    let mut two = held();
    assert!(rt; compare(&season, 1, &mut single, &mut pairs, &mut one, &mut two) == Ok(4));
    assert!(rt; one == two && one.charged == 48_000_000);
    Ok(())
}

// A deeper cut is compared with the first, and where the second meter has a gap neither record is filled.
#[test]
fn two_summers_are_compared(rt: HostRuntime) -> Result<(), Fail> {
    let season = one_event(&rt, 1);
    let mut cells = summer(rt.alloc(), 305_000)?;
    cut(&mut cells, &[14], 250_000);
    let mut deeper = summer(rt.alloc(), 305_000)?;
    cut(&mut deeper, &[14], 240_000);
    let mut first = hourly(cells.as_slice(), 1);
    let mut second = hourly(deeper.as_slice(), 2);
    let mut none = hourly(&[], 3);
    let mut one = held();
    let mut two = held();
    assert!(rt; compare(&season, 1, &mut first, &mut none, &mut one, &mut two).is_err());
    assert!(rt; one == held() && two == held());
    assert!(rt; compare(&season, 1, &mut first, &mut second, &mut one, &mut two) == Ok(4));
    assert!(rt; one.paid == 169_875 && two.hours[0].reduction == 65_000 && two.charged == 0);
    assert!(rt; two.paid == 177_125);
    Ok(())
}
