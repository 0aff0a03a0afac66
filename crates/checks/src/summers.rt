// Tables of a whole summer, for the tests of statements.
use meter::table::HourlyMeter;
use std::alloc::Global;
use std::test::Fail;
use tariff::statement::{HourLine, Statement, WeekLine};

// Every hour of the summer with one load.
pub(crate) fn summer(heap: Global, load: u32) -> Result<Vec<u32>, Fail> {
    let cells = vec![in heap; load; 1824]?;
    Ok(cells)
}

// An hourly meter over a table.
pub(crate) fn hourly<'a>(cells: &'a [u32], number: u32) -> HourlyMeter<'a> {
    HourlyMeter { cells, number }
}

// Another load in an hour of a day.
pub(crate) fn put(cells: &mut Vec<u32>, day: u32, hour: u32, load: u32) {
    let cell = day.saturating_mul(24).saturating_add(hour);
    if let Some(place) = cells.get_mut(cell as usize) {
        *place = load;
    }
}

// Another load from 14:00 to 18:00 of some days.
pub(crate) fn cut(cells: &mut Vec<u32>, days: &[u32], load: u32) {
    for day in days {
        for hour in 14..18u32 {
            put(cells, *day, hour, load);
        }
    }
}

// Nines and no default: a field that a refusal set to zero would not show in a record of zeros.
const LINE: HourLine = HourLine {
    event: 9,
    day: 9,
    hour: 9,
    base: 9,
    adjusted: 9,
    reduction: 9,
    shortfall: 9,
    energy: 9,
    adjustment: 9,
};

const WEEK: WeekLine = WeekLine {
    nomination: 9,
    hours: 9,
    counted: 9,
    days: 9,
    capacity: 9,
};

// A record that holds something, so that a refusal shows that it leaves it.
pub(crate) fn held() -> Statement {
    Statement {
        hours: [LINE; 60],
        weeks: [WEEK; 10],
        incentive: 9,
        charged: 9,
        taken: 9,
        net: 9,
        paid: 9,
    }
}
