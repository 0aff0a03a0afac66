// The calendar of a summer, in code: day 0 is June 1, day 14 is June 15 and day 75 is August 15. Years, days and weeks may be
// any numbers.
#![tactic(auto)]

ghost use Rattle.std.specs.Prelude.{◌≡◌, ◌<◌, ◌≤◌, filter, length};
ghost use Rattle.std.specs.List.{range_with_len};
ghost use Rattle.tariff.specs.Calendar as spec;

// The weekday of a date: 0 is Monday and 6 is Sunday.
// A number and no enum: Mondays are found by subtracting it, and a week's days by comparing it.
#[tactic(auto, unfolding(tariff::specs::Calendar::weekday))]
pub fn weekday(year: u32, day: u32) -> u32
    ensures is { result ≡ spec.weekday year day }
    ensures below { result < 7 }
{
    let years = u64::from(year);
    let leap_days = years / 4 - years / 100 + years / 400;
    ((years + leap_days + 3 + u64::from(day)) % 7) as u32
}

// Monday to Friday, the holiday included.
#[tactic(auto, unfolding(tariff::specs::Calendar::workweek_day))]
fn is_workweek_day(year: u32, day: u32) -> bool
    ensures { result ≡ spec.workweek_day year day }
{
    weekday(year, day) < 5
}

// The day of the holiday: July 4, or the Friday before where it is a Saturday, or the Monday after where it is a Sunday.
#[tactic(auto, unfolding(tariff::specs::Calendar::holiday))]
pub fn holiday(year: u32) -> u32
    ensures { result ≡ spec.holiday year }
{
    match weekday(year, 33) {
        5 => 32,
        6 => 34,
        _ => 33,
    }
}

// Monday to Friday without the holiday.
#[tactic(auto, unfolding(tariff::specs::Calendar::business))]
pub fn business(year: u32, day: u32) -> bool
    ensures { result ≡ spec.business year day }
{
    is_workweek_day(year, day) && day != holiday(year)
}

// The season runs from June 15 to August 15.
pub fn in_season(day: u32) -> bool
    ensures { result ≡ spec.in_season day }
{
    (14..=75).contains(&day)
}

// The Monday of week 1, the week that holds June 15.
#[tactic(auto, unfolding(tariff::specs::Calendar::first_monday))]
pub fn first_monday(year: u32) -> u32
    ensures is { result ≡ spec.first_monday year }
    ensures from { 8 ≤ result }
    ensures to { result ≤ 14 }
{
    14 - weekday(year, 14)
}

// The week of a day, counted from 1; the days before week 1 are in it too.
#[tactic(auto, unfolding(tariff::specs::Calendar::week_of))]
pub fn week_of(year: u32, day: u32) -> u32
    ensures is { result ≡ spec.week_of year day }
    ensures from { 1 ≤ result }
    ensures to { day ≤ 75 → result ≤ 10 }
{
    day.saturating_sub(first_monday(year)) / 7 + 1
}

// The week that holds August 15.
#[tactic(auto, unfolding(tariff::specs::Calendar::last_week))]
pub fn last_week(year: u32) -> u32
    ensures is { result ≡ spec.last_week year }
    ensures to { result ≤ 10 }
{
    week_of(year, 75)
}

// Until when a nomination for a week is taken, in minutes since June 1, 00:00: 10:00 on Thursday of the week before.
#[tactic(auto, unfolding(tariff::specs::Calendar::deadline, tariff::specs::Calendar::monday))]
pub fn deadline(year: u32, week: u32) -> u64
    ensures { result ≡ spec.deadline year week }
{
    let monday = u64::from(first_monday(year)) + 7 * u64::from(week) - 7;
    let thursday = monday.saturating_sub(4);
    1440 * thursday + 600
}

// A programme day of a week is a Monday to Friday of it inside the season, the holiday included.
#[tactic(auto, unfolding(tariff::specs::Calendar::programme_day))]
fn is_programme_day(year: u32, week: u32, day: u32) -> bool
    ensures { result ≡ spec.programme_day year week day }
{
    is_workweek_day(year, day) && in_season(day) && week_of(year, day) == week
}

// How many days of the summer are programme days of a week, one day after another.
fn days_counted(year: u32, week: u32) -> u8
    ensures is { result ≡ length (filter (spec.programme_day year week) (range_with_len 0 76)) }
    ensures within { result ≤ 76 }
{
    (0..76)
        .filter(|day| is_programme_day(year, week, *day))
        .count() as u8
}

// How many programme days a week has.
#[tactic(auto, using(crate::proofs::Counted::programme_days_counted))]
pub fn programme_days(year: u32, week: u32) -> u8
    ensures is { result ≡ spec.programme_days year week }
    ensures within { result ≤ 76 }
{
    days_counted(year, week)
}
