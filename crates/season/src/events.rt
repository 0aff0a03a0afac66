// The events of a summer, by its days.
ghost use Rattle.std.specs.Prelude.{◌≡◌, ◌+◌, ◌*◌, ◌<◌, ◌≤◌, false, length, replicate, slice_set};
ghost use Rattle.tariff.specs.Calls.{hours_outside, notice_outside};
ghost use Rattle.tariff.specs.Events as spec;
ghost use Rattle.tariff.specs.declared.season.Day.TheVariants.{NoEvent};

use calendar::week_of;
use tariff::season::Day;

// An event has two to four hours between 14:00 and 20:00.
pub(crate) fn is_hours_outside(start: u32, length: u32) -> bool
    ensures is { result ≡ hours_outside start length }
    ensures tells { result ≡ false → (14 ≤ start) × (start + length ≤ 20) × (length ≤ 4) }
{
    !(2..=4).contains(&length) || start < 14 || start > 20 - length
}

// It is announced from 180 to 60 minutes before its start.
pub(crate) fn is_notice_outside(moment: u32, start: u32) -> bool
    requires { start ≤ 20 }
    ensures { result ≡ notice_outside moment start }
{
    let minute = moment % 1440;
    !(minute + 60..=minute + 180).contains(&(60 * start))
}

// An event was announced for the day, and may have been revoked since.
pub(crate) fn is_announced(day: Day) -> bool
    ensures { result ≡ spec.announced day }
{
    !matches!(day, Day::NoEvent)
}

// An event stands on the day.
pub(crate) fn stands(day: Day) -> bool
    ensures { result ≡ spec.stands day }
{
    day.standing().is_some()
}

// How many hours of a day stand.
fn day_hours(day: Day) -> u8
    ensures { result ≡ spec.day_hours day }
{
    day.standing().map_or(0, |event| event.length)
}

// A cell for each day of the summer, so that no day has two events.
#[derive(Clone, Copy, PartialEq, Eq)]
pub struct EventTable {
    pub days: [Day; 76],
    ghost summer: { length days ≡ 76 },
}

impl EventTable {
    // A summer without events.
    pub(crate) fn new() -> EventTable
        ensures { result.days ≡ replicate 76 NoEvent }
    {
        EventTable {
            days: [Day::NoEvent; 76],
        }
    }

    // What a day holds; past the summer there is no event.
    pub(crate) fn at(&self, day: u32) -> Day
        ensures { result ≡ spec.day_in self.now.days day }
    {
        self.days.get(day as usize).copied().unwrap_or(Day::NoEvent)
    }

    pub(crate) fn put(&mut self, day: u32, held: Day)
        requires { day ≤ 75 }
        ensures { self.new.days ≡ slice_set self.old.days day held }
    {
        self.days[day as usize] = held;
    }

    // How many announcements have been accepted.
    pub(crate) fn announcements(&self) -> u32
        ensures is { result ≡ spec.announced_before self.now.days 76 }
        ensures within { result ≤ 76 }
    {
        self.days.iter().filter(|day| is_announced(**day)).count() as u32
    }

    // On how many of the first days an event stands.
    pub(crate) fn standing_before(&self, days: u32) -> u32
        requires { days ≤ 76 }
        ensures is { result ≡ spec.standing_before self.now.days days }
        ensures within { result ≤ days }
    {
        self.days[..days as usize]
            .iter()
            .filter(|day| stands(**day))
            .count() as u32
    }

    // How many events stand.
    pub(crate) fn standing_events(&self) -> u32
        ensures is { result ≡ spec.standing_before self.now.days 76 }
        ensures within { result ≤ 76 }
    {
        self.standing_before(76)
    }

    // How many hours they have.
    pub(crate) fn standing_hours(&self) -> u32
        ensures { result ≡ spec.hours_before self.now.days 76 }
    {
        self.days.iter().map(|day| u32::from(day_hours(*day))).sum()
    }

    // How many of these lie in a week.
    pub(crate) fn hours_of_week(&self, year: u32, week: u32) -> u32
        ensures { result ≡ spec.week_hours_before year week self.now.days 76 }
    {
        (0..76)
            .filter(|day| week_of(year, *day) == week)
            .map(|day| u32::from(day_hours(self.at(day))))
            .sum()
    }
}
