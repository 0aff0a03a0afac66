ghost use Rattle.std.specs.Prelude.{◌≡◌, ◌≤◌, length, sum_by, filter, nat_eq};
ghost use Rattle.tariff.specs.Pay.{«energy_for», «adjustment_for», «counted_reduction»};

use crate::rates::{adjustment, counted, energy};
use crate::summer::Summer;
use tariff::statement::WeekLine;

impl Summer<'_> {
    // What all hours are paid for their reductions.
    pub(crate) fn energy(&self) -> u64
        ensures { result ≡ sum_by (λ p. energy_for p.measured.event p.measured.reduction) self.now.hours.now }
    {
        self.hours.iter().map(energy).sum()
    }

    // What all hours are charged.
    pub(crate) fn adjustment(&self) -> u64
        ensures { result ≡ sum_by (λ p. adjustment_for p.measured.event p.measured.shortfall) self.now.hours.now }
    {
        self.hours.iter().map(adjustment).sum()
    }

    // The counted reductions of a week together.
    pub(crate) fn counted(&self, nominated: u32, week: u8) -> u64
        ensures { result ≡ sum_by (λ p. counted_reduction nominated p.measured.reduction) (filter (λ p. nat_eq p.week week) self.now.hours.now) }
    {
        self.hours
            .iter()
            .filter(|hour| hour.week == week)
            .map(|hour| counted(hour, nominated))
            .sum()
    }

    // The event hours of a week.
    pub(crate) fn event_hours(&self, week: u8) -> u8
        ensures { result ≡ length (filter (λ p. nat_eq p.week week) self.now.hours.now) }
    {
        self.hours.iter().filter(|hour| hour.week == week).count() as u8
    }
}

// What all weeks pay for capacity.
pub(crate) fn total_capacity(weeks: &[WeekLine; 10]) -> u64
    requires { sum_by (λ w. w.capacity) weeks.now ≤ 711890829146250000 }
    ensures { result ≡ sum_by (λ w. w.capacity) weeks.now }
{
    weeks.iter().map(|week| week.capacity).sum()
}
