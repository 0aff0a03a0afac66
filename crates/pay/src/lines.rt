ghost use Rattle.std.specs.Prelude.{◌≡◌, ◌+◌, ◌<◌, ◌≤◌, sum_by};
ghost use Rattle.tariff.specs.Pay.{filled, «no_hour», «no_week»};
ghost use Rattle.pay.specs.Paying.{«hour_lines_of», «week_line_in», «week_lines_of»};

use crate::summer::Summer;
use crate::{capacity, rates};
use std::array;
use tariff::statement::{HourLine, WeekLine};

impl Summer<'_> {
    // The lines of the hours; those that are not used are zero.
    pub(crate) fn hour_lines(&self) -> [HourLine; 60]
        ensures { result ≡ filled no_hour 60 (hour_lines_of self.now.hours.now) }
    {
        let mut lines = [HourLine::default(); 60];
        for (k, hour) in self.hours.iter().enumerate() {
            lines[k] = rates::priced(hour);
        }
        lines
    }

    // The line of the k-th week, counted from 0; zero past the last.
    #[tactic(auto, using(crate::proofs::Sums::week_line_is))]
    fn week_line(&self, k: usize) -> WeekLine
        requires { k < 10 }
        ensures line { k < self.now.weeks.now.last → result ≡ week_line_in self.now.nominations.now self.now.weeks.now.days self.now.hours.now (k + 1) }
        ensures past { self.now.weeks.now.last ≤ k → result ≡ no_week }
        ensures bound { result.capacity ≤ 71189082914625000 }
    {
        if k >= usize::from(self.weeks.last) {
            return WeekLine::default();
        }
        let nomination = self.nominations[k];
        let days = self.weeks.days[k];
        let week = k as u8 + 1;
        let counted = self.counted(nomination, week);
        let hours = self.event_hours(week);
        WeekLine {
            nomination,
            hours,
            counted,
            days,
            capacity: capacity::capacity(nomination, hours, counted, days),
        }
    }

    // The lines of weeks 1 to the last; those that are not used are zero.
    pub(crate) fn week_lines(&self) -> [WeekLine; 10]
        ensures value { result ≡ filled no_week 10 (week_lines_of self.now.nominations.now self.now.weeks.now.days self.now.weeks.now.last self.now.hours.now) }
        ensures bound { sum_by (λ w. w.capacity) result ≤ 711890829146250000 }
    {
        array::from_fn(|k| self.week_line(k))
    }
}
