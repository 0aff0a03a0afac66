// Two statements of one site, and how the second differs from the first.
use crate::columns::{EventHour, HOURS_HEADING, Week};
use crate::figures::{Cents, Dollars, Kwh, difference};
use crate::telling::{PAID, Written};
use std::fmt;
use std::fmt::{Display, Formatter, Write};
use tariff::statement::{HourLine, WeekLine};

// The heading of the weeks that differ.
const WEEKS_HEADING: &str = "     week  begins          counted kWh      capacity pay";

// The heading of the totals.
const TOTALS_HEADING: &str =
    "                                                               first              second          difference";

// The changes of an event hour, in a row of the table of event hours.
#[derive(Clone, Copy)]
struct HourChange<'a> {
    year: u32,
    one: &'a HourLine,
    two: &'a HourLine,
}

impl Display for HourChange<'_> {
    fn fmt<W: Write>(&self, f: &mut Formatter<W>) -> fmt::Result {
        let HourChange { year, one, two } = *self;
        let hour = EventHour::of(year, one);
        let baseline = difference(Kwh, one.base / 3, two.base / 3);
        let adjusted = difference(Kwh, one.adjusted / 30, two.adjusted / 30);
        let shed = difference(Kwh, one.reduction, two.reduction);
        let short = difference(Kwh, one.shortfall, two.shortfall);
        let energy = difference(Dollars, one.energy, two.energy);
        let adjustment = difference(Dollars, one.adjustment, two.adjustment);
        write!(
            f,
            "{hour} {baseline:>12} {adjusted:>12} {shed:>12} {short:>12}"
        )?;
        write!(f, " {energy:>15} {adjustment:>15}")
    }
}

// The changes of a week: a site's nomination, the event hours and the programme days are the same in both statements.
#[derive(Clone, Copy)]
struct WeekChange<'a> {
    week: Week,
    one: &'a WeekLine,
    two: &'a WeekLine,
}

impl Display for WeekChange<'_> {
    fn fmt<W: Write>(&self, f: &mut Formatter<W>) -> fmt::Result {
        let WeekChange { week, one, two } = *self;
        let counted = difference(Kwh, one.counted, two.counted);
        let capacity = difference(Dollars, one.capacity, two.capacity);
        write!(f, "{week} {counted:>12} {capacity:>17}")
    }
}

// How the second statement of a site differs from the first, line by line where they differ, each line with its end.
#[derive(Clone, Copy)]
pub(crate) struct Differences<'a> {
    pub one: Written<'a>,
    pub two: Written<'a>,
}

impl Differences<'_> {
    fn write_hours<W: Write>(self, f: &mut Formatter<W>) -> fmt::Result {
        let year = self.one.year;
        let (first, second) = (&self.one.statement.hours, &self.two.statement.hours);
        if first == second {
            return writeln!(f, "    The event hours are the same.");
        }
        writeln!(f, "{HOURS_HEADING}")?;
        for (one, two) in first.iter().zip(second.iter()) {
            if one != two {
                writeln!(f, "{}", HourChange { year, one, two })?;
            }
        }
        Ok(())
    }

    fn write_weeks<W: Write>(self, f: &mut Formatter<W>) -> fmt::Result {
        let year = self.one.year;
        if self.one.statement.weeks == self.two.statement.weeks {
            return writeln!(f, "    The weeks are the same.");
        }
        writeln!(f, "{WEEKS_HEADING}")?;
        for ((number, one), two) in self.one.week_lines().zip(self.two.statement.weeks.iter()) {
            if one != two {
                let week = Week { year, number };
                writeln!(f, "{}", WeekChange { week, one, two })?;
            }
        }
        Ok(())
    }

    fn write_totals<W: Write>(self, f: &mut Formatter<W>) -> fmt::Result {
        let (one, two) = (self.one.statement, self.two.statement);
        writeln!(f, "{TOTALS_HEADING}")?;
        for ((name, first), (_, second)) in self.one.totals().iter().zip(self.two.totals().iter()) {
            let (first, second) = (*first, *second);
            let changed = difference(Dollars, first, second);
            let first = Dollars(first);
            let second = Dollars(second);
            writeln!(f, "    {name:<44} {first:>19} {second:>19} {changed:>19}")?;
        }
        let changed = difference(Cents, one.paid, two.paid);
        let first = Cents(one.paid);
        let second = Cents(two.paid);
        writeln!(f, "    {PAID:<44} {first:>16} {second:>19} {changed:>19}")
    }
}

impl Display for Differences<'_> {
    fn fmt<W: Write>(&self, f: &mut Formatter<W>) -> fmt::Result {
        if self.one.statement == self.two.statement {
            return writeln!(
                f,
                "    Nothing differs: every line and every total is the same."
            );
        }
        self.write_hours(f)?;
        writeln!(f, "")?;
        self.write_weeks(f)?;
        writeln!(f, "")?;
        self.write_totals(f)
    }
}
