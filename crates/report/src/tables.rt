// A statement as tables: its event hours, its weeks, its totals and what is paid.
use crate::columns::{EventHour, HOURS_HEADING, Week};
use crate::figures::{Cents, Dollars, Grouped, Kwh};
use crate::telling::{PAID, Written};
use std::fmt;
use std::fmt::{Display, Formatter, Write};
use tariff::statement::{HourLine, WeekLine};

// The heading of a table of weeks.
const WEEKS_HEADING: &str =
    "     week  begins         nominated kW  event hours  counted kWh programme days      capacity pay";

// A row of the table of event hours.
#[derive(Clone, Copy)]
struct HourRow<'a> {
    year: u32,
    line: &'a HourLine,
}

impl Display for HourRow<'_> {
    fn fmt<W: Write>(&self, f: &mut Formatter<W>) -> fmt::Result {
        let line = *self.line;
        let hour = EventHour::of(self.year, self.line);
        let baseline = Kwh(line.base / 3);
        let adjusted = Kwh(line.adjusted / 30);
        let shed = Kwh(line.reduction);
        let short = Kwh(line.shortfall);
        let energy = Dollars(line.energy);
        let adjustment = Dollars(line.adjustment);
        write!(
            f,
            "{hour} {baseline:>12} {adjusted:>12} {shed:>12} {short:>12}"
        )?;
        write!(f, " {energy:>15} {adjustment:>15}")
    }
}

// A row of the table of weeks.
#[derive(Clone, Copy)]
struct WeekRow<'a> {
    week: Week,
    line: &'a WeekLine,
}

impl Display for WeekRow<'_> {
    fn fmt<W: Write>(&self, f: &mut Formatter<W>) -> fmt::Result {
        let WeekLine {
            nomination,
            hours,
            counted,
            days,
            capacity,
        } = *self.line;
        let week = self.week;
        let nominated = Grouped(u64::from(nomination));
        let counted = Kwh(counted);
        let capacity = Dollars(capacity);
        write!(
            f,
            "{week} {nominated:>12} {hours:>12} {counted:>12} {days:>14} {capacity:>17}"
        )
    }
}

// The tables of a statement: its event hours, its weeks, its totals and what is paid, each line with its end.
#[derive(Clone, Copy)]
pub(crate) struct Tables<'a>(pub Written<'a>);

impl Tables<'_> {
    fn write_hours<W: Write>(self, f: &mut Formatter<W>) -> fmt::Result {
        let Tables(written) = self;
        if written.hours == 0 {
            return writeln!(f, "    No event stood, so there are no event hours.");
        }
        let year = written.year;
        writeln!(f, "{HOURS_HEADING}")?;
        for line in written.hour_lines() {
            writeln!(f, "{}", HourRow { year, line })?;
        }
        Ok(())
    }

    fn write_weeks<W: Write>(self, f: &mut Formatter<W>) -> fmt::Result {
        let Tables(written) = self;
        let year = written.year;
        writeln!(f, "{WEEKS_HEADING}")?;
        for (number, line) in written.week_lines() {
            let week = Week { year, number };
            writeln!(f, "{}", WeekRow { week, line })?;
        }
        Ok(())
    }

    fn write_totals<W: Write>(self, f: &mut Formatter<W>) -> fmt::Result {
        let Tables(written) = self;
        for (name, millicents) in written.totals() {
            writeln!(f, "    {name:<44} {:>19}", Dollars(millicents))?;
        }
        writeln!(f, "    {PAID:<44} {:>16}", Cents(written.statement.paid))
    }
}

impl Display for Tables<'_> {
    fn fmt<W: Write>(&self, f: &mut Formatter<W>) -> fmt::Result {
        self.write_hours(f)?;
        writeln!(f, "")?;
        self.write_weeks(f)?;
        writeln!(f, "")?;
        self.write_totals(f)
    }
}
