ghost use Rattle.std.specs.Prelude.{◌≡◌, ◌≤◌, IfOk};
ghost use Rattle.tariff.specs.Tables.{Table};
ghost use Rattle.meter.specs.Meaning.{asked, Spans};

use crate::hour::SummerHour;
use crate::refusal::MeterFault;
use tariff::reading::Reading;

// A meter answers what a site drew in an hour of the summer, in watt-hours, or why it has no load to give.
// Its meaning is its table: a reading for each hour of the summer, and the same one value everywhere else, so that two
// meters that agree on the hours of the summer mean the same.
pub trait Meter {
    ghost table: { Self → Table };

    // What the table holds in an hour of the summer. The question changes no hour of the table.
    fn load(&mut self, at: SummerHour) -> Reading
        ensures answers { result ≡ table self.old at.day at.hour }
        ensures bound { IfOk result (λ w. w ≤ 100000000) }
        ensures keeps { table self.new ≡ table self.old }
        ensures spans { Spans (table self.old) };

    // The same for a day and an hour by any two numbers, which are refused where the summer has no such hour.
    fn ask(&mut self, day: u32, hour: u32) -> Result<u32, MeterFault>
        ensures answers { result ≡ asked (table self.old) day hour }
        ensures bound { IfOk result (λ w. w ≤ 100000000) }
        ensures keeps { table self.new ≡ table self.old }
    {
        if day > 75 || hour > 23 {
            return Err(MeterFault::NoSuchHour);
        }
        let at = SummerHour {
            day: day as u8,
            hour: hour as u8,
        };
        Ok(self.load(at)?)
    }
}
