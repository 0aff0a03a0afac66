ghost use Rattle.std.specs.Prelude.{◌≡◌, ◌+◌, ◌≤◌, length, if◌then◌else◌};
ghost use Rattle.std.specs.List.{AllByRecursion};
ghost use Rattle.tariff.specs.Events.{day_hours, event_number, stands};
ghost use Rattle.tariff.specs.Season.{day_at};
ghost use Rattle.pay.specs.Listed.{listed};
ghost use Rattle.season.specs.View.{view};
ghost use Rattle.statement.specs.Measured.{DayTold, InYear, SeasonTold};

use crate::hours::push_event;
use crate::site::SeasonSite;
use meter::meter::Meter;
use pay::list::HourList;
use tariff::season::Day;
use tariff::statement::{EventFault, StatementRefusal};

// The number of the next event: one more where an event stands, and the same where none was announced or it was revoked.
fn next_number(number: u8, held: Day) -> u8
    requires { number ≤ 76 }
    ensures { result ≡ number + (if stands held then 1 else 0) }
{
    if held.standing().is_some() {
        number + 1
    } else {
        number
    }
}

impl SeasonSite<'_> {
    // Measures the event of a day, where one stands, and adds its hours to the list. Answers the number of the next event.
    // That the day is one of 76 stays a clause: a type of its own would be made in the loop below, and undone wherever a day is held.
    fn measure_day<M: Meter>(
        &self,
        meter: &mut M,
        day: u8,
        number: u8,
        list: &mut HourList,
    ) -> Result<u8, EventFault>
        requires day { day ≤ 75 }
        requires number { number ≡ event_number (view self.now.season.now).days day }
        requires room { length (listed list.old) + day_hours (day_at (view self.now.season.now) day) ≤ 60 }
        requires weeks { AllByRecursion (InYear (view self.now.season.now).year) (listed list.old) }
        ensures told { DayTold (view self.now.season.now) self.now.site.now (M.table meter.old) day list.old list.new result }
        ensures keeps { M.table meter.new ≡ M.table meter.old }
    {
        let held = self.season.day(u32::from(day));
        let next = next_number(number, held);
        let Some(event) = held.standing() else {
            return Ok(next);
        };
        let measured = self.measure_standing(meter, day, event, number)?;
        push_event(list, self.season.year(), &measured);
        Ok(next)
    }

    // Measures the standing events of a season, day by day, or tells the first fault.
    pub(crate) fn measure_season<M: Meter>(
        &self,
        meter: &mut M,
    ) -> Result<HourList, StatementRefusal>
        ensures told { SeasonTold (view self.now.season.now) self.now.site.now (M.table meter.old) result }
        ensures keeps { M.table meter.new ≡ M.table meter.old }
    {
        self.season.stays_sound();
        let mut list = HourList::none();
        // By the day's number, which is what is passed on. Only a day on which an event stands moves the number of the event on.
        let mut number = 1;
        for day in 0..76u8 {
            number = self.measure_day(meter, day, number, &mut list)?;
        }
        Ok(list)
    }
}
