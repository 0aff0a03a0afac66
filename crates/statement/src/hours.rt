ghost use Rattle.std.specs.Prelude.{◌≡◌, ℕ, ◌+◌, ◌<◌, ◌≤◌, ◌++◌, length, take, slice_index_or};
ghost use Rattle.std.specs.List.{AllByRecursion};
ghost use Rattle.tariff.specs.Calendar.{week_of};
ghost use Rattle.baseline.specs.Measuring.{Bounded, no_measured};
ghost use Rattle.pay.specs.Listed.{listed};
ghost use Rattle.statement.specs.Measured.{measured_of_list, InYear};

use baseline::measured::MeasuredEvent;
use calendar::week_of;
use pay::list::HourList;
use pay::placed::PlacedHour;
use tariff::statement::MeasuredHour;

// A measured hour with its week.
fn placed(year: u32, hour: MeasuredHour) -> PlacedHour
    requires day { hour.day ≤ 75 }
    requires reduced { hour.reduction ≤ 120000000 }
    requires short { hour.shortfall ≤ 4294967295000 }
    ensures is { result.measured ≡ hour }
    ensures week { result.week ≡ week_of year hour.day }
{
    PlacedHour {
        measured: hour,
        week: week_of(year, u32::from(hour.day)) as u8,
    }
}

// Adds the hours of a measured event to a list that has room for them, each with its week.
// That the weeks are those of a year is a clause: a list that held its year would need one too, to say which year that is.
pub(crate) fn push_event(list: &mut HourList, year: u32, event: &MeasuredEvent)
    requires room { length (listed list.old) + event.now.count ≤ 60 }
    requires bounds { Bounded event.now }
    requires days { (k : ℕ) → k < 4 → (slice_index_or event.now.hours k no_measured).day ≤ 75 }
    requires weeks { AllByRecursion (InYear year) (listed list.old) }
    ensures counts { length (listed list.new) ≡ length (listed list.old) + event.now.count }
    ensures hours { measured_of_list list.new ≡ measured_of_list list.old ++ take event.now.count event.now.hours }
    ensures weeks { AllByRecursion (InYear year) (listed list.new) }
{
    for hour in &event.hours[..usize::from(event.count)] {
        // There is room, so no push is refused.
        let _ = list.push(placed(year, *hour));
    }
}
