ghost use Rattle.std.specs.Prelude.{◌≡◌, ◌≤◌};
ghost use Rattle.tariff.specs.Pay.{«energy_for», «adjustment_for», «counted_reduction», priced};

use crate::placed::PlacedHour;
use tariff::statement::HourLine;

// What an hour's reduction is paid for, in millicents: nothing in events 1 to 3.
pub(crate) fn energy(hour: &PlacedHour) -> u64
    ensures value { result ≡ energy_for hour.now.measured.event hour.now.measured.reduction }
    ensures bound { result ≤ 1920000000 }
{
    if hour.measured.event > 3 {
        16 * hour.measured.reduction
    } else {
        0
    }
}

// What an hour is charged for a shortfall, in millicents: less from event 4 on.
pub(crate) fn adjustment(hour: &PlacedHour) -> u64
    ensures value { result ≡ adjustment_for hour.now.measured.event hour.now.measured.shortfall }
    ensures bound { result ≤ 858993459000000 }
{
    if hour.measured.event <= 3 {
        200 * hour.measured.shortfall
    } else {
        25 * hour.measured.shortfall
    }
}

// What counts of an hour's reduction for a week's capacity: at most 120 percent of the nomination.
pub(crate) fn counted(hour: &PlacedHour, nominated: u32) -> u64
    ensures value { result ≡ counted_reduction nominated hour.now.measured.reduction }
    ensures bound { result ≤ 120000000 }
{
    hour.measured.reduction.min(1200 * u64::from(nominated))
}

// The line of an hour.
// Field by field: a line has the hour's seven fields of its own, and not the hour as one field.
pub fn priced(hour: &PlacedHour) -> HourLine
    ensures { result ≡ priced hour.now.measured }
{
    HourLine {
        event: hour.measured.event,
        day: hour.measured.day,
        hour: hour.measured.hour,
        base: hour.measured.base,
        adjusted: hour.measured.adjusted,
        reduction: hour.measured.reduction,
        shortfall: hour.measured.shortfall,
        energy: energy(hour),
        adjustment: adjustment(hour),
    }
}
