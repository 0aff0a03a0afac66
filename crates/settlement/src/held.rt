ghost use Rattle.std.specs.Prelude.{◌≡◌, ◌≤◌, if◌then◌else◌};
ghost use Rattle.settlement.specs.Held.{held_on_day, holds_load, hours_held};

use meter::hour::SummerHour;
use meter::meter::Meter;

// 1 for an hour that holds a load, and 0 for one that holds none.
fn held_in_hour<M: Meter>(meter: &mut M, at: SummerHour) -> u32
    ensures is { result ≡ (if holds_load (M.table meter.old at.day at.hour) then 1 else 0) }
    ensures within { result ≤ 1 }
    ensures keeps { M.table meter.new ≡ M.table meter.old }
{
    u32::from(meter.load(at).is_ok())
}

// How many hours of a day of the summer hold a load.
#[tactic(auto, using(tariff::proofs::Totals::count_none, crate::proofs::HoursHeld::hour_more))]
fn held_on_day<M: Meter>(meter: &mut M, day: u8) -> u32
    requires { day ≤ 75 }
    ensures is { result ≡ held_on_day (M.table meter.old) day 24 }
    ensures within { result ≤ 24 }
    ensures keeps { M.table meter.new ≡ M.table meter.old }
{
    let mut found = 0;
    // A `for` and no chain: of a closure that asks a `&mut` meter neither the count nor that its table is kept was shown.
    for hour in 0..24u8 {
        found += held_in_hour(meter, SummerHour { day, hour });
    }
    found
}

// How many of the 1,824 hours of the summer hold a load.
#[tactic(auto, using(tariff::proofs::Summing::total_zero, crate::proofs::HoursHeld::day_more))]
pub fn hours_held<M: Meter>(meter: &mut M) -> u32
    ensures is { result ≡ hours_held (M.table meter.old) }
    ensures within { result ≤ 1824 }
    ensures keeps { M.table meter.new ≡ M.table meter.old }
{
    let mut found = 0;
    // A `for` and no chain, for the same reason: nothing was shown of the table of a `&mut` meter that a closure asks.
    for day in 0..76u8 {
        found += held_on_day(meter, day);
    }
    found
}
