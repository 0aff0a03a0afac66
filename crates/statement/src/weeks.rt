ghost use Rattle.std.specs.Prelude.{◌≡◌, ℕ, ◌-◌, ◌≤◌, slice_index};
ghost use Rattle.tariff.specs.Calendar as spec;

use calendar::{last_week, programme_days};
use pay::weeks::Weeks;
use std::array;

// The weeks of a year's season with their programme days.
pub(crate) fn weeks_of(year: u32) -> Weeks
    ensures last { result.last ≡ spec.last_week year }
    ensures days { (w : ℕ) → 1 ≤ w → w ≤ 10 → slice_index result.days (w - 1) ≡ spec.programme_days year w }
{
    Weeks {
        days: array::from_fn(|k| programme_days(year, k as u32 + 1)),
        last: last_week(year) as u8,
    }
}
