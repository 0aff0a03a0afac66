ghost use Rattle.std.specs.Prelude.{◌≡◌, ◌≤◌, length, sum};
ghost use Rattle.baseline.specs.Sums.{«afternoon_of», «totals_of»};

use std::array;

// What some hours of a day drew together.
fn sum_of(loads: &[u32]) -> u64
    requires { length loads.now ≤ 24 }
    ensures { result ≡ sum loads.now }
{
    loads.iter().map(|load| u64::from(*load)).sum()
}

// What a day drew from 14:00 to 20:00.
fn afternoon(loads: &[u32; 24]) -> u64
    ensures { result ≡ afternoon_of loads.now }
{
    sum_of(&loads[14..20])
}

// What each of ten days drew from 14:00 to 20:00.
pub(crate) fn totals(days: &[[u32; 24]; 10]) -> [u64; 10]
    ensures { result ≡ totals_of days.now }
{
    array::from_fn(|place| afternoon(&days[place]))
}
