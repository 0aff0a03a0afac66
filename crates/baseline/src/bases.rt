ghost use Rattle.std.specs.Prelude.{◌≡◌, ℕ, ◌<◌, ◌≤◌, [], slice_index, slice_index_or};
ghost use Rattle.baseline.specs.Days.{Small};
ghost use Rattle.baseline.specs.Sums.{«sum_at», «bases_of», SmallBases};

use std::array;

// What the days at three places drew together in an hour.
// The bound of the hour stays a clause, as in measuring an event.
fn base_at(days: &[[u32; 24]; 10], places: [usize; 3], hour: usize) -> u64
    requires places { (k : ℕ) → k < 3 → slice_index places k < 10 }
    requires hour { hour < 24 }
    requires small { (k : ℕ) → k < 10 → Small (slice_index_or days.now k []) }
    ensures value { result ≡ sum_at days.now places hour }
    ensures bound { result ≤ 300000000 }
{
    let [a, b, c] = places;
    u64::from(days[a][hour]) + u64::from(days[b][hour]) + u64::from(days[c][hour])
}

// The same for each hour of the day.
pub(crate) fn bases(days: &[[u32; 24]; 10], places: [usize; 3]) -> [u64; 24]
    requires places { (k : ℕ) → k < 3 → slice_index places k < 10 }
    requires small { (k : ℕ) → k < 10 → Small (slice_index_or days.now k []) }
    ensures value { result ≡ bases_of days.now places }
    ensures bound { SmallBases result }
{
    array::from_fn(|hour| base_at(days, places, hour))
}
