ghost use Rattle.std.specs.Prelude.{◌≡◌, ◌≤◌};
ghost use Rattle.tariff.specs.Pay.{«capacity_for»};

// What a week pays for capacity, in millicents: by its nomination where it has no event hour, and else by the mean of its
// counted reductions.
pub(crate) fn capacity(nominated: u32, hours: u8, sum: u64, days: u8) -> u64
    requires { sum ≤ 7200000000 }
    ensures value { result ≡ capacity_for nominated hours sum days }
    ensures bound { result ≤ 71189082914625000 }
{
    if hours == 0 {
        65000 * u64::from(nominated) * u64::from(days)
    } else {
        325 * sum * u64::from(days) / (5 * u64::from(hours))
    }
}
