ghost use Rattle.std.specs.Prelude.{◌≡◌, ◌*◌, ◌≤◌, pos, neg_ℤ, ◌≤ℤ◌};
ghost use Rattle.tariff.specs.Adjustment.{«day_of_adjustment», held};
ghost use Rattle.tariff.specs.Measure.{«adjusted_from», «reduction_from», «shortfall_of»};

// An hour of an event's day: its load, and its B by the days that the day is compared with.
#[derive(Clone, Copy)]
pub(crate) struct DayHour {
    pub(crate) load: u32,
    pub(crate) base: u64,
    ghost small: { base ≤ 300000000 },
}

// How far two hours of an event's day lie above their original baselines, in thirtieths of a Wh.
fn day_of_adjustment(first: DayHour, second: DayHour) -> i64
    ensures { result ≡ day_of_adjustment first.load second.load first.base second.base }
{
    let drawn = i64::from(first.load) + i64::from(second.load);
    15 * drawn - 5 * (first.base + second.base) as i64
}

impl DayHour {
    // An adjustment held between −2B and 2B.
    fn hold(self, adjustment: i64) -> i64
        ensures value { result ≡ held self.base adjustment }
        ensures low { neg_ℤ (pos (2 * self.base)) ≤ℤ result }
        ensures high { result ≤ℤ pos (2 * self.base) }
    {
        let most = (2 * self.base) as i64;
        adjustment.clamp(-most, most)
    }

    // The day-of adjustment by two hours, held.
    fn held_adjustment(self, first: DayHour, second: DayHour) -> i64
        ensures value { result ≡ held self.base (day_of_adjustment first.load second.load first.base second.base) }
        ensures low { neg_ℤ (pos (2 * self.base)) ≤ℤ result }
        ensures high { result ≤ℤ pos (2 * self.base) }
    {
        self.hold(day_of_adjustment(first, second))
    }

    // The adjusted baseline of the hour, in thirtieths of a Wh: ten times B with the adjustment that is held.
    pub(crate) fn adjusted(self, first: DayHour, second: DayHour) -> u64
        ensures value { result ≡ adjusted_from first.load second.load first.base second.base self.base }
        ensures bound { result ≤ 3600000000 }
    {
        (10 * self.base as i64 + self.held_adjustment(first, second)) as u64
    }

    // How far the hour's load lies below an adjusted baseline, in whole Wh, rounded down.
    pub(crate) fn reduction(self, adjusted: u64) -> u64
        requires { adjusted ≤ 3600000000 }
        ensures value { result ≡ reduction_from adjusted self.load }
        ensures bound { result ≤ 120000000 }
    {
        adjusted.saturating_sub(30 * u64::from(self.load)) / 30
    }
}

// How far a reduction falls short of a nomination in kW, in Wh.
pub(crate) fn shortfall(nominated: u32, reduction: u64) -> u64
    ensures value { result ≡ shortfall_of nominated reduction }
    ensures bound { result ≤ 4294967295000 }
{
    (1000 * u64::from(nominated)).saturating_sub(reduction)
}
