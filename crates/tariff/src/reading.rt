// What a meter says of an hour.
ghost use Rattle.std.specs.Prelude.{◌≡◌};
ghost use Rattle.tariff.specs.Gaps.{gap_number};

// Why an hour has no load: nothing was read of it under the number that the meter was made with, or the loads of two meters
// come to more than one hour may hold.
#[derive(Clone, Copy, PartialEq, Eq, Debug)]
pub enum Gap {
    Missing(u32),
    Over,
}

impl Gap {
    // The number that a caller is shown where an hour that is needed has this gap.
    // A method and no `From`: `u32::from(gap)` could as well be the number under which the hour is missing.
    pub fn number(self) -> u32
        ensures { result ≡ gap_number self }
    {
        match self {
            Gap::Missing(_) => 25,
            Gap::Over => 26,
        }
    }
}

// One hour of a meter: its load in whole watt-hours, at most 100,000,000, or why there is none.
pub type Reading = Result<u32, Gap>;
