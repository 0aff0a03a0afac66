ghost use Rattle.std.specs.Prelude.{◌≤◌};

use tariff::statement::MeasuredHour;

// A measured hour with the week of the season that it lies in. No reduction is above 120,000,000 Wh, and no shortfall above
// 1000 times the highest number of 32 bits, so that no sum of money passes 64 bits.
#[derive(Clone, Copy)]
pub struct PlacedHour {
    pub measured: MeasuredHour,
    pub week: u8,
    ghost reduced: { measured.reduction ≤ 120000000 },
    ghost short: { measured.shortfall ≤ 4294967295000 },
}
