ghost use Rattle.std.specs.Prelude.{◌≡◌, ◌≤◌, IfOk, Ok};
ghost use Rattle.tariff.specs.Tables.{summer};
ghost use Rattle.meter.specs.Cells.{joined};

use crate::hour::SummerHour;
use crate::meter::Meter;
use tariff::reading::{Gap, Reading};

// Two meters on one site, as one: what both drew together.
#[derive(Drop)]
pub struct PairMeter<A, B> {
    pub first: A,
    pub second: B,
}

// Two loads of one hour together: over where they come to more than an hour may hold.
pub fn together(first: u32, second: u32) -> Reading
    ensures is { result ≡ joined (Ok first) (Ok second) }
    ensures bound { IfOk result (λ w. w ≤ 100000000) }
{
    let sum = first.saturating_add(second);
    if sum > 100_000_000 {
        return Err(Gap::Over);
    }
    Ok(sum)
}

impl<A: Meter, B: Meter> Meter for PairMeter<A, B> {
    ghost table = { λ p. summer (λ d h. joined (A.Meter.table p.first d h) (B.Meter.table p.second d h)) };

    fn load(&mut self, at: SummerHour) -> Reading {
        let a = self.first.load(at)?;
        let b = self.second.load(at)?;
        together(a, b)
    }
}
