ghost use Rattle.tariff.specs.Tables.{summer};
ghost use Rattle.meter.specs.Cells.{tabled};

use crate::cells::hour_at;
use crate::hour::SummerHour;
use crate::meter::Meter;
use tariff::reading::{Gap, Reading};

// A meter over a caller's table with N cells to an hour, and the number under which an hour without a load is missing.
#[derive(Drop)]
pub struct TableMeter<'a, const N: usize> {
    pub cells: &'a [u32],
    pub number: u32,
}

// A cell to an hour.
pub type HourlyMeter<'a> = TableMeter<'a, 1>;

// A cell to a quarter-hour.
pub type QuarterMeter<'a> = TableMeter<'a, 4>;

impl<const N: usize> Meter for TableMeter<'_, N> {
    ghost table = { λ m. summer (tabled N m.cells.now m.number) };

    fn load(&mut self, at: SummerHour) -> Reading {
        // In 128 bits, which hold every place: N is not bounded.
        let first = N as u128 * (24 * u128::from(at.day) + u128::from(at.hour));
        hour_at::<N>(self.cells, first).ok_or(Gap::Missing(self.number))
    }
}
