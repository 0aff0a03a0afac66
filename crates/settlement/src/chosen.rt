ghost use Rattle.settlement.specs.Chosen.{chosen_table};

use meter::hour::SummerHour;
use meter::meter::Meter;
use meter::pair::{PairMeter, together};
use meter::table::{HourlyMeter, QuarterMeter};
use tariff::reading::Reading;

// A meter that is chosen while the program runs: one over a table with a cell to an hour, one over a table with a cell to a
// quarter-hour, or two such meters on one site.
#[derive(Drop)]
pub enum ChosenMeter<'a> {
    Hourly(HourlyMeter<'a>),
    Quarter(QuarterMeter<'a>),
    Pair(Box<PairMeter<ChosenMeter<'a>, ChosenMeter<'a>>>),
}

impl Meter for ChosenMeter<'_> {
    ghost table = { chosen_table };

    fn load(&mut self, at: SummerHour) -> Reading {
        match self {
            ChosenMeter::Hourly(table) => table.load(at),
            ChosenMeter::Quarter(table) => table.load(at),
            ChosenMeter::Pair(pair) => {
                // Not the pair's own `load`: it leads back to `ask`, which the trait writes, and that this ends was tried and not shown.
                let a = pair.first.load(at)?;
                let b = pair.second.load(at)?;
                together(a, b)
            }
        }
    }
}
