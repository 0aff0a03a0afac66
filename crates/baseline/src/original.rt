ghost use Rattle.std.specs.Prelude.{◌≡◌, IfOk};
ghost use Rattle.tariff.specs.Highest.{Highest};
ghost use Rattle.baseline.specs.Sums.{SmallBases};
ghost use Rattle.baseline.specs.Original.{«original_read»};

use crate::days::ComparisonDays;
use crate::highest::three_highest;
use crate::reads::read_days;
use crate::{bases, totals};
use meter::meter::Meter;
use tariff::fault::BaselineFault;

// What ten days to compare with come to.
#[derive(Clone, Copy)]
pub struct OriginalBaseline {
    // what each of the days drew from 14:00 to 20:00, the latest day first, in Wh
    pub totals: [u64; 10],
    // the places of the three highest among them, the highest first
    pub highest: [usize; 3],
    // B of each hour of the day: what the three highest days drew in it together, which is three times the original baseline
    pub bases: [u64; 24],
}

// Reads ten days, chooses the three highest and adds their loads hour by hour, or tells the first hour that has no load.
pub fn original_baseline<M: Meter>(
    meter: &mut M,
    days: &ComparisonDays,
) -> Result<OriginalBaseline, BaselineFault>
    ensures answer { result ≡ original_read (M.table meter.old) days.now.days }
    ensures bound { IfOk result (λ x. SmallBases x.bases) }
    ensures keeps { M.table meter.new ≡ M.table meter.old }
{
    let loads = read_days(meter, &days.days)?;
    let totals = totals::totals(&loads);
    let highest = three_highest(&totals);
    Ok(OriginalBaseline {
        totals,
        highest,
        bases: bases::bases(&loads, highest),
    })
}
