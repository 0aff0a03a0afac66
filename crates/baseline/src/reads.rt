ghost use Rattle.std.specs.Prelude.{◌≡◌, ℕ, ◌<◌, ◌≤◌, [], IfOk, slice_index, slice_index_or};
ghost use Rattle.baseline.specs.Original.{OriginalOfLoads};
ghost use Rattle.baseline.specs.Days.{«hour_read», «day_read», «days_read», Small};

use meter::hour::SummerHour;
use meter::meter::Meter;
use tariff::fault::{BaselineFault, HourGap, Use};

// One hour of a day, or its gap with what the hour is needed for.
fn read_hour<M: Meter>(meter: &mut M, purpose: Use, at: SummerHour) -> Result<u32, HourGap>
    ensures answer { result ≡ hour_read purpose at.day at.hour (M.table meter.old at.day at.hour) }
    ensures bound { IfOk result (λ w. w ≤ 100000000) }
    ensures keeps { M.table meter.new ≡ M.table meter.old }
{
    meter.load(at).map_err(|gap| HourGap {
        gap,
        purpose,
        day: at.day,
        hour: at.hour,
    })
}

// The 24 loads of a day, or its first gap.
pub(crate) fn read_day<M: Meter>(
    meter: &mut M,
    purpose: Use,
    day: u8,
) -> Result<[u32; 24], BaselineFault>
    requires { day ≤ 75 }
    ensures answer { result ≡ day_read (M.table meter.old) purpose day }
    ensures bound { IfOk result Small }
    ensures keeps { M.table meter.new ≡ M.table meter.old }
{
    let mut loads = [0; 24];
    for (hour, load) in loads.iter_mut().enumerate() {
        let hour = hour as u8;
        *load = read_hour(meter, purpose, SummerHour { day, hour })?;
    }
    Ok(loads)
}

// The loads of ten days, or the first gap, from the earliest day, which stands last, to the latest.
pub(crate) fn read_days<M: Meter>(
    meter: &mut M,
    days: &[u8; 10],
) -> Result<[[u32; 24]; 10], BaselineFault>
    requires { (k : ℕ) → k < 10 → slice_index days.now k ≤ 75 }
    ensures answer { result ≡ days_read (M.table meter.old) days.now }
    ensures original { OriginalOfLoads (M.table meter.old) days.now result }
    ensures bound { IfOk result (λ read. (k : ℕ) → k < 10 → Small (slice_index_or read k [])) }
    ensures keeps { M.table meter.new ≡ M.table meter.old }
{
    let mut read = [[0; 24]; 10];
    // By index: no proof knows what an array holds after `iter_mut` with `rev` or `zip`, and the last day is read first.
    for place in (0..10).rev() {
        read[place] = read_day(meter, Use::Comparison, days[place])?;
    }
    Ok(read)
}
