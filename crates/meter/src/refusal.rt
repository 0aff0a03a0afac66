ghost use Rattle.std.specs.Prelude.{◌≡◌};
ghost use Rattle.meter.specs.Refusals.{«record_number», «meter_number»};
ghost use Rattle.meter.specs.declared.refusal.MeterFault.TheVariants.{NoLoad};

use tariff::reading::Gap;

// Why a reading is not recorded.
#[derive(Clone, Copy, PartialEq, Eq, Debug)]
pub enum RecordRefusal {
    NoSuchCell,
    LoadAboveLimit,
    CellTaken,
}

impl RecordRefusal {
    // The number that a caller is shown for a refusal.
    // A method and no `From`: `u32::from(refusal)` would not say that the number shown to a caller is meant.
    pub fn number(self) -> u32
        ensures { result ≡ record_number self }
    {
        match self {
            RecordRefusal::NoSuchCell => 22,
            RecordRefusal::LoadAboveLimit => 23,
            RecordRefusal::CellTaken => 24,
        }
    }
}

// Why a meter that is asked for a day and an hour answers no load: the summer has no such hour, or the hour has no load.
#[derive(Clone, Copy, PartialEq, Eq, Debug)]
pub enum MeterFault {
    NoSuchHour,
    NoLoad(Gap),
}

impl MeterFault {
    // The number that a caller is shown for a fault.
    // A method and no `From`: `u32::from(fault)` could as well be the number under which an hour is missing.
    pub fn number(self) -> u32
        ensures { result ≡ meter_number self }
    {
        match self {
            MeterFault::NoSuchHour => 22,
            MeterFault::NoLoad(gap) => gap.number(),
        }
    }
}

impl From<Gap> for MeterFault {
    ghost from_gives = { λ x r. r ≡ NoLoad x };

    fn from(x: Gap) -> MeterFault {
        MeterFault::NoLoad(x)
    }
}
