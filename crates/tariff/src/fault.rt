ghost use Rattle.std.specs.Prelude.{◌≡◌};
ghost use Rattle.tariff.specs.Gaps.{baseline_fault_number};
ghost use Rattle.tariff.specs.Uses.{use_number};
ghost use Rattle.tariff.specs.declared.fault.BaselineFault.TheVariants.{HourWithoutLoad};

use crate::reading::Gap;

// What an hour is needed for: as an hour of a comparison day, or of the event's own day.
#[derive(Clone, Copy, PartialEq, Eq, Debug)]
pub enum Use {
    Comparison,
    EventDay,
}

impl Use {
    // The number that reports show for a use.
    // A method and no `From`: `u32::from(purpose)` would not say that it is what a report shows.
    pub fn number(self) -> u32
        ensures { result ≡ use_number self }
    {
        match self {
            Use::Comparison => 1,
            Use::EventDay => 2,
        }
    }
}

// A meter's gap, with what the hour was needed for and where it lies.
#[derive(Clone, Copy, PartialEq, Eq, Debug)]
pub struct HourGap {
    pub gap: Gap,
    pub purpose: Use,
    pub day: u8,
    pub hour: u8,
}

// What keeps a baseline from being worked out: an hour that is needed and has no load.
// An enum of one variant, and not the record itself: that an hour's gap keeps a baseline from being worked out is said by the name.
#[derive(Clone, Copy, PartialEq, Eq, Debug)]
pub enum BaselineFault {
    HourWithoutLoad(HourGap),
}

impl BaselineFault {
    // The number of the hour's gap.
    // A method and no `From`: a fault holds a day and an hour too, and `u32::from(fault)` would not say which is meant.
    pub fn number(self) -> u32
        ensures { result ≡ baseline_fault_number self }
    {
        match self {
            BaselineFault::HourWithoutLoad(hour) => hour.gap.number(),
        }
    }
}

impl From<HourGap> for BaselineFault {
    ghost from_gives = { λ x r. r ≡ HourWithoutLoad x };

    fn from(x: HourGap) -> BaselineFault {
        BaselineFault::HourWithoutLoad(x)
    }
}
