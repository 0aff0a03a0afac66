ghost use Rattle.std.specs.Prelude.{◌≡◌, ◌+◌, ◌<◌, ◌≤◌, IfOk, slice_index};
ghost use Rattle.tariff.specs.declared.fault.Use.TheVariants.{EventDay};
ghost use Rattle.baseline.specs.Days.{«day_read»};
ghost use Rattle.baseline.specs.Sums.{SmallBases};
ghost use Rattle.baseline.specs.Measuring.{«adjusted_in», «hour_of», «measured_in», «event_from», «loads_read», «event_measured», «entry_from», MeasuredFromLoads, Bounded};

use crate::adjusted::{DayHour, shortfall};
use crate::days::ComparisonDays;
use crate::loads::EventLoads;
use crate::measured::MeasuredEvent;
use crate::original::original_baseline;
use crate::reads::read_day;
use crate::span::EventSpan;
use meter::meter::Meter;
use std::array;
use tariff::fault::{BaselineFault, Use};
use tariff::statement::MeasuredHour;

// Reads the event's own day.
fn read_own<M: Meter>(meter: &mut M, event: &EventSpan) -> Result<[u32; 24], BaselineFault>
    ensures answer { result ≡ day_read (M.table meter.old) EventDay event.now.day }
    ensures keeps { M.table meter.new ≡ M.table meter.old }
{
    read_day(meter, Use::EventDay, event.day)
}

// Reads the days to compare with, and then the event's own day.
// The meter is lent to be asked and the other two are only read, so they stay three parameters.
fn read_loads<M: Meter>(
    meter: &mut M,
    days: &ComparisonDays,
    event: &EventSpan,
) -> Result<EventLoads, BaselineFault>
    ensures answer { result ≡ loads_read (M.table meter.old) days.now.days event.now.day }
    ensures measured { MeasuredFromLoads (M.table meter.old) days.now.days event.now result }
    ensures small { IfOk result (λ x. SmallBases x.bases) }
    ensures keeps { M.table meter.new ≡ M.table meter.old }
{
    let original = original_baseline(meter, days)?;
    let own = read_own(meter, event)?;
    let bases = original.bases;
    Ok(EventLoads { bases, own })
}

// An event that is measured, by the loads that were read for it and at a nomination.
#[derive(Clone, Copy)]
struct Measuring<'a> {
    loads: &'a EventLoads,
    event: &'a EventSpan,
    nominated: u32,
    ghost small: { SmallBases loads.now.bases },
}

impl Measuring<'_> {
    // An hour of the event's day.
    // Its bound stays a clause, as below: an hour of a type of its own would be made and undone around each index.
    fn hour(&self, hour: u8) -> DayHour
        requires { hour < 24 }
        ensures load { result.load ≡ slice_index self.now.loads.now.own hour }
        ensures base { result.base ≡ slice_index self.now.loads.now.bases hour }
    {
        let load = self.loads.own[usize::from(hour)];
        let base = self.loads.bases[usize::from(hour)];
        DayHour { load, base }
    }

    // The adjusted baseline of an hour: the two hours before the notice's hour move it.
    fn adjusted(&self, hour: u8) -> u64
        requires { hour < 24 }
        ensures value { result ≡ adjusted_in self.now.loads.now self.now.event.now.notice hour }
        ensures bound { result ≤ 3600000000 }
    {
        let first = self.hour(self.event.notice - 2);
        let second = self.hour(self.event.notice - 1);
        self.hour(hour).adjusted(first, second)
    }

    // What is measured in an hour of the event.
    fn measured(&self, hour: u8) -> MeasuredHour
        requires { hour < 24 }
        ensures value { result ≡ measured_in self.now.loads.now self.now.event.now.notice self.now.nominated (hour_of self.now.event.now hour) }
        ensures reduced { result.reduction ≤ 120000000 }
        ensures short { result.shortfall ≤ 4294967295000 }
    {
        let adjusted = self.adjusted(hour);
        let reduction = self.hour(hour).reduction(adjusted);
        MeasuredHour {
            event: self.event.number,
            day: self.event.day,
            hour,
            base: self.hour(hour).base,
            adjusted,
            reduction,
            shortfall: shortfall(self.nominated, reduction),
        }
    }

    // The k-th entry of the event's record, counted from 0: what is measured in its k-th hour, or zeros where it has no such hour.
    #[tactic(auto, unfolding(crate::specs::Measuring::entry_from))]
    fn entry(&self, k: usize) -> MeasuredHour
        ensures value { result ≡ entry_from self.now.loads.now self.now.event.now self.now.nominated k }
        ensures reduced { result.reduction ≤ 120000000 }
        ensures short { result.shortfall ≤ 4294967295000 }
    {
        if k < usize::from(self.event.length) {
            self.measured(self.event.start + k as u8)
        } else {
            MeasuredHour::default()
        }
    }

    // What is measured in each hour of the event.
    fn measured_event(&self) -> MeasuredEvent
        ensures value { result ≡ event_from self.now.loads.now self.now.event.now self.now.nominated }
        ensures bounds { Bounded result }
    {
        MeasuredEvent {
            hours: array::from_fn(|k| self.entry(k)),
            count: self.event.length,
        }
    }
}

// Measures an event: the days to compare with are read first, then the event's own day, and the first hour without a load stops
// it. The meter's table stays.
pub fn measure_event<M: Meter>(
    meter: &mut M,
    days: &ComparisonDays,
    event: &EventSpan,
    nominated: u32,
) -> Result<MeasuredEvent, BaselineFault>
    ensures answer { result ≡ event_measured (M.table meter.old) days.now.days event.now nominated }
    ensures bounds { IfOk result Bounded }
    ensures keeps { M.table meter.new ≡ M.table meter.old }
{
    let loads = read_loads(meter, days, event)?;
    let measuring = Measuring {
        loads: &loads,
        event,
        nominated,
    };
    Ok(measuring.measured_event())
}
