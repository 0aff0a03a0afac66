// What a season's baselines are measured from: the hours of its standing events, and the days that an event is compared with.
ghost use Rattle.std.specs.Prelude.{◌≡◌, ◌<◌, ◌≤◌, true, length, IfSome, if◌then◌else◌, Some, None};
ghost use Rattle.std.specs.List.{AllByRecursion};
ghost use Rattle.std.specs.Option.{option_to_list};
ghost use Rattle.tariff.specs.Comparison as spec;
ghost use Rattle.tariff.specs.Events.{event_hours_before};
ghost use Rattle.tariff.specs.Season as model;
ghost use Rattle.season.specs.Hours.{Placed, hours_listed};
ghost use Rattle.season.specs.Rest.{RestZero};
ghost use Rattle.season.specs.View.{view};

use super::Season;
use crate::events::stands;
use crate::hours::{EventHours, HoursSoFar};

impl Season {
    // The hours of the standing events of the first days, by day and hour.
    fn hours_before(&self, days: u8) -> HoursSoFar
        requires { days ≤ 76 }
        ensures is { hours_listed result.list ≡ event_hours_before (view self.now).days days }
        ensures counted { result.list.count ≡ length (event_hours_before (view self.now).days days) }
        ensures placed { AllByRecursion (Placed (view self.now)) (hours_listed result.list) }
    {
        let mut hours = HoursSoFar::new();
        let mut numbered = 0;
        // by the day's number, which each hour tells
        for day in 0..days {
            let held = self.day(u32::from(day));
            hours.push_day(numbered + 1, day, held);
            if stands(held) {
                numbered += 1;
            }
        }
        hours
    }

    // The hours of the standing events, by day and hour. Whoever needs them reads them here.
    pub fn event_hours(&self) -> EventHours
        ensures is { hours_listed result ≡ model.season_event_hours (view self.now) }
        ensures counted { result.count ≡ length (model.season_event_hours (view self.now)) }
        ensures cells { length result.hours ≡ 60 }
        ensures within { result.count ≤ 60 }
        ensures rest { RestZero result.count result.hours }
        ensures placed { AllByRecursion (Placed (view self.now)) (hours_listed result) }
    {
        self.hours_before(76).list
    }

    // The latest comparable day before a day, where there is one.
    fn latest_comparable(&self, before: u32) -> Option<u32>
        ensures { option_to_list result ≡ spec.latest (spec.comparable (view self.now)) 1 before }
    {
        (0..before).rev().find(|day| self.comparable(*day))
    }

    // The ten latest comparable days before the day of a standing event, the latest first. There are always ten.
    fn ten_latest(&self, day: u32) -> [u8; 10]
        requires stands { model.standing (view self.now) day ≡ true }
        requires within { day ≤ 75 }
        ensures is { result ≡ spec.comparison_days (view self.now) day }
        ensures before { AllByRecursion (λ k. k < day) result }
    {
        let mut days = [0; 10];
        let mut before = day;
        for slot in &mut days {
            before = self.latest_comparable(before).unwrap();
            *slot = before as u8;
        }
        days
    }

    // The days that a day's event is compared with, the latest first, where an event stands on the day.
    pub fn comparison_days(&self, day: u32) -> Option<[u8; 10]>
        ensures is { result ≡ (if model.standing (view self.now) day then Some (spec.comparison_days (view self.now) day) else None) }
        ensures before { IfSome result (λ days. AllByRecursion (λ k. k < day) days × (day ≤ 75)) }
    {
        self.day(day).standing()?;
        Some(self.ten_latest(day))
    }
}
