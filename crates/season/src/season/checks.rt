// The checks of each call in their order: what it will answer, or why it is refused.
ghost use Rattle.std.specs.Prelude.{◌≡◌, ◌+◌, ◌<◌, ◌≤◌, [], length, IfOk, Ok, Err, MatchResult, OnOk};
ghost use Rattle.tariff.specs.Calendar.{day_of};
ghost use Rattle.tariff.specs.Calls as spec;
ghost use Rattle.tariff.specs.Events.{event_of};
ghost use Rattle.tariff.specs.Kinds.{kind_of};
ghost use Rattle.tariff.specs.Season.{day_at};
ghost use Rattle.season.specs.View.{view};

use super::Season;
use crate::events::{is_announced, is_hours_outside, is_notice_outside};
use crate::sites::is_figure_outside;
use calendar::{business, deadline, in_season, last_week, week_of};
use tariff::call::SeasonRefusal;
use tariff::season::{Day, Event, Kind};

impl Season {
    // The season takes calls, and the moment lies in the summer and not before the clock.
    // The moment stays the caller's number, with no type of its own: each check gives back only that it lies in the summer.
    pub(super) fn check_moment(&self, moment: u32) -> Result<(), SeasonRefusal>
        ensures is { result ≡ spec.checked (spec.at_moment (view self.now) moment []) tt }
        ensures within { OnOk result (moment ≤ 109439) }
    {
        if self.closed {
            Err(SeasonRefusal::SeasonClosed)
        } else if moment > 109_439 {
            Err(SeasonRefusal::MomentPastEnd)
        } else if moment < self.clock {
            Err(SeasonRefusal::MomentBeforeClock)
        } else {
            Ok(())
        }
    }

    // The kind of a site that may be enrolled.
    pub(super) fn kind_to_enrol(
        &self,
        moment: u32,
        kind: u32,
        kw: u32,
    ) -> Result<Kind, SeasonRefusal>
        ensures is { MatchResult result (λ _. spec.enrol_answer (view self.now) moment kind kw ≡ Ok (length (view self.now).sites + 1)) (λ x. spec.enrol_answer (view self.now) moment kind kw ≡ Err x) }
        ensures kind { IfOk result (λ k. (k ≡ kind_of kind) × (self.now.sites.count < 64)) }
    {
        self.check_moment(moment)?;
        if moment >= 20_160 {
            return Err(SeasonRefusal::EnrolmentTooLate);
        }
        let kind = Kind::try_from(kind)?;
        if self.sites.len() >= 64 {
            return Err(SeasonRefusal::SitesFull);
        }
        if is_figure_outside(kind, kw) {
            return Err(SeasonRefusal::FigureOutside);
        }
        Ok(kind)
    }

    pub(super) fn nominate_answer(
        &self,
        moment: u32,
        site: u32,
        week: u32,
        kw: u32,
    ) -> Result<u32, SeasonRefusal>
        ensures is { result ≡ spec.nominate_answer (view self.now) moment site week kw }
        ensures within { IfOk result (λ w. (1 ≤ site) × (site ≤ self.now.sites.count) × (w ≡ week) × (1 ≤ week) × (week ≤ 10)) }
    {
        self.check_moment(moment)?;
        let held = self.sites.at(site).ok_or(SeasonRefusal::NoSuchSite)?;
        if !(1..=last_week(self.year)).contains(&week) {
            return Err(SeasonRefusal::NoSuchWeek);
        }
        if u64::from(moment) > deadline(self.year, week) {
            return Err(SeasonRefusal::NominationTooLate);
        }
        if is_figure_outside(held.kind, kw) {
            return Err(SeasonRefusal::FigureOutside);
        }
        if self.events.announcements() >= 3 && kw > held.highest {
            return Err(SeasonRefusal::FigureAboveHighest);
        }
        Ok(week)
    }

    pub(super) fn announce_answer(
        &self,
        moment: u32,
        start: u32,
        length: u32,
    ) -> Result<u32, SeasonRefusal>
        ensures is { result ≡ spec.announce_answer (view self.now) moment start length }
        ensures within { OnOk result ((moment ≤ 109439) × (start + length ≤ 20)) }
    {
        self.check_moment(moment)?;
        let day = moment / 1440;
        if !business(self.year, day) || !in_season(day) {
            return Err(SeasonRefusal::NoBusinessDay);
        }
        if is_hours_outside(start, length) {
            return Err(SeasonRefusal::HoursOutside);
        }
        if is_notice_outside(moment, start) {
            return Err(SeasonRefusal::NoticeOutside);
        }
        if is_announced(self.events.at(day)) {
            return Err(SeasonRefusal::DayAnnounced);
        }
        let week = week_of(self.year, day);
        if self.events.hours_of_week(self.year, week) + length > 15 {
            return Err(SeasonRefusal::WeekFull);
        }
        if self.events.standing_hours() + length > 60 {
            return Err(SeasonRefusal::SeasonFull);
        }
        Ok(self.events.announcements() + 1)
    }

    // The event of the moment's day, which may still be revoked.
    pub(super) fn event_to_revoke(&self, moment: u32) -> Result<Event, SeasonRefusal>
        ensures is { MatchResult result (λ e. spec.revoke_answer (view self.now) moment ≡ Ok e.length) (λ x. spec.revoke_answer (view self.now) moment ≡ Err x) }
        ensures event { IfOk result (λ e. (moment ≤ 109439) × (e ≡ event_of (day_at (view self.now) (day_of moment)))) }
    {
        self.check_moment(moment)?;
        let day = self.events.at(moment / 1440);
        let event = day.standing().ok_or(SeasonRefusal::NoEventStands)?;
        if 60 * u32::from(event.start) < moment % 1440 + 30 {
            return Err(SeasonRefusal::RevocationTooLate);
        }
        Ok(event)
    }
}
