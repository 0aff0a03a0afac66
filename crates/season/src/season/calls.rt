// The calls of a season: what each answers, and what it leaves. A refused call leaves the record as it was, unused cells too.
ghost use Rattle.std.specs.Prelude.{◌≡◌, ◌≤◌, OnErr};
ghost use Rattle.tariff.specs.Calls as spec;
ghost use Rattle.tariff.specs.Season.{never_opened};
ghost use Rattle.tariff.specs.declared.call.Answer.TheVariants.{Announced, Revoked as RevokedHours, Site as SiteNumber, Week};
ghost use Rattle.tariff.specs.declared.call.Call.TheVariants.{Announce, Close, Enrol, Nominate, Revoke};
ghost use Rattle.season.specs.View.{view};

use super::Season;
use crate::events::EventTable;
use crate::sites::SiteTable;
use calendar::last_week;
use tariff::call::SeasonRefusal;
use tariff::season::{Day, Event};

impl Season {
    // A record that was never opened: it counts as closed, and has no sites.
    pub fn new() -> Season
        ensures { view result ≡ never_opened }
    {
        Season {
            year: 0,
            closed: true,
            clock: 0,
            sites: SiteTable::new(),
            events: EventTable::new(),
        }
    }

    // Puts a season of a year, without sites and events, in place of whatever the record held, and answers its last week.
    pub fn open(&mut self, year: u32) -> Result<u32, SeasonRefusal>
        ensures answer { result ≡ spec.open_answer (view self.old) year }
        ensures after { view self.new ≡ spec.after_open (view self.old) year result }
        ensures kept { OnErr result (self.new ≡ self.old) }
    {
        if !(2015..=2099).contains(&year) {
            return Err(SeasonRefusal::YearOutside);
        }
        self.year = year;
        self.closed = false;
        self.clock = 0;
        self.sites = SiteTable::new();
        self.events = EventTable::new();
        Ok(last_week(year))
    }

    // Enrols a site of a kind with one figure in kW for all weeks, and answers its number, counted from 1.
    // The kind is any number, as in a call as a value: those of no kind are refused.
    pub fn enrol(&mut self, moment: u32, kind: u32, kw: u32) -> Result<u32, SeasonRefusal>
        ensures answer { result ≡ spec.enrol_answer (view self.old) moment kind kw }
        ensures after { view self.new ≡ spec.after (view self.old) (Enrol moment kind kw) (spec.as_answer SiteNumber result) }
        ensures kept { OnErr result (self.new ≡ self.old) }
    {
        let kind = self.kind_to_enrol(moment, kind, kw)?;
        self.sites.enrol(kind, kw);
        Ok(self.sites.len())
    }

    // Takes a site's figure in kW for a week and all later weeks, and answers the week.
    // Site, week and figure stay parameters: a record of them would be made for this call and taken apart in it.
    pub fn nominate(
        &mut self,
        moment: u32,
        site: u32,
        week: u32,
        kw: u32,
    ) -> Result<u32, SeasonRefusal>
        ensures answer { result ≡ spec.nominate_answer (view self.old) moment site week kw }
        ensures after { view self.new ≡ spec.after (view self.old) (Nominate moment site week kw) (spec.as_answer Week result) }
        ensures kept { OnErr result (self.new ≡ self.old) }
    {
        let taken = self.nominate_answer(moment, site, week, kw)?;
        self.sites.nominate(site, taken, kw);
        Ok(taken)
    }

    // Announces an event for the moment's day, and answers how many announcements have been accepted.
    pub fn announce(&mut self, moment: u32, start: u32, length: u32) -> Result<u32, SeasonRefusal>
        ensures answer { result ≡ spec.announce_answer (view self.old) moment start length }
        ensures after { view self.new ≡ spec.after (view self.old) (Announce moment start length) (spec.as_answer Announced result) }
        ensures kept { OnErr result (self.new ≡ self.old) }
    {
        let accepted = self.announce_answer(moment, start, length)?;
        let event = Event {
            start: start as u8,
            length: length as u8,
            notice: moment,
        };
        self.events.put(moment / 1440, Day::Standing(event));
        self.clock = event.notice;
        Ok(accepted)
    }

    // Withdraws the event of the moment's day, and answers its length in hours.
    pub fn revoke(&mut self, moment: u32) -> Result<u32, SeasonRefusal>
        ensures answer { result ≡ spec.revoke_answer (view self.old) moment }
        ensures after { view self.new ≡ spec.after (view self.old) (Revoke moment) (spec.as_answer RevokedHours result) }
        ensures kept { OnErr result (self.new ≡ self.old) }
    {
        let event = self.event_to_revoke(moment)?;
        self.events.put(moment / 1440, Day::Revoked(event));
        self.clock = moment;
        Ok(u32::from(event.length))
    }

    // Closes the season, and answers the standing events and their hours.
    pub fn close(&mut self) -> Result<(u32, u32), SeasonRefusal>
        ensures answer { result ≡ spec.close_answer (view self.old) }
        ensures after { view self.new ≡ spec.after (view self.old) Close (spec.as_answer spec.closed_with result) }
        ensures kept { OnErr result (self.new ≡ self.old) }
    {
        if self.closed {
            return Err(SeasonRefusal::SeasonClosed);
        }
        self.closed = true;
        Ok((self.events.standing_events(), self.events.standing_hours()))
    }
}
