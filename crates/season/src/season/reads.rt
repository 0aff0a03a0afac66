// What others read of a season.
ghost use Rattle.std.specs.Prelude.{◌≡◌, ◌≤◌, true, length, IfSome, if◌then◌else◌, Some, None};
ghost use Rattle.tariff.specs.Comparison as spec;
ghost use Rattle.tariff.specs.Events.{announced, event_of};
ghost use Rattle.tariff.specs.Season as model;
ghost use Rattle.tariff.specs.Sound.{Fit, Sound, Whole};
ghost use Rattle.season.specs.View.{SameCells, view};

use super::Season;
use crate::events::stands;
use calendar::business;
use tariff::season::{Day, Site};

impl Season {
    // Whatever calls it has taken, a record stands for a sound season.
    #[tactic(auto, using(crate::proofs::Sounds::sound_of))]
    pub fn stays_sound(&self)
        ensures { Sound (view self.now) }
    {}

    // A record holds nothing but its season: where two stand for one season, every cell of them is the same.
    #[tactic(auto, using(crate::proofs::Cells::same_cells))]
    pub fn same_season_same_cells(&self, other: &Season)
        ensures { view self.now ≡ view other.now → SameCells self.now other.now }
    {}

    pub fn year(&self) -> u32
        ensures { result ≡ (view self.now).year }
    {
        self.year
    }

    pub fn is_closed(&self) -> bool
        ensures { result ≡ (view self.now).closed }
    {
        self.closed
    }

    // How many sites are enrolled.
    pub fn sites_count(&self) -> u32
        ensures is { result ≡ length (view self.now).sites }
        ensures within { result ≤ 64 }
    {
        self.sites.len()
    }

    // Every enrolled site has a figure within its kind's bounds for each of ten weeks.
    fn sites_stay_whole(&self, number: u32)
        ensures { model.has_site (view self.now) number ≡ true → Whole (model.site_at (view self.now) number) }
    {}

    // The site of a number, counted from 1, where there is one.
    pub fn site(&self, number: u32) -> Option<Site>
        ensures whole { IfSome result Whole }
        ensures is { result ≡ (if model.has_site (view self.now) number then Some (model.site_at (view self.now) number) else None) }
    {
        self.sites_stay_whole(number);
        self.sites.at(number)
    }

    // What a day of the summer holds; past the summer there is no event. An announced event fits its day.
    pub fn day(&self, day: u32) -> Day
        ensures is { result ≡ model.day_at (view self.now) day }
        ensures fit { announced result ≡ true → Fit (view self.now).year day (event_of result) }
    {
        self.stays_sound();
        self.events.at(day)
    }

    // How many hours the standing events have.
    pub fn standing_hours(&self) -> u32
        ensures is { result ≡ model.standing_hours (view self.now) }
        ensures within { result ≤ 60 }
    {
        self.events.standing_hours()
    }

    // Whether a day may be compared with an event's: a business day that holds no standing event.
    pub fn comparable(&self, day: u32) -> bool
        ensures { result ≡ spec.comparable (view self.now) day }
    {
        business(self.year, day) && !stands(self.events.at(day))
    }
}
