ghost use Rattle.std.specs.Prelude.{◌≡◌, ◌≤◌};
ghost use Rattle.tariff.specs.Calendar as spec;
ghost use Rattle.tariff.specs.Season.{nomination_for};
ghost use Rattle.season.specs.View.{view};

use calendar::week_of;
use season::Season;
use tariff::season::Site;

// A site in its season.
#[derive(Clone, Copy)]
pub(crate) struct SeasonSite<'a> {
    pub(crate) season: &'a Season,
    pub(crate) site: &'a Site,
}

impl SeasonSite<'_> {
    // The site's nomination for the week of a day, in kW.
    // The day's bound stays a clause, as in measuring a day.
    pub(crate) fn nomination_on(&self, day: u8) -> u32
        requires { day ≤ 75 }
        ensures { result ≡ nomination_for self.now.site.now (spec.week_of (view self.now.season.now).year day) }
    {
        let week = week_of(self.season.year(), u32::from(day));
        self.site.weeks[week as usize - 1]
    }
}
