ghost use Rattle.std.specs.Prelude.{◌≡◌, length};
ghost use Rattle.tariff.specs.Season.{season_event_hours};
ghost use Rattle.tariff.specs.Statement.{outcome, refused_or, season_fault, statement_of};
ghost use Rattle.season.specs.View.{view};

use crate::site::SeasonSite;
use crate::weeks::weeks_of;
use meter::meter::Meter;
use pay::statement::statement_from;
use season::Season;
use tariff::statement::{Statement, StatementRefusal};

impl SeasonSite<'_> {
    // The site's statement with its number of event hours, or the first fault.
    fn settle_site<M: Meter>(&self, meter: &mut M) -> Result<(Statement, u32), StatementRefusal>
        ensures answer { result ≡ refused_or (season_fault (view self.now.season.now) (M.table meter.old)) (statement_of (view self.now.season.now) self.now.site.now (M.table meter.old), length (season_event_hours (view self.now.season.now))) }
        ensures keeps { M.table meter.new ≡ M.table meter.old }
    {
        let list = self.measure_season(meter)?;
        let weeks = weeks_of(self.season.year());
        let record = statement_from(&list, &self.site.weeks, &weeks);
        Ok((record, list.len() as u32))
    }
}

// A request for the statement of a site of a season, by its number, which no site may have.
#[derive(Clone, Copy)]
pub(crate) struct Request<'a> {
    pub(crate) season: &'a Season,
    pub(crate) site: u32,
}

impl Request<'_> {
    // What comes of it on a meter: the checks in their order, and then the statement with its number of hours.
    pub(crate) fn settle<M: Meter>(
        &self,
        meter: &mut M,
    ) -> Result<(Statement, u32), StatementRefusal>
        ensures answer { result ≡ outcome (view self.now.season.now) self.now.site (M.table meter.old) }
        ensures keeps { M.table meter.new ≡ M.table meter.old }
    {
        if !self.season.is_closed() {
            return Err(StatementRefusal::SeasonNotClosed);
        }
        let site = self
            .season
            .site(self.site)
            .ok_or(StatementRefusal::NoSuchSite)?;
        let enrolled = SeasonSite {
            season: self.season,
            site: &site,
        };
        enrolled.settle_site(meter)
    }
}
