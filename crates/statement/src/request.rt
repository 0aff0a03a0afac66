ghost use Rattle.std.specs.Prelude.{◌≡◌};
ghost use Rattle.tariff.specs.Laws.{DeeperCutNeverCosts, EventsStandApart, SitesStandApart};
ghost use Rattle.tariff.specs.Sound.{AfterAnyCalls};
ghost use Rattle.tariff.specs.Statement.{hours_answered, outcome, record_after};
ghost use Rattle.season.specs.View.{view};

use crate::settle::Request;
use meter::meter::Meter;
use season::Season;
use tariff::laws::{deeper_cut_never_costs, events_stand_apart, sites_stand_apart};
use tariff::statement::{Statement, StatementRefusal};

// Fills the caller's record with the statement of a site of a closed season, read through a meter, and answers the number of its
// event hours. A refusal leaves the record as it was. Refused or not, the meter's table stays.
// The caller's record is filled, and no statement is answered, so that a refusal leaves what it held.
pub fn statement<M: Meter>(
    season: &Season,
    site: u32,
    meter: &mut M,
    filled: &mut Statement,
) -> Result<u32, StatementRefusal>
    ensures answer { result ≡ hours_answered (outcome (view season.now) site (M.table meter.old)) }
    ensures filled { filled.new ≡ record_after filled.old (outcome (view season.now) site (M.table meter.old)) }
    ensures keeps { M.table meter.new ≡ M.table meter.old }
    ensures deeper_cut_never_costs { AfterAnyCalls DeeperCutNeverCosts }
    ensures events_stand_apart { AfterAnyCalls EventsStandApart }
    ensures sites_stand_apart { SitesStandApart }
{
    deeper_cut_never_costs();
    events_stand_apart();
    sites_stand_apart();
    let (settled, hours) = Request { season, site }.settle(meter)?;
    *filled = settled;
    Ok(hours)
}
