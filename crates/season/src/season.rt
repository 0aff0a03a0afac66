// The record of a season.
ghost use Rattle.std.specs.Prelude.{◌≤◌};
ghost use Rattle.tariff.specs.Events.{hours_before};
ghost use Rattle.season.specs.Tables.{listed};
ghost use Rattle.season.specs.Tests.{AllFit, AllWhole, WeeksHold};

use crate::events::EventTable;
use crate::sites::SiteTable;

mod calls;
mod checks;
pub mod lists;
mod measured;
mod reads;

// A season as callers hold it. Whatever calls it takes, its sites are whole and its unused cells blank, its events fit their
// days, and no more than 15 hours stand in a week and 60 in all.
#[derive(Clone, Copy, PartialEq, Eq)]
pub struct Season {
    year: u32,
    // also true where no season was ever opened, as the model has it, so that such a record refuses every call alike; a year that may be missing would not say more
    closed: bool,
    // the moment of the last accepted announcement or revocation
    clock: u32,
    sites: SiteTable,
    events: EventTable,
    ghost whole: { AllWhole (listed sites) },
    ghost fit: { AllFit year events.days },
    ghost weekly: { WeeksHold year events.days },
    ghost full: { hours_before events.days 76 ≤ 60 },
}
