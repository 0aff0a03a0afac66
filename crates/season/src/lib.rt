// The record of a season: its sites, the events of its days, the calls that change them, and what others read of it.
#![tactic(auto)]

mod events;
mod hours;
mod season;
mod sites;

pub use hours::EventHours;
pub use season::Season;
pub use season::lists::ListRefusal;
