// The original baseline: ten past days are read through a meter, the three highest are chosen by their totals, and their
// loads are added hour by hour. An event is then measured from it and from the loads of the event's own day.
#![tactic(auto)]

pub mod adjusted;
pub mod bases;
pub mod days;
pub mod event;
pub mod highest;
pub mod loads;
pub mod measured;
pub mod original;
pub mod reads;
pub mod span;
pub mod totals;
