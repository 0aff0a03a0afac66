// Paying: what the measured hours of a site pay and cost, week by week and in all.
#![tactic(auto)]

pub mod capacity;
pub mod lines;
pub mod list;
pub mod listing;
pub mod placed;
pub mod rates;
pub mod statement;
mod summer;
pub mod totals;
pub mod weeks;
