// Meters: what a site drew in each hour of the summer, and the tables that readings are recorded in.
#![tactic(auto)]

pub mod cells;
pub mod hour;
pub mod kind;
pub mod laws;
pub mod meter;
pub mod pair;
pub mod refusal;
pub mod table;
pub mod tables;
