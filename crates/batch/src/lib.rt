// A batch: one client's season as a text, with its meters' readings, read into what is to be done.
#![tactic(auto)]

pub mod faults;
pub mod plan;
pub mod read;
pub mod readings;
