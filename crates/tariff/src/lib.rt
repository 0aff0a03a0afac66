// The tariff: its plain data here, its rules and their laws in specs/.
#![tactic(auto)]

pub mod call;
pub mod fault;
pub mod laws;
pub mod reading;
pub mod season;
pub mod statement;
