// Settling a batch: meters chosen at run time, readings recorded in their tables, the tasks run over the proved calls, and the
// counts that are read aloud.
#![tactic(auto)]

pub mod choose;
pub mod chosen;
pub mod counts;
pub mod fault;
pub mod held;
pub mod laws;
pub mod record;
pub mod results;
pub mod run;
mod settle;
