// What a desk is shown of a settled batch: a report that people read, and rows for spreadsheets and other programs.
#![tactic(auto)]

mod calls;
mod columns;
mod dates;
mod differences;
mod figures;
mod gaps;
mod meters;
pub mod people;
mod refusals;
pub mod rows;
pub mod settled;
mod tables;
mod telling;

// What stands before a line that tells what came of a step.
pub(crate) const INDENT: &str = "           ";
