// The statement of a site: its event hours are measured through a meter, paid for, and written into the caller's record.
#![tactic(auto)]

pub mod both;
pub mod compare;
pub mod events;
pub mod hours;
pub mod measure;
pub mod request;
pub mod settle;
pub mod site;
pub mod weeks;
