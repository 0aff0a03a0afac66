// A settled batch, as both texts are made of it.
use batch::plan::{BatchMeter, Step};
use settlement::results::{Counts, Done, RefusedReading};

// A meter of a batch that was handed in, with the readings of its file that were refused.
#[derive(Drop)]
pub struct HandedIn<'a> {
    pub meter: BatchMeter<'a>,
    pub refused: Vec<RefusedReading>,
}

// A batch with what came of it.
// Steps and outcomes side by side: a run is given the steps, and answers one outcome for each.
#[derive(Drop)]
pub struct Settled<'a> {
    pub label: &'a str,
    pub meters: Vec<HandedIn<'a>>,
    pub steps: Vec<Step>,
    pub done: Done,
    pub counts: Counts,
}
