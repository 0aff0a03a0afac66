// What may be relied on: each of these functions stands for a law, which its contract states.
ghost use Rattle.settlement.specs.Choosing.{PlacesMeanTheirMeters};
ghost use Rattle.settlement.specs.Counted.{EventHoursOutAreLinesWritten, StatementsOutAreThoseWritten};
ghost use Rattle.settlement.specs.Recorded.{TheFirstLoadStands};
ghost use Rattle.settlement.specs.Seasons.{TasksLeaveCalledSeasons};

// The statements out are as many as the statements that were written.
#[tactic(auto, using(crate::proofs::Lines::statements_counted))]
pub fn statements_out_are_those_written()
    ensures { StatementsOutAreThoseWritten }
{}

// The event hours out are the hour lines of the statements that were written.
#[tactic(auto, using(crate::proofs::Lines::lines_counted))]
pub fn event_hours_out_are_lines_written()
    ensures { EventHoursOutAreLinesWritten }
{}

// A cell of a table holds the first load within the limit that was read for it.
#[tactic(auto, using(crate::proofs::FirstLoads::first_load_stands))]
pub fn the_first_load_stands()
    ensures { TheFirstLoadStands }
{}

// The season that a batch leaves is one that calls have made, or was never opened.
#[tactic(auto, using(crate::proofs::CalledSeasons::tasks_leave_called))]
pub fn tasks_leave_called_seasons()
    ensures { TasksLeaveCalledSeasons }
{}

// A place of a list has the meter that stands there, and past the end there is none.
#[tactic(auto, using(crate::proofs::Places::places_mean))]
pub fn places_mean_their_meters()
    ensures { PlacesMeanTheirMeters }
{}
