// What may be relied on of every meter, built here or not: each of these functions stands for a theorem.
ghost use Rattle.meter.specs.Cells.{HourlyTablesHaveACellToAnHour, QuarterTablesHaveFourCellsToAnHour};
ghost use Rattle.meter.specs.Meaning.{AgreeingMetersMeanTheSame};

// Two meters that agree on the 1,824 hours of the summer mean the same: nothing else of them matters.
#[tactic(auto, using(crate::proofs::Agreeing::agreeing))]
pub fn agreeing_meters_mean_the_same()
    ensures { AgreeingMetersMeanTheSame }
{}

// An hour of an hourly table is its one cell.
#[tactic(auto, using(crate::proofs::Forms::hourly_tables))]
pub fn hourly_tables_have_a_cell_to_an_hour()
    ensures { HourlyTablesHaveACellToAnHour }
{}

// An hour of a table of quarter-hours is its four cells together.
#[tactic(auto, using(crate::proofs::Forms::quarter_tables))]
pub fn quarter_tables_have_four_cells_to_an_hour()
    ensures { QuarterTablesHaveFourCellsToAnHour }
{}
