// The counts that are read aloud, from what the tasks answered.
ghost use Rattle.std.specs.Prelude.{◌≡◌, ◌*◌, ◌^◌, ◌≤◌, length};
ghost use Rattle.season.specs.View.{view};
ghost use Rattle.settlement.specs.Counted.{counts_of, event_hours_out, hours_out, hours_of_meter, meter_hours_in, statements_out, written_by};

use crate::choose::table_meter;
use crate::held::hours_held;
use crate::results::{Counts, Done, Outcome, ReadMeter};
use season::Season;

// The hours of a meter's own table that hold a load.
fn hours_in(meter: &ReadMeter) -> u32
    ensures is { result ≡ hours_of_meter meter.now }
    ensures within { result ≤ 1824 }
{
    match meter {
        ReadMeter::Table {
            kind,
            number,
            cells,
        } => hours_held(&mut table_meter(*kind, *number, cells.as_slice())),
        ReadMeter::Pair { .. } => 0,
    }
}

// The hour lines of the statements that a task wrote.
fn lines_of(outcome: Outcome) -> u64
    ensures is { result ≡ hours_out outcome }
    ensures within { result ≤ 2 ^ 33 }
{
    match outcome {
        Outcome::Stated(Ok(hours)) => u64::from(hours),
        Outcome::Compared(Ok(hours)) => 2 * u64::from(hours),
        _ => 0,
    }
}

// The statements that a task wrote.
fn statements_of(outcome: Outcome) -> u64
    ensures is { result ≡ written_by outcome }
    ensures within { result ≤ 2 }
{
    match outcome {
        Outcome::Stated(Ok(_)) => 1,
        Outcome::Compared(Ok(_)) => 2,
        _ => 0,
    }
}

// The hours that hold a load, over the tables handed in.
fn meter_hours_in(meters: &[ReadMeter]) -> u128
    ensures { result ≡ meter_hours_in meters.now }
{
    meters.iter().map(|meter| u128::from(hours_in(meter))).sum()
}

// The hour lines of the statements written.
fn event_hours_out(outcomes: &[Outcome]) -> u128
    ensures { result ≡ event_hours_out outcomes.now }
{
    outcomes
        .iter()
        .map(|outcome| u128::from(lines_of(*outcome)))
        .sum()
}

// The statements written.
fn statements_out(outcomes: &[Outcome]) -> u128
    ensures { result ≡ statements_out outcomes.now }
{
    outcomes
        .iter()
        .map(|outcome| u128::from(statements_of(*outcome)))
        .sum()
}

// What is read aloud of a batch that was run: the season at its end, the meters handed in, and what came of its tasks.
pub fn counts(season: &Season, meters: &[ReadMeter], done: &Done) -> Counts
    ensures { result ≡ counts_of (view season.now) meters.now done.now.outcomes.items }
{
    let outcomes = done.outcomes.as_slice();
    Counts {
        sites: season.sites_count(),
        meter_hours: meter_hours_in(meters),
        event_hours: event_hours_out(outcomes),
        statements: statements_out(outcomes),
    }
}
