ghost use Rattle.std.specs.Prelude.{◌≡◌, IfErr, IfOk, Err, Some};
ghost use Rattle.settlement.specs.Chosen.{chosen_table};
ghost use Rattle.settlement.specs.Choosing.{both_tables, ChosenFor, table_at, table_of, together};

use crate::chosen::ChosenMeter;
use crate::fault::RunFault;
use crate::results::ReadMeter;
use meter::kind::TableKind;
use meter::pair::PairMeter;
use meter::table::{HourlyMeter, QuarterMeter};
use std::alloc::{AllocError, Global};

// A meter over a table of a kind.
pub(crate) fn table_meter<'a>(kind: TableKind, number: u32, cells: &'a [u32]) -> ChosenMeter<'a>
    ensures { chosen_table result ≡ table_of kind cells.now number }
{
    match kind {
        TableKind::Hourly => ChosenMeter::Hourly(HourlyMeter { cells, number }),
        TableKind::Quarter => ChosenMeter::Quarter(QuarterMeter { cells, number }),
    }
}

// Two meters as one.
fn pair_meter<'a>(
    heap: Global,
    first: ChosenMeter<'a>,
    second: ChosenMeter<'a>,
) -> Result<ChosenMeter<'a>, AllocError>
    ensures { IfOk result (λ m. chosen_table m ≡ together (chosen_table first.entry) (chosen_table second.entry)) }
{
    Ok(ChosenMeter::Pair(Box::new(heap, PairMeter { first, second })?))
}

// The meters at the two places of a pair, as one; both are looked up among those before it.
#[cycle(choose)]
fn choose_pair<'a>(
    heap: Global,
    before: &'a [ReadMeter],
    first: usize,
    second: usize,
) -> Result<ChosenMeter<'a>, RunFault>
    ensures chosen { IfOk result (λ m. both_tables (table_at before.now first) (table_at before.now second) ≡ Some (chosen_table m)) }
    ensures refused { IfErr result (λ e. ChosenFor (both_tables (table_at before.now first) (table_at before.now second)) (Err e)) }
{
    let first = choose(heap, before, first)?;
    let second = choose(heap, before, second)?;
    Ok(pair_meter(heap, first, second)?)
}

// The meter at a place of a list of meters. The two meters of a pair are looked up among those before it.
#[cycle(choose)]
#[tactic(auto, using(crate::proofs::Places::place_means, crate::proofs::Places::none_past, std::proofs::lemmas::List::get_or_read))]
pub fn choose<'a>(
    heap: Global,
    meters: &'a [ReadMeter],
    place: usize,
) -> Result<ChosenMeter<'a>, RunFault>
    ensures { ChosenFor (table_at meters.now place) result }
{
    let meter = meters.get(place).ok_or(RunFault::NoSuchMeter)?;
    match meter {
        ReadMeter::Table {
            kind,
            number,
            cells,
        } => Ok(table_meter(*kind, *number, cells.as_slice())),
        ReadMeter::Pair { first, second } => {
            choose_pair(heap, &meters[0..place], *first, *second)
        }
    }
}
