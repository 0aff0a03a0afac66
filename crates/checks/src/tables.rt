// Wiping and recording: each refusal at its edge, and what is left in the table.
use meter::kind::TableKind;
use meter::refusal::RecordRefusal;
use meter::tables::{record, wipe};
use std::test::Fail;

#[test]
fn wiping_marks_every_cell_and_counts_them(rt: HostRuntime) {
    let mut cells = [0, 7, 100_000_000];
    assert_eq!(rt; wipe(&mut cells), 3);
    assert_eq!(rt; cells, [u32::MAX; 3]);
    let mut none: [u32; 0] = [];
    assert_eq!(rt; wipe(&mut none), 0);
}

// 22: the cell lies beyond the span, or beyond a table that is shorter than its span.
#[test]
fn no_cell_beyond_the_span_or_the_table(rt: HostRuntime) -> Result<(), Fail> {
    let mut hours = vec![in rt.alloc(); u32::MAX; 2000]?;
    assert_eq!(rt; record(&mut hours, TableKind::Hourly, 1823, 5), Ok(1823));
    let beyond = record(&mut hours, TableKind::Hourly, 1824, 5);
    assert_eq!(rt; beyond, Err(RecordRefusal::NoSuchCell));
    assert_eq!(rt; RecordRefusal::NoSuchCell.number(), 22);
    let mut quarters = vec![in rt.alloc(); u32::MAX; 8000]?;
    assert_eq!(rt;
        record(&mut quarters, TableKind::Quarter, 7295, 5),
        Ok(7295)
    );
    let beyond = record(&mut quarters, TableKind::Quarter, 7296, 5);
    assert_eq!(rt; beyond, Err(RecordRefusal::NoSuchCell));
    let mut short = [u32::MAX; 2];
    assert_eq!(rt; record(&mut short, TableKind::Hourly, 1, 5), Ok(1));
    assert_eq!(rt;
        record(&mut short, TableKind::Hourly, 2, 5),
        Err(RecordRefusal::NoSuchCell)
    );
    assert_eq!(rt; short, [u32::MAX, 5]);
    Ok(())
}

// 23: the load is above the limit of its cell; the limit itself is taken.
#[test]
fn no_load_above_the_limit(rt: HostRuntime) {
    let mut cells = [u32::MAX; 2];
    let above = record(&mut cells, TableKind::Hourly, 0, 100_000_001);
    assert_eq!(rt; above, Err(RecordRefusal::LoadAboveLimit));
    assert_eq!(rt; RecordRefusal::LoadAboveLimit.number(), 23);
    let above = record(&mut cells, TableKind::Quarter, 0, 25_000_001);
    assert_eq!(rt; above, Err(RecordRefusal::LoadAboveLimit));
    assert_eq!(rt; cells, [u32::MAX; 2]);
    assert_eq!(rt;
        record(&mut cells, TableKind::Hourly, 0, 100_000_000),
        Ok(0)
    );
    assert_eq!(rt;
        record(&mut cells, TableKind::Quarter, 1, 25_000_000),
        Ok(1)
    );
    assert_eq!(rt; cells, [100_000_000, 25_000_000]);
}

// 24: the cell holds a load, which is a value within the limit; a value above it is no load.
#[test]
fn no_recorded_cell_is_overwritten(rt: HostRuntime) {
    let mut cells = [0, 100_000_000, 100_000_001];
    let taken = record(&mut cells, TableKind::Hourly, 0, 5);
    assert_eq!(rt; taken, Err(RecordRefusal::CellTaken));
    assert_eq!(rt; RecordRefusal::CellTaken.number(), 24);
    let taken = record(&mut cells, TableKind::Hourly, 1, 5);
    assert_eq!(rt; taken, Err(RecordRefusal::CellTaken));
    assert_eq!(rt; cells, [0, 100_000_000, 100_000_001]);
    assert_eq!(rt; record(&mut cells, TableKind::Hourly, 2, 5), Ok(2));
    assert_eq!(rt; cells, [0, 100_000_000, 5]);
}
