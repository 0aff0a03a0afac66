// The day-of adjustment at its ends, and where B is 0: the event of June 15 from 14:00, announced at noon, so that hours 10 and 11 of
// its day move its baseline.
use crate::seasons::one_event;
use crate::summers::{cut, held, hourly, put, summer};
use statement::request::statement;
use std::alloc::Global;
use std::process::Abort;
use std::test::Fail;
use tariff::statement::HourLine;

// The first line where past days drew `past` in every hour, the two hours before the notice p and q, and the event's hours 250 kWh.
fn first_line(rt: &impl Abort, heap: Global, past: u32, p: u32, q: u32) -> Result<HourLine, Fail> {
    let season = one_event(rt, 0);
    let mut cells = summer(heap, past)?;
    put(&mut cells, 14, 10, p);
    put(&mut cells, 14, 11, q);
    cut(&mut cells, &[14], 250_000);
    let mut meter = hourly(cells.as_slice(), 1);
    let mut record = held();
    assert!(rt; statement(&season, 1, &mut meter, &mut record) == Ok(4));
    Ok(record.hours[0])
}

#[test]
fn the_adjustment_is_held_at_both_ends(rt: HostRuntime) -> Result<(), Fail> {
    let worked = first_line(&rt, rt.alloc(), 305_000, 290_000, 310_000)?;
    assert!(rt; worked.adjusted == 9_000_000 && worked.reduction == 50_000);
    let high = first_line(&rt, rt.alloc(), 305_000, 400_000, 400_000)?;
    assert!(rt; high.adjusted == 10_980_000);
    let low = first_line(&rt, rt.alloc(), 305_000, 0, 0)?;
    assert!(rt; low.adjusted == 7_320_000);
    Ok(())
}

// At 366 kWh the adjustment is exactly 2B, and at 244 exactly −2B.
#[test]
fn the_adjustment_is_exact_at_its_ends(rt: HostRuntime) -> Result<(), Fail> {
    let high = first_line(&rt, rt.alloc(), 305_000, 366_000, 366_000)?;
    assert!(rt; high.adjusted == 10_980_000);
    let below = first_line(&rt, rt.alloc(), 305_000, 366_000, 365_999)?;
    assert!(rt; below.adjusted == 10_979_985);
    let low = first_line(&rt, rt.alloc(), 305_000, 244_000, 244_000)?;
    assert!(rt; low.adjusted == 7_320_000);
    let above = first_line(&rt, rt.alloc(), 305_000, 244_001, 244_000)?;
    assert!(rt; above.adjusted == 7_320_015);
    Ok(())
}

#[test]
fn without_past_loads_nothing_is_reduced(rt: HostRuntime) -> Result<(), Fail> {
    let line = first_line(&rt, rt.alloc(), 0, 400_000, 400_000)?;
    assert!(rt; line.base == 0 && line.adjusted == 0 && line.reduction == 0);
    Ok(())
}
