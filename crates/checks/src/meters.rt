// The three meters: loads, gaps and the edges of the summer.
use crate::summers::hourly;
use meter::meter::Meter;
use meter::pair::PairMeter;
use meter::refusal::MeterFault;
use meter::table::QuarterMeter;
use tariff::reading::Gap;

fn missing(number: u32) -> Result<u32, MeterFault> {
    Err(MeterFault::NoLoad(Gap::Missing(number)))
}

#[test]
fn an_hourly_meter_reads_a_cell_to_the_hour(rt: HostRuntime) {
    let mut cells = [u32::MAX; 27];
    cells[1] = 100_000_000;
    cells[2] = 100_000_001;
    cells[26] = 7;
    let mut meter = hourly(&cells, 11);
    assert_eq!(rt; meter.ask(0, 1), Ok(100_000_000));
    assert_eq!(rt; meter.ask(0, 2), missing(11));
    assert_eq!(rt; meter.ask(1, 2), Ok(7));
    assert_eq!(rt; meter.ask(1, 3), missing(11));
    assert_eq!(rt; MeterFault::NoLoad(Gap::Missing(11)).number(), 25);
}

// 22: the summer has 76 days of 24 hours.
#[test]
fn no_question_beyond_the_summer(rt: HostRuntime) {
    let cells = [5];
    let mut meter = hourly(&cells, 11);
    assert_eq!(rt; meter.ask(75, 23), missing(11));
    assert_eq!(rt; meter.ask(76, 0), Err(MeterFault::NoSuchHour));
    assert_eq!(rt; meter.ask(0, 24), Err(MeterFault::NoSuchHour));
    assert_eq!(rt; meter.ask(0, 0), Ok(5));
    assert_eq!(rt; MeterFault::NoSuchHour.number(), 22);
}

#[test]
fn a_quarter_meter_adds_four_cells(rt: HostRuntime) {
    let mut cells = [
        1, 2, 3, 4, 25_000_000, 25_000_000, 25_000_000, 25_000_000, 0, 0, 25_000_001, 0, 9, 9,
    ];
    let mut meter = QuarterMeter {
        cells: &cells,
        number: 12,
    };
    assert_eq!(rt; meter.ask(0, 0), Ok(10));
    assert_eq!(rt; meter.ask(0, 1), Ok(100_000_000));
    assert_eq!(rt; meter.ask(0, 2), missing(12));
    assert_eq!(rt; meter.ask(0, 3), missing(12));
    cells[10] = 1;
    let mut meter = QuarterMeter {
        cells: &cells,
        number: 12,
    };
    assert_eq!(rt; meter.ask(0, 2), Ok(1));
}

// A pair in a pair in a pair: the first gap in the order of the meters, and a sum above the limit is over.
#[test]
fn pairs_stand_in_pairs_three_deep(rt: HostRuntime) {
    let a = [10, u32::MAX, 60_000_000, 1];
    let b = [20, u32::MAX, 40_000_000, 2];
    let c = [30, 3, 0, u32::MAX];
    let quarters = [10, 10, 10, 10, 1, 1, 1, 1, 1, 0, 0, 0, 1, 1, 1, u32::MAX];
    let first = hourly(&a, 1);
    let second = hourly(&b, 2);
    let third = hourly(&c, 3);
    let fourth = QuarterMeter {
        cells: &quarters,
        number: 4,
    };
    let inner = PairMeter { first, second };
    let middle = PairMeter {
        first: inner,
        second: third,
    };
    let mut whole = PairMeter {
        first: fourth,
        second: middle,
    };
    assert_eq!(rt; whole.ask(0, 0), Ok(100));
    assert_eq!(rt; whole.ask(0, 1), missing(1));
    assert_eq!(rt; whole.ask(0, 2), Err(MeterFault::NoLoad(Gap::Over)));
    assert_eq!(rt; whole.ask(0, 3), missing(4));
    assert_eq!(rt; whole.ask(76, 3), Err(MeterFault::NoSuchHour));
    assert_eq!(rt; MeterFault::NoLoad(Gap::Over).number(), 26);
}
