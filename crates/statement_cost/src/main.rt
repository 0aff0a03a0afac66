// Settles one site of a season with as many events of four hours as asked for, up to fifteen, and prints what it is paid: run under
// an instruction counter, it tells what a statement costs and how that grows.
#![tactic(auto)]

use anyhow::anyhow;
use meter::table::HourlyMeter;
use season::Season;
use statement::request::statement;
use std::env;
use tariff::call::SeasonRefusal;
use tariff::statement::Statement;

// Three days in each of five weeks of 2015.
const DAYS: [u32; 15] = [14, 15, 16, 21, 22, 23, 28, 29, 30, 35, 36, 37, 42, 43, 44];

// A closed season of 2015 with one site at 60 kW and some events from 14:00 to 18:00, announced at noon.
fn closed_season(events: usize) -> Result<Season, SeasonRefusal> {
    let mut season = Season::new();
    season.open(2015)?;
    season.enrol(0, 0, 60)?;
    for day in DAYS.iter().take(events) {
        season.announce(day.saturating_mul(1440).saturating_add(720), 14, 4)?;
    }
    season.close()?;
    Ok(season)
}

fn run(rt: &HostRuntime) -> anyhow::Result<()> {
    let events = match env::args(rt)?.nth(1) {
        Some(word) => word.as_str().parse::<usize>()?,
        None => 15,
    };
    let season = closed_season(events).map_err(|_| anyhow!("a call of the season was refused"))?;
    let cells = vec![in rt.alloc(); 305_000; 1824]?;
    let mut meter = HourlyMeter {
        cells: cells.as_slice(),
        number: 1,
    };
    let mut record = Statement::default();
    match statement(&season, 1, &mut meter, &mut record) {
        Ok(hours) => {
            let paid = record.paid;
            println!(rt; "{hours} event hours, paid {paid} cents")?;
        }
        Err(refusal) => println!(rt; "refused with number {}", refusal.number())?,
    }
    Ok(())
}

fn main(rt: HostRuntime) -> anyhow::Result<()> {
    run(&rt)
}
