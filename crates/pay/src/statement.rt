ghost use Rattle.std.specs.Prelude.{◌≡◌};
ghost use Rattle.pay.specs.Listed.{listed};
ghost use Rattle.pay.specs.Paying.{totalled, «statement_from», PaidAsTheTariffSays};

use crate::list::HourList;
use crate::summer::Summer;
use crate::totals::total_capacity;
use crate::weeks::Weeks;
use tariff::statement::{HourLine, Statement, WeekLine};

// The statement of some lines, an incentive and the adjustments charged.
fn written(hours: [HourLine; 60], weeks: [WeekLine; 10], incentive: u64, charged: u64) -> Statement
    ensures { result ≡ totalled hours weeks incentive charged }
{
    let taken = charged.min(incentive);
    let net = incentive - taken;
    Statement {
        hours,
        weeks,
        incentive,
        charged,
        taken,
        net,
        paid: net / 1000,
    }
}

impl Summer<'_> {
    // The statement of the site.
    #[tactic(auto, using(crate::proofs::Sums::energy_few))]
    fn statement(&self) -> Statement
        ensures value { result ≡ statement_from self.now.hours.now self.now.nominations.now self.now.weeks.now.days self.now.weeks.now.last }
        ensures tariff { PaidAsTheTariffSays self.now.hours.now self.now.nominations.now self.now.weeks.now.days self.now.weeks.now.last result }
    {
        let weeks = self.week_lines();
        let incentive = total_capacity(&weeks) + self.energy();
        written(self.hour_lines(), weeks, incentive, self.adjustment())
    }
}

// The statement of a site with these measured hours, its nominations, week 1 first, and the weeks of the season.
pub fn statement_from(hours: &HourList, nominations: &[u32; 10], weeks: &Weeks) -> Statement
    ensures value { result ≡ statement_from (listed hours.now) nominations.now weeks.now.days weeks.now.last }
    ensures tariff { PaidAsTheTariffSays (listed hours.now) nominations.now weeks.now.days weeks.now.last result }
{
    let hours = hours.as_slice();
    let summer = Summer {
        hours,
        nominations,
        weeks,
    };
    summer.statement()
}
