ghost use Rattle.std.specs.Prelude.{◌≡◌, ℕ, true, OnOk};
ghost use Rattle.tariff.specs.Laws.{DeeperCutNeverCosts, EventsStandApart};
ghost use Rattle.tariff.specs.Lines.{NoWorse, OthersKept};
ghost use Rattle.tariff.specs.Readings.{Deeper, OnlyDay};
ghost use Rattle.tariff.specs.Season.{standing};
ghost use Rattle.season.specs.View.{view};
ghost use Rattle.statement.specs.Compared.{first_after, hours_of_both, outcome_of_both, second_after, WrittenSo};

use crate::both::TwoStatements;
use crate::settle::Request;
use meter::meter::Meter;
use season::Season;
use tariff::laws::{deeper_cut_never_costs, events_stand_apart};
use tariff::statement::{Statement, StatementRefusal};

impl Request<'_> {
    // Settles it on a first meter and then on a second: the first refusal stops it.
    // The two meters stay two parameters: a pair of lent meters would be made and taken apart at each call.
    fn both<M: Meter, N: Meter>(
        &self,
        first: &mut M,
        second: &mut N,
    ) -> Result<TwoStatements, StatementRefusal>
        ensures answer { result ≡ outcome_of_both (view self.now.season.now) self.now.site (M.table first.old) (N.table second.old) }
        ensures keeps_first { M.table first.new ≡ M.table first.old }
        ensures keeps_second { N.table second.new ≡ N.table second.old }
    {
        let (first, hours) = self.settle(first)?;
        let (second, _) = self.settle(second)?;
        Ok(TwoStatements {
            first,
            second,
            hours,
        })
    }

    // The same, and what may be relied on of the two statements: where the second meter is the first with deeper cuts, its statement
    // is no worse, and where they differ on one standing event's day alone, the lines of every other event are equal.
    fn compared<M: Meter, N: Meter>(
        &self,
        first: &mut M,
        second: &mut N,
    ) -> Result<TwoStatements, StatementRefusal>
        ensures answer { result ≡ outcome_of_both (view self.now.season.now) self.now.site (M.table first.old) (N.table second.old) }
        ensures keeps_first { M.table first.new ≡ M.table first.old }
        ensures keeps_second { N.table second.new ≡ N.table second.old }
        ensures deeper_cut_never_costs { DeeperCutNeverCosts (view self.now.season.now) }
        ensures events_stand_apart { EventsStandApart (view self.now.season.now) }
        ensures no_worse { Deeper (view self.now.season.now) (M.table first.old) (N.table second.old) → WrittenSo NoWorse result }
        ensures others_kept { (day : ℕ) → standing (view self.now.season.now) day ≡ true → OnlyDay day (M.table first.old) (N.table second.old) → WrittenSo (OthersKept day) result }
    {
        deeper_cut_never_costs();
        events_stand_apart();
        self.season.stays_sound();
        self.both(first, second)
    }
}

// Settles a site on two meters and fills two records, or neither, and answers the number of event hours. The first meter is settled
// first, and its refusal comes first; the second is asked only after. Where the second meter is the first with deeper cuts, its
// statement is no worse, line by line and in the totals; where they differ on one standing event's day alone, the lines of every
// other event are equal; and in both cases both are answered, or the refusal is the same.
pub fn compare<M: Meter, N: Meter>(
    season: &Season,
    site: u32,
    first: &mut M,
    second: &mut N,
    one: &mut Statement,
    two: &mut Statement,
) -> Result<u32, StatementRefusal>
    ensures answer { result ≡ hours_of_both (outcome_of_both (view season.now) site (M.table first.old) (N.table second.old)) }
    ensures one { one.new ≡ first_after one.old (outcome_of_both (view season.now) site (M.table first.old) (N.table second.old)) }
    ensures two { two.new ≡ second_after two.old (outcome_of_both (view season.now) site (M.table first.old) (N.table second.old)) }
    ensures keeps_first { M.table first.new ≡ M.table first.old }
    ensures keeps_second { N.table second.new ≡ N.table second.old }
    ensures deeper_cut_never_costs { DeeperCutNeverCosts (view season.now) }
    ensures events_stand_apart { EventsStandApart (view season.now) }
    ensures no_worse { Deeper (view season.now) (M.table first.old) (N.table second.old) → OnOk result (NoWorse one.new two.new) }
    ensures others_kept { (day : ℕ) → standing (view season.now) day ≡ true → OnlyDay day (M.table first.old) (N.table second.old) → OnOk result (OthersKept day one.new two.new) }
{
    let both = Request { season, site }.compared(first, second)?;
    *one = both.first;
    *two = both.second;
    Ok(both.hours)
}
