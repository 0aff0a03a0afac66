ghost use Rattle.std.specs.Prelude.{◌≡◌};
ghost use Rattle.std.specs.List.Sorted.{IsPermutation};
ghost use Rattle.tariff.specs.Highest.{«three_highest», Highest};
ghost use Rattle.baseline.specs.Ranked.{firsts, Placed, Ranked};

use std::array;
use std::cmp::Reverse;

// Each of ten totals with its place.
fn placed(totals: &[u64; 10]) -> [(u64, usize); 10]
    ensures { Placed totals.now result }
{
    array::from_fn(|place| (totals[place], place))
}

// What the days are ordered by: the highest total first, and the later day first among equals.
fn rank(day: &(u64, usize)) -> (Reverse<u64>, usize)
    ensures total { result.0.0 ≡ day.now.0 }
    ensures place { result.1 ≡ day.now.1 }
{
    (Reverse(day.0), day.1)
}

// Puts days into that order.
fn order(days: &mut [(u64, usize)])
    ensures same { IsPermutation days.old days.new }
    ensures sorted { Ranked days.new }
{
    days.sort_unstable_by_key(rank);
}

// Ten days in that order.
fn ranked(mut days: [(u64, usize); 10]) -> [(u64, usize); 10]
    ensures same { IsPermutation days result }
    ensures sorted { Ranked result }
{
    order(&mut days);
    days
}

// The ten totals with their places in that order: the first three are the highest.
fn ranked_totals(totals: &[u64; 10]) -> [(u64, usize); 10]
    ensures value { firsts result ≡ three_highest totals.now }
    ensures highest { Highest totals.now (firsts result) }
{
    ranked(placed(totals))
}

// The places of the three highest of ten totals, the latest day's first: the highest first, and the later day first among equals.
pub fn three_highest(totals: &[u64; 10]) -> [usize; 3]
    ensures value { result ≡ three_highest totals.now }
    ensures highest { Highest totals.now result }
{
    let [(_, first), (_, second), (_, third), ..] = ranked_totals(totals);
    [first, second, third]
}
