// What may be relied on: each of these functions stands for a law, which its contract states.
ghost use Rattle.tariff.specs.AddsUp.{TheStatementAddsUp};
ghost use Rattle.tariff.specs.Adjustment.{TheAdjustmentIsHeld};
ghost use Rattle.tariff.specs.EveryHour.{EveryEventHourOnce};
ghost use Rattle.tariff.specs.Examples.{WorkedExamples};
ghost use Rattle.tariff.specs.Highest.{TheThreeHighestAreHighest};
ghost use Rattle.tariff.specs.Laws.{DeeperCutNeverCosts, DeeperCutsReduceNoLess, EventsStandApart, OnlyTheSummerCounts, ReducingNoLessNeverCosts, SitesStandApart};
ghost use Rattle.tariff.specs.Remembers.{TheSeasonRemembers};
ghost use Rattle.tariff.specs.Sound.{AfterAnyCalls, OfSoundSeasons, SeasonsAreSound};
ghost use Rattle.tariff.specs.TenDays.{ComparisonDaysAreLatest, TenComparisonDays};

// A deeper cut moves no baseline, is charged no more and earns no less: of every sound season, and whatever calls it has received.
pub fn deeper_cut_never_costs()
    ensures sound { OfSoundSeasons DeeperCutNeverCosts }
    ensures called { AfterAnyCalls DeeperCutNeverCosts }
{}

// It reduces no less, at the same baselines, whatever is paid for reductions.
pub fn deeper_cuts_reduce_no_less()
    ensures { DeeperCutsReduceNoLess }
{}

// Reductions no lower are charged no more and earn no less, however they were measured.
pub fn reducing_no_less_never_costs()
    ensures { ReducingNoLessNeverCosts }
{}

// The loads of one event's day show in no line of another event: of every sound season, and whatever calls it has received.
pub fn events_stand_apart()
    ensures sound { OfSoundSeasons EventsStandApart }
    ensures called { AfterAnyCalls EventsStandApart }
{}

// Tables that agree on the hours of the summer settle alike: of every sound season, and whatever calls it has received.
pub fn only_the_summer_counts()
    ensures sound { OfSoundSeasons OnlyTheSummerCounts }
    ensures called { AfterAnyCalls OnlyTheSummerCounts }
{}

// Nominations for other sites show in no answer to another call and on no statement of a site.
pub fn sites_stand_apart()
    ensures { SitesStandApart }
{}

// Every season that calls have made is sound.
pub fn seasons_are_sound()
    ensures { SeasonsAreSound }
{}

// Every standing event is compared with ten days, the latest ten comparable days before it, those and no others.
pub fn ten_latest_comparison_days()
    ensures ten { TenComparisonDays }
    ensures latest { ComparisonDaysAreLatest }
{}

// The three places chosen of some totals are the highest, the later day first among equals.
pub fn three_highest_are_highest()
    ensures { TheThreeHighestAreHighest }
{}

// The adjusted baseline is ten times B plus the day-of adjustment, held between −2B and 2B, and exact at both ends and at B = 0.
pub fn adjustment_is_held()
    ensures { TheAdjustmentIsHeld }
{}

// A statement has a line for each hour of the standing events, none left out and none twice: of every sound season, and whatever
// calls it has received.
pub fn every_event_hour_has_one_line()
    ensures sound { OfSoundSeasons EveryEventHourOnce }
    ensures called { AfterAnyCalls EveryEventHourOnce }
{}

// The figures of a statement add up: of every sound season, and whatever calls it has received.
pub fn the_statement_adds_up()
    ensures sound { OfSoundSeasons TheStatementAddsUp }
    ensures called { AfterAnyCalls TheStatementAddsUp }
{}

// The season remembers what was taken, as its calls and their answers tell it.
pub fn the_season_remembers_what_was_taken()
    ensures { TheSeasonRemembers }
{}

// The worked examples come out as stated.
pub fn worked_examples()
    ensures { WorkedExamples }
{}
