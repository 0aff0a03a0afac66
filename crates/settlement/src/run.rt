ghost use Rattle.std.specs.Prelude.{◌≡◌, true, ◌++◌, IfOk, IfErr, vec_len, OnErr, OnOk};
ghost use Rattle.season.specs.View.{view};
ghost use Rattle.settlement.specs.Counted.{statements_out};
ghost use Rattle.settlement.specs.Running.{all_have_meters, has_meters, outcome_of, outcomes_of, season_after, season_after_all, statements_of, statements_of_all, StoppedFor, tables_of};
ghost use Rattle.settlement.specs.Seasons.{Called};

use crate::fault::RunFault;
use crate::laws::{statements_out_are_those_written, tasks_leave_called_seasons};
use crate::results::{Done, Outcome, ReadMeter};
use crate::settle::Meters;
use batch::plan::{Step, Task};
use season::Season;
use std::alloc::Global;
use tariff::statement::Statement;

impl Meters<'_> {
    // Does one task, and adds the statements that it writes to a list.
    fn do_task(
        &self,
        season: &mut Season,
        task: Task,
        statements: &mut Vec<Statement>,
    ) -> Result<Outcome, RunFault>
        ensures there { OnOk result (has_meters self.now.list.now task ≡ true) }
        ensures outcome { IfOk result (λ o. o ≡ outcome_of (tables_of self.now.list.now) (view season.old) task) }
        ensures after { OnOk result (view season.new ≡ season_after (view season.old) task) }
        ensures written { OnOk result (statements.new.items ≡ statements.old.items ++ statements_of (tables_of self.now.list.now) (view season.old) task) }
        ensures stopped { IfErr result (StoppedFor (has_meters self.now.list.now task)) }
    {
        match task {
            Task::Open { year } => Ok(Outcome::Opened(season.open(year))),
            Task::Call { call } => Ok(Outcome::Called(season.call(call))),
            Task::Meter { .. } => Ok(Outcome::Metered),
            Task::Statement { site, meter } => self.settle(season, site, meter, statements),
            Task::Compare {
                site,
                first,
                second,
            } => self.compare(season, site, first, second, statements),
        }
    }

    // Does tasks in their order, and adds what comes of them to what is done.
    fn do_steps(&self, season: &mut Season, steps: &[Step], done: &mut Done) -> Result<(), RunFault>
        ensures there { OnOk result (all_have_meters self.now.list.now steps.now ≡ true) }
        ensures outcomes { OnOk result (done.new.outcomes.items ≡ done.old.outcomes.items ++ outcomes_of (tables_of self.now.list.now) (view season.old) steps.now) }
        ensures after { OnOk result (view season.new ≡ season_after_all (view season.old) steps.now) }
        ensures written { OnOk result (done.new.statements.items ≡ done.old.statements.items ++ statements_of_all (tables_of self.now.list.now) (view season.old) steps.now) }
        ensures stopped { IfErr result (StoppedFor (all_have_meters self.now.list.now steps.now)) }
    {
        for step in steps {
            let outcome = self.do_task(season, step.task, &mut done.statements)?;
            done.outcomes.push(outcome)?;
        }
        Ok(())
    }
}

// Does the tasks of a batch in their order over a season, and gives what comes of each and the statements that they write, which are
// as many as the outcomes tell. Where a task reads a meter that is not there, or memory is wanting, the season is as it was before
// the first task.
pub fn run(
    heap: Global,
    season: &mut Season,
    meters: &[ReadMeter],
    steps: &[Step],
) -> Result<Done, RunFault>
    ensures there { OnOk result (all_have_meters meters.now steps.now ≡ true) }
    ensures outcomes { IfOk result (λ d. d.outcomes.items ≡ outcomes_of (tables_of meters.now) (view season.old) steps.now) }
    ensures after { OnOk result (view season.new ≡ season_after_all (view season.old) steps.now) }
    ensures written { IfOk result (λ d. d.statements.items ≡ statements_of_all (tables_of meters.now) (view season.old) steps.now) }
    ensures called { OnOk result ((Called (view season.old) → Called (view season.new))) }
    ensures counted { IfOk result (λ d. statements_out d.outcomes.items ≡ vec_len d.statements) }
    ensures stopped { IfErr result (StoppedFor (all_have_meters meters.now steps.now)) }
    ensures kept { OnErr result (season.new ≡ season.old) }
{
    statements_out_are_those_written();
    tasks_leave_called_seasons();
    let mut current = *season;
    let mut done = Done {
        outcomes: Vec::new(heap),
        statements: Vec::new(heap),
    };
    Meters { heap, list: meters }.do_steps(&mut current, steps, &mut done)?;
    *season = current;
    Ok(done)
}
