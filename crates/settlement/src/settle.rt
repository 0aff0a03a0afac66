// A statement or a compare that a batch asks for, through the meters of a list.
ghost use Rattle.std.specs.Prelude.{◌≡◌, true, ◌&&◌, ◌++◌, IfOk, IfErr, OnOk};
ghost use Rattle.tariff.specs.Statement.{hours_answered, outcome};
ghost use Rattle.season.specs.View.{view};
ghost use Rattle.statement.specs.Compared.{hours_of_both};
ghost use Rattle.settlement.specs.Running.{both_written, compared_on, is_there, StoppedFor, tables_of, written};

use crate::choose::choose;
use crate::fault::RunFault;
use crate::results::{Outcome, ReadMeter};
use season::Season;
use statement::compare::compare;
use statement::request::statement;
use std::alloc::Global;
use tariff::statement::Statement;

// The meters that the tasks of a batch name by their places, and the heap on which they are joined.
// The season and the statements stay parameters, whose types say that a task on meters reads the one and adds to the other.
// The two places of a compare stay two parameters: a task and a pair of meters hold them by name, and each is chosen by itself.
#[derive(Clone, Copy)]
pub(crate) struct Meters<'a> {
    pub(crate) heap: Global,
    pub(crate) list: &'a [ReadMeter],
}

impl Meters<'_> {
    // Settles a site on the meter at a place, and adds its statement to a list where it is answered.
    pub(crate) fn settle(
        &self,
        season: &Season,
        site: u32,
        place: usize,
        statements: &mut Vec<Statement>,
    ) -> Result<Outcome, RunFault>
        ensures there { OnOk result (is_there self.now.list.now place ≡ true) }
        ensures answer { IfOk result (λ o. o ≡ Outcome.Stated (hours_answered (outcome (view season.now) site (tables_of self.now.list.now place)))) }
        ensures written { OnOk result (statements.new.items ≡ statements.old.items ++ written (outcome (view season.now) site (tables_of self.now.list.now place))) }
        ensures stopped { IfErr result (StoppedFor (is_there self.now.list.now place)) }
    {
        let mut meter = choose(self.heap, self.list, place)?;
        let mut filled = Statement::default();
        let answer = statement(season, site, &mut meter, &mut filled);
        if answer.is_ok() {
            statements.push(filled)?;
        }
        Ok(Outcome::Stated(answer))
    }

    // Settles a site on the meters at two places, and adds both statements to a list where they are answered.
    pub(crate) fn compare(
        &self,
        season: &Season,
        site: u32,
        first: usize,
        second: usize,
        statements: &mut Vec<Statement>,
    ) -> Result<Outcome, RunFault>
        ensures there { OnOk result ((is_there self.now.list.now first && is_there self.now.list.now second) ≡ true) }
        ensures answer { IfOk result (λ o. o ≡ Outcome.Compared (hours_of_both (compared_on (view season.now) site (tables_of self.now.list.now first) (tables_of self.now.list.now second)))) }
        ensures written { OnOk result (statements.new.items ≡ statements.old.items ++ both_written (compared_on (view season.now) site (tables_of self.now.list.now first) (tables_of self.now.list.now second))) }
        ensures stopped { IfErr result (StoppedFor (is_there self.now.list.now first && is_there self.now.list.now second)) }
    {
        let mut meter = choose(self.heap, self.list, first)?;
        let mut other = choose(self.heap, self.list, second)?;
        let mut one = Statement::default();
        let mut two = Statement::default();
        let answer = compare(season, site, &mut meter, &mut other, &mut one, &mut two);
        if answer.is_ok() {
            statements.extend_from_slice(&[one, two])?;
        }
        Ok(Outcome::Compared(answer))
    }
}
