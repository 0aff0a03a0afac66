// The steps of a settled batch, each with what came of it.
use crate::settled::{HandedIn, Settled};
use batch::plan::Task;
use calendar::last_week;
use settlement::results::Outcome;
use std::iter::{Take, Zip};
use std::ops::RangeInclusive;
use std::slice;
use tariff::call::{Answer, Call, SeasonRefusal};
use tariff::statement::{HourLine, Statement, StatementRefusal, WeekLine};

// The name of what a statement pays out.
pub(crate) const PAID: &str = "paid, in whole cents";

// A statement that was written, with the year of its season and the number of its event hours.
#[derive(Clone, Copy)]
pub(crate) struct Written<'a> {
    pub year: u32,
    pub hours: u32,
    pub statement: &'a Statement,
}

impl<'a> Written<'a> {
    // The lines of its event hours.
    pub(crate) fn hour_lines(self) -> Take<slice::Iter<'a, HourLine>> {
        self.statement.hours.iter().take(self.hours as usize)
    }

    // Its totals in millicents, each with its name.
    pub(crate) fn totals(self) -> [(&'static str, u64); 4] {
        [
            ("all capacity and energy pay", self.statement.incentive),
            ("all adjustments", self.statement.charged),
            (
                "adjustments taken off, at most all the pay",
                self.statement.taken,
            ),
            ("net", self.statement.net),
        ]
    }

    // The weeks of its season by their numbers, each with its line.
    pub(crate) fn week_lines(self) -> Zip<RangeInclusive<u32>, slice::Iter<'a, WeekLine>> {
        (1..=last_week(self.year)).zip(self.statement.weeks.iter())
    }
}

// A statement that was asked for, on the meter of a place, and the statement or why it was refused. The year is that of the season in
// force, if one was opened.
#[derive(Clone, Copy)]
pub(crate) struct Stated<'a> {
    pub year: Option<u32>,
    pub site: u32,
    pub meter: usize,
    pub answer: Result<Written<'a>, StatementRefusal>,
}

// Two statements that were asked for, on the meters of two places, and the statements or why they were refused.
#[derive(Clone, Copy)]
pub(crate) struct Compared<'a> {
    pub year: Option<u32>,
    pub site: u32,
    pub first: usize,
    pub second: usize,
    pub answer: Result<(Written<'a>, Written<'a>), StatementRefusal>,
}

// What a step asks for, and what came of it.
#[derive(Clone, Copy)]
pub(crate) enum Told<'a> {
    Opened {
        year: u32,
        answer: Result<u32, SeasonRefusal>,
    },
    Called {
        year: Option<u32>,
        call: Call,
        answer: Result<Answer, SeasonRefusal>,
    },
    Metered(&'a HandedIn<'a>),
    Stated(Stated<'a>),
    Compared(Compared<'a>),
}

// Tells the steps of a batch in their order. It keeps the year of the season in force, if one was opened, and the statements that
// are still to be told.
#[derive(Drop)]
pub(crate) struct Teller<'a> {
    meters: &'a [HandedIn<'a>],
    year: Option<u32>,
    statements: slice::Iter<'a, Statement>,
}

impl<'a> Teller<'a> {
    pub(crate) fn new(settled: &'a Settled<'a>) -> Teller<'a> {
        Teller {
            meters: settled.meters.as_slice(),
            year: None,
            statements: settled.done.statements.iter(),
        }
    }

    // The statement that is to be told next, if there is one and its season was opened.
    fn next_written(&mut self, hours: u32) -> Option<Written<'a>> {
        let statement = self.statements.next()?;
        Some(Written {
            year: self.year?,
            hours,
            statement,
        })
    }

    // The two statements of a compare, which are to be told next.
    fn next_two(&mut self, hours: u32) -> Option<(Written<'a>, Written<'a>)> {
        self.next_written(hours).zip(self.next_written(hours))
    }

    // What is told of a step's task and its outcome; nothing where this is no outcome of such a task.
    pub(crate) fn tell(&mut self, task: Task, outcome: Outcome) -> Option<Told<'a>> {
        match (task, outcome) {
            (Task::Open { year }, Outcome::Opened(answer)) => {
                self.year = answer.map_or(self.year, |_| Some(year));
                Some(Told::Opened { year, answer })
            }
            (Task::Call { call }, Outcome::Called(answer)) => Some(Told::Called {
                year: self.year,
                call,
                answer,
            }),
            (Task::Meter { meter }, Outcome::Metered) => self.meters.get(meter).map(Told::Metered),
            (Task::Statement { site, meter }, Outcome::Stated(answer)) => Some(Told::Stated(
                Stated {
                    year: self.year,
                    site,
                    meter,
                    answer: answer.map(|hours| self.next_written(hours)).transpose()?,
                },
            )),
            (
                Task::Compare {
                    site,
                    first,
                    second,
                },
                Outcome::Compared(answer),
            ) => Some(Told::Compared(Compared {
                year: self.year,
                site,
                first,
                second,
                answer: answer.map(|hours| self.next_two(hours)).transpose()?,
            })),
            _ => None,
        }
    }
}
