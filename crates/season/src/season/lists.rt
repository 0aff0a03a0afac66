// One call of any kind, and a list of calls.
ghost use Rattle.std.specs.Prelude.{◌≡◌, ◌+◌, ◌≤◌, [], ◌++◌, length, IfOk, IfErr, Ok, Err, vec_len, vec_capacity, OnErr, OnOk};
ghost use Rattle.tariff.specs.Calendar.{last_week};
ghost use Rattle.tariff.specs.Calls as spec;
ghost use Rattle.tariff.specs.Laws.{SitesStandApart};
ghost use Rattle.tariff.specs.Season.{opened};
ghost use Rattle.season.specs.View.{view};
ghost use Rattle.season.specs.declared.season.lists.ListRefusal.TheVariants.{NoMemory, NotOpened};

use super::Season;
use std::alloc::Global;
use tariff::call::{Answer, Call, SeasonRefusal};
use tariff::laws::sites_stand_apart;

// Why a list of calls is not run: its season cannot be opened, or there is no memory for the answers.
#[derive(Clone, Copy, PartialEq, Eq, Debug)]
pub enum ListRefusal {
    NotOpened(SeasonRefusal),
    NoMemory,
}

impl From<SeasonRefusal> for ListRefusal {
    ghost from_gives = { λ x r. r ≡ NotOpened x };

    fn from(x: SeasonRefusal) -> ListRefusal {
        ListRefusal::NotOpened(x)
    }
}

impl Season {
    // Makes one call, and gives its answer or its refusal.
    pub fn call(&mut self, call: Call) -> Result<Answer, SeasonRefusal>
        ensures answer { result ≡ spec.answer (view self.old) call }
        ensures after { view self.new ≡ spec.after (view self.old) call result }
        ensures kept { OnErr result (self.new ≡ self.old) }
    {
        match call {
            Call::Enrol { moment, kind, kw } => self.enrol(moment, kind, kw).map(Answer::Site),
            Call::Nominate {
                moment,
                site,
                week,
                kw,
            } => self.nominate(moment, site, week, kw).map(Answer::Week),
            Call::Announce {
                moment,
                start,
                length,
            } => self.announce(moment, start, length).map(Answer::Announced),
            Call::Revoke { moment } => self.revoke(moment).map(Answer::Revoked),
            Call::Close => self
                .close()
                .map(|(events, hours)| Answer::Closed(events, hours)),
        }
    }

    // Makes calls in their order, refused ones included, and adds their answers to a list that has room for them.
    fn make_calls(&mut self, calls: &[Call], answers: &mut Vec<Result<Answer, SeasonRefusal>>)
        requires { vec_len answers.old + length calls.now ≤ vec_capacity answers.old }
        ensures after { view self.new ≡ spec.run (view self.old) calls.now }
        ensures answered { answers.new.items ≡ answers.old.items ++ spec.answers (view self.old) calls.now }
    {
        for call in calls {
            let answer = self.call(*call);
            answers.push_reserved(answer);
        }
    }

    // Opens a season of a year, makes calls in their order, refused ones included, and gives the list of their answers.
    // Room for the answers is got first, so that want of memory changes nothing.
    pub fn run(
        &mut self,
        heap: Global,
        year: u32,
        calls: &[Call],
    ) -> Result<Vec<Result<Answer, SeasonRefusal>>, ListRefusal>
        ensures opened { OnOk result (spec.open_answer (view self.old) year ≡ Ok (last_week year)) }
        ensures answers { IfOk result (λ v. v.items ≡ spec.answers (opened (view self.old) year) calls.now) }
        ensures after { OnOk result (view self.new ≡ spec.run (opened (view self.old) year) calls.now) }
        ensures refused { IfErr result (λ e. elim e [ NotOpened x ↦ spec.open_answer (view self.old) year ≡ Err x | NoMemory ↦ Unit {0} ]) }
        ensures kept { OnErr result (self.new ≡ self.old) }
        ensures apart { SitesStandApart }
    {
        sites_stand_apart();
        let mut answers = Vec::with_capacity(heap, calls.len()).map_err(|_| ListRefusal::NoMemory)?;
        self.open(year)?;
        self.make_calls(calls, &mut answers);
        Ok(answers)
    }
}
