// Reading a line of a batch as an entry.
//
// Its words are looked at from left to right, and the first fault decides: a word that is there and bad comes before one that is missing.
ghost use Rattle.std.specs.Prelude.{◌≡◌};
ghost use Rattle.entries.specs.Asked.{asked};
ghost use Rattle.entries.specs.Reading.{label_after, open_after, enrol_after, nominate_after, announce_after, revoke_after, close_after};
ghost use Rattle.entries.specs.Reading.{table_after, pair_after, meter_after, statement_after, compare_after, entry_after, entry_of_line};
ghost use Rattle.entries.specs.Taking.{read_as};
ghost use Rattle.entries.specs.Written.{WrittenEntriesReadBack};
ghost use Rattle.std.specs.Option.{option_map};

use crate::entry::{Entry, EntryFault};
use crate::laws::written_entries_read_back;
use crate::take::{end_line, last_figure, last_word, take_figure, take_word};
use crate::word::{Figure, Keyword, MeterForm};
use meter::kind::TableKind;
use tariff::call::Call;
use text::cut::cut;
use text::parts::Mark;
use text::word::{next_word, trim};

// `label TEXT`
#[tactic(auto, unfolding(crate::specs::Reading::label_after))]
fn read_label(line: &str) -> Result<Entry<'_>, EntryFault>
    ensures { read_as asked result ≡ label_after line.now }
{
    let text = trim(line);
    if text.is_empty() {
        return Err(EntryFault::TooFewWords);
    }
    Ok(Entry::Label { text })
}

// `open YEAR`
#[tactic(auto, unfolding(crate::specs::Reading::open_after))]
fn read_open(line: &str) -> Result<Entry<'_>, EntryFault>
    ensures { read_as asked result ≡ open_after line.now }
{
    let year = last_figure(Figure::Number, line)?;
    Ok(Entry::Open { year })
}

// `enrol MOMENT KIND KW`
#[tactic(auto, unfolding(crate::specs::Reading::enrol_after))]
fn read_enrol(line: &str) -> Result<Entry<'_>, EntryFault>
    ensures { read_as asked result ≡ enrol_after line.now }
{
    let (moment, rest) = take_figure(Figure::Moment, line)?;
    let (kind, rest) = take_figure(Figure::Kind, rest)?;
    let kw = last_figure(Figure::Number, rest)?;
    Ok(Entry::Call {
        call: Call::Enrol { moment, kind, kw },
    })
}

// `nominate MOMENT SITE WEEK KW`
#[tactic(auto, unfolding(crate::specs::Reading::nominate_after))]
fn read_nominate(line: &str) -> Result<Entry<'_>, EntryFault>
    ensures { read_as asked result ≡ nominate_after line.now }
{
    let (moment, rest) = take_figure(Figure::Moment, line)?;
    let (site, rest) = take_figure(Figure::Number, rest)?;
    let (week, rest) = take_figure(Figure::Number, rest)?;
    let kw = last_figure(Figure::Number, rest)?;
    Ok(Entry::Call {
        call: Call::Nominate {
            moment,
            site,
            week,
            kw,
        },
    })
}

// `announce MOMENT START LENGTH`
#[tactic(auto, unfolding(crate::specs::Reading::announce_after))]
fn read_announce(line: &str) -> Result<Entry<'_>, EntryFault>
    ensures { read_as asked result ≡ announce_after line.now }
{
    let (moment, rest) = take_figure(Figure::Moment, line)?;
    let (start, rest) = take_figure(Figure::Number, rest)?;
    let length = last_figure(Figure::Number, rest)?;
    Ok(Entry::Call {
        call: Call::Announce {
            moment,
            start,
            length,
        },
    })
}

// `revoke MOMENT`
#[tactic(auto, unfolding(crate::specs::Reading::revoke_after))]
fn read_revoke(line: &str) -> Result<Entry<'_>, EntryFault>
    ensures { read_as asked result ≡ revoke_after line.now }
{
    let moment = last_figure(Figure::Moment, line)?;
    Ok(Entry::Call {
        call: Call::Revoke { moment },
    })
}

// `close`
#[tactic(auto, unfolding(crate::specs::Reading::close_after))]
fn read_close(line: &str) -> Result<Entry<'_>, EntryFault>
    ensures { read_as asked result ≡ close_after line.now }
{
    end_line(line)?;
    Ok(Entry::Call { call: Call::Close })
}

// `hourly NUMBER FILE` or `quarter NUMBER FILE`, after a meter's name
#[tactic(auto, unfolding(crate::specs::Reading::table_after))]
fn read_table<'a>(name: &'a str, kind: TableKind, line: &'a str) -> Result<Entry<'a>, EntryFault>
    ensures { read_as asked result ≡ table_after name.now kind line.now }
{
    let (number, rest) = take_figure(Figure::Number, line)?;
    let file = last_word(rest)?;
    Ok(Entry::TableMeter {
        name,
        kind,
        number,
        file,
    })
}

// `pair NAME NAME`, after a meter's name
#[tactic(auto, unfolding(crate::specs::Reading::pair_after))]
fn read_pair<'a>(name: &'a str, line: &'a str) -> Result<Entry<'a>, EntryFault>
    ensures { read_as asked result ≡ pair_after name.now line.now }
{
    let (first, rest) = take_word(line)?;
    let second = last_word(rest)?;
    Ok(Entry::PairMeter {
        name,
        first,
        second,
    })
}

// `meter NAME hourly NUMBER FILE`, `meter NAME quarter NUMBER FILE` or `meter NAME pair NAME NAME`
#[tactic(auto, unfolding(crate::specs::Reading::meter_after))]
fn read_meter(line: &str) -> Result<Entry<'_>, EntryFault>
    ensures { read_as asked result ≡ meter_after line.now }
{
    let (name, rest) = take_word(line)?;
    let (word, rest) = take_word(rest)?;
    match MeterForm::try_from(word)? {
        MeterForm::Table { kind } => read_table(name, kind, rest),
        MeterForm::Pair => read_pair(name, rest),
    }
}

// `statement SITE NAME`
#[tactic(auto, unfolding(crate::specs::Reading::statement_after))]
fn read_statement(line: &str) -> Result<Entry<'_>, EntryFault>
    ensures { read_as asked result ≡ statement_after line.now }
{
    let (site, rest) = take_figure(Figure::Number, line)?;
    let meter = last_word(rest)?;
    Ok(Entry::Statement { site, meter })
}

// `compare SITE NAME NAME`
#[tactic(auto, unfolding(crate::specs::Reading::compare_after))]
fn read_compare(line: &str) -> Result<Entry<'_>, EntryFault>
    ensures { read_as asked result ≡ compare_after line.now }
{
    let (site, rest) = take_figure(Figure::Number, line)?;
    let (first, rest) = take_word(rest)?;
    let second = last_word(rest)?;
    Ok(Entry::Compare {
        site,
        first,
        second,
    })
}

// Reads what follows an entry's first word.
fn read_after(keyword: Keyword, line: &str) -> Result<Entry<'_>, EntryFault>
    ensures { read_as asked result ≡ entry_after keyword line.now }
{
    match keyword {
        Keyword::Label => read_label(line),
        Keyword::Open => read_open(line),
        Keyword::Enrol => read_enrol(line),
        Keyword::Nominate => read_nominate(line),
        Keyword::Announce => read_announce(line),
        Keyword::Revoke => read_revoke(line),
        Keyword::Close => read_close(line),
        Keyword::Meter => read_meter(line),
        Keyword::Statement => read_statement(line),
        Keyword::Compare => read_compare(line),
    }
}

// Reads a line as an entry: `None` where it has no word before its comment.
#[tactic(auto, unfolding(crate::specs::Reading::entry_of_line))]
pub fn read_entry(line: &str) -> Result<Option<Entry<'_>>, EntryFault>
    ensures value { read_as (option_map asked) result ≡ entry_of_line line.now }
    ensures back { WrittenEntriesReadBack }
{
    written_entries_read_back();
    let Some(first) = next_word(cut(line, Mark::Comment).piece) else {
        return Ok(None);
    };
    let keyword = Keyword::try_from(first.piece)?;
    let entry = read_after(keyword, first.rest)?;
    Ok(Some(entry))
}
