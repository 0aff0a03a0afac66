// What single words of an entry say.
ghost use Rattle.std.specs.Prelude.{◌≡◌};
ghost use Rattle.tariff.specs.Kinds.{kind_number};
ghost use Rattle.entries.specs.Taking.{read_as};
ghost use Rattle.entries.specs.Words.{keyword_of, meter_form_of, kind_named, other_figure, figure_of};

use crate::entry::EntryFault;
use meter::kind::TableKind;
use tariff::season::Kind;
use text::number::{NumberFault, number};
use text::stamp::stamp;

// What the first word of an entry makes it.
// An enum of what a line asks for, matched once, and no table of functions: what each reads is stated of the value.
#[derive(Clone, Copy)]
pub(crate) enum Keyword {
    Label,
    Open,
    Enrol,
    Nominate,
    Announce,
    Revoke,
    Close,
    Meter,
    Statement,
    Compare,
}

// What a meter is made of: a table of readings, or two meters.
// No `Option` of a table's kind: `None` would not say that a pair is meant.
#[derive(Clone, Copy)]
pub(crate) enum MeterForm {
    Table { kind: TableKind },
    Pair,
}

// What a word with a figure stands for. A closure for each would have to state what it reads at every call; here one `match` says it.
#[derive(Clone, Copy)]
pub(crate) enum Figure {
    Number,
    Moment,
    Kind,
}

impl TryFrom<&str> for Keyword {
    type Error = EntryFault;

    ghost try_from_gives = { λ word r. r ≡ keyword_of word.now };

    #[tactic(auto, unfolding(crate::specs::Words::keyword_of))]
    fn try_from(word: &str) -> Result<Keyword, EntryFault> {
        match word {
            "label" => Ok(Keyword::Label),
            "open" => Ok(Keyword::Open),
            "enrol" => Ok(Keyword::Enrol),
            "nominate" => Ok(Keyword::Nominate),
            "announce" => Ok(Keyword::Announce),
            "revoke" => Ok(Keyword::Revoke),
            "close" => Ok(Keyword::Close),
            "meter" => Ok(Keyword::Meter),
            "statement" => Ok(Keyword::Statement),
            "compare" => Ok(Keyword::Compare),
            _ => Err(EntryFault::UnknownWord),
        }
    }
}

impl TryFrom<&str> for MeterForm {
    type Error = EntryFault;

    ghost try_from_gives = { λ word r. r ≡ meter_form_of word.now };

    #[tactic(auto, unfolding(crate::specs::Words::meter_form_of))]
    fn try_from(word: &str) -> Result<MeterForm, EntryFault> {
        match word {
            "hourly" => Ok(MeterForm::Table {
                kind: TableKind::Hourly,
            }),
            "quarter" => Ok(MeterForm::Table {
                kind: TableKind::Quarter,
            }),
            "pair" => Ok(MeterForm::Pair),
            _ => Err(EntryFault::UnknownWord),
        }
    }
}

// The kind of sites that goes by a name.
#[tactic(auto, unfolding(crate::specs::Words::kind_named))]
fn kind_by_name(word: &str) -> Result<Kind, EntryFault>
    ensures { read_as kind_number result ≡ kind_named word.now }
{
    match word {
        "single" => Ok(Kind::Single),
        "aggregated" => Ok(Kind::Aggregated),
        _ => Err(EntryFault::NoKind),
    }
}

// A word that is no number, as a figure: a stamp is a moment, and a name is a kind.
fn other_figure(figure: Figure, word: &str) -> Result<u32, EntryFault>
    ensures { result ≡ other_figure figure word.now }
{
    match figure {
        Figure::Number => Err(EntryFault::NoNumber),
        Figure::Moment => stamp(word).ok_or(EntryFault::NoMoment),
        Figure::Kind => kind_by_name(word).map(Kind::number),
    }
}

// Reads a word as a figure: a number as it stands, or else what the word says for such a figure.
#[tactic(auto, unfolding(crate::specs::Words::figure_of))]
pub(crate) fn read_figure(figure: Figure, word: &str) -> Result<u32, EntryFault>
    ensures { result ≡ figure_of figure word.now }
{
    number(word).or_else(|fault| match fault {
        NumberFault::TooLarge => Err(EntryFault::NumberTooLarge),
        NumberFault::NoNumber => other_figure(figure, word),
    })
}
