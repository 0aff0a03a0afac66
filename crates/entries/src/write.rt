// Writing an entry as a line: one space between words, numbers in decimal, moments in minutes.
ghost use Rattle.std.specs.Prelude.{◌≡◌, IfOk, Some, string_bytes};
ghost use Rattle.entries.specs.Asked.{asked};
ghost use Rattle.entries.specs.Written.{spaced, call_words, kind_word, entry_text};

use crate::entry::Entry;
use meter::kind::TableKind;
use std::alloc::{AllocError, Global};
use std::fmt;
use tariff::call::Call;

// The word for a kind of tables. `TableKind` belongs to another crate, so its `Display` would have to stand there, for one entry's word.
fn word_for_kind(kind: TableKind) -> &'static str
    ensures { result.now ≡ kind_word kind }
{
    match kind {
        TableKind::Hourly => "hourly",
        TableKind::Quarter => "quarter",
    }
}

// A call, as its entry writes it: `Call` belongs to another crate, and this gives it a `Display`.
#[derive(Clone, Copy)]
struct CallLine {
    call: Call,
}

impl fmt::Display for CallLine {
    ghost output = { λ x. Some (spaced (call_words x.call)) };

    fn fmt<W: fmt::Write>(&self, f: &mut fmt::Formatter<W>) -> fmt::Result {
        match self.call {
            Call::Enrol { moment, kind, kw } => write!(f, "enrol {moment} {kind} {kw}"),
            Call::Nominate {
                moment,
                site,
                week,
                kw,
            } => write!(f, "nominate {moment} {site} {week} {kw}"),
            Call::Announce {
                moment,
                start,
                length,
            } => write!(f, "announce {moment} {start} {length}"),
            Call::Revoke { moment } => write!(f, "revoke {moment}"),
            Call::Close => write!(f, "close"),
        }
    }
}

impl fmt::Display for Entry<'_> {
    ghost output = { λ x. Some (entry_text (asked x)) };

    fn fmt<W: fmt::Write>(&self, f: &mut fmt::Formatter<W>) -> fmt::Result {
        match *self {
            Entry::Label { text } => write!(f, "label {text}"),
            Entry::Open { year } => write!(f, "open {year}"),
            Entry::Call { call } => write!(f, "{}", CallLine { call }),
            Entry::TableMeter {
                name,
                kind,
                number,
                file,
            } => write!(f, "meter {name} {} {number} {file}", word_for_kind(kind)),
            Entry::PairMeter {
                name,
                first,
                second,
            } => write!(f, "meter {name} pair {first} {second}"),
            Entry::Statement { site, meter } => write!(f, "statement {site} {meter}"),
            Entry::Compare {
                site,
                first,
                second,
            } => write!(f, "compare {site} {first} {second}"),
        }
    }
}

// An entry as a line, without its end.
pub fn write_entry(heap: Global, entry: &Entry<'_>) -> Result<String, AllocError>
    ensures { IfOk result (λ t. string_bytes t ≡ entry_text (asked entry.now)) }
{
    format!(in heap; "{entry}")
}
