// What the words of a command ask for.
use std::fmt;
use std::fmt::{Display, Formatter, Write};

// How a settled batch is written.
// A value that a word asks for, matched once: functions in its place would say no more.
#[derive(Clone, Copy, PartialEq, Eq, Debug)]
pub enum Form {
    // a report that people read
    People,
    // rows for spreadsheets and other programs
    Rows,
}

// What a command asks for: to be told how it is used, or to settle a batch, from the file named or from standard input.
// No `Option`: `None` would not say that help is asked for.
#[derive(Clone, Copy)]
pub(crate) enum Asked<'a> {
    Help,
    Settle { form: Form, path: Option<&'a str> },
}

// Why the words of a command ask for nothing: an option that there is not, or a second batch.
#[derive(Clone, Copy)]
pub(crate) enum UsageFault<'a> {
    NoSuchOption(&'a str),
    SecondBatch(&'a str),
}

impl Display for UsageFault<'_> {
    fn fmt<W: Write>(&self, f: &mut Formatter<W>) -> fmt::Result {
        match *self {
            UsageFault::NoSuchOption(word) => write!(f, "there is no option {word}"),
            UsageFault::SecondBatch(word) => {
                write!(f, "one batch is settled, and {word} is a second")
            }
        }
    }
}

impl<'a> Asked<'a> {
    // What is asked for with one more word.
    fn with(self, word: &'a str) -> Result<Asked<'a>, UsageFault<'a>> {
        match (self, word) {
            (Asked::Help, _) | (_, "--help") => Ok(Asked::Help),
            (Asked::Settle { path, .. }, "--csv") => Ok(Asked::Settle {
                form: Form::Rows,
                path,
            }),
            (_, option) if option.starts_with('-') => Err(UsageFault::NoSuchOption(option)),
            (Asked::Settle { path: Some(_), .. }, second) => Err(UsageFault::SecondBatch(second)),
            (Asked::Settle { form, path: None }, path) => Ok(Asked::Settle {
                form,
                path: Some(path),
            }),
        }
    }
}

// What a command asks for by its words, the program's own name left out.
pub(crate) fn asked_for<'a>(words: &[&'a str]) -> Result<Asked<'a>, UsageFault<'a>> {
    let nothing = Asked::Settle {
        form: Form::People,
        path: None,
    };
    words
        .iter()
        .try_fold(nothing, |asked, word| asked.with(*word))
}
