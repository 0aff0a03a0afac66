ghost use Rattle.std.specs.Prelude.{◌≡◌, ◌<◌, ◌^◌, not, length, reverse};
ghost use Rattle.std.specs.List.{position};
ghost use Rattle.std.specs.Option.{option_map};
ghost use Rattle.text.specs.Pieces.{blank, unblanked, trimmed, next_word, between_blanks};
ghost use Rattle.text.specs.Stops.{parts_of};

use crate::cut::{cut, is_mark};
use crate::parts::{Mark, Parts};

// The place of the first byte that is no blank.
fn first_solid(line: &str) -> Option<usize>
    ensures { result ≡ position (λ b. not (blank b)) line.now }
{
    line.bytes().position(|byte| !is_mark(Mark::Blank, byte))
}

// The line from its first byte on that is no blank.
// By places and no trim of the library: a text is cut where the definitions count its bytes.
#[tactic(auto, using(crate::proofs::Blanks::word_boundary, crate::proofs::Blanks::word_begins, crate::proofs::Blanks::all_blank))]
fn unblank(line: &str) -> &str
    ensures { result.now ≡ unblanked line.now }
{
    match first_solid(line) {
        Some(start) => line.split_at(start).1,
        None => "",
    }
}

// The first word of the line after any blanks, and what follows the blank that ends it; `None` where the line has no word.
pub fn next_word(line: &str) -> Option<Parts<'_>>
    ensures { option_map parts_of result ≡ next_word line.now }
{
    let words = unblank(line);
    (!words.is_empty()).then(|| cut(words, Mark::Blank))
}

// The line up to its last byte that is no blank.
fn unblank_end(line: &str) -> &str
    ensures { result.now ≡ reverse (unblanked (reverse line.now)) }
{
    match line.bytes().rposition(|byte| !is_mark(Mark::Blank, byte)) {
        Some(last) => line.split_at(last + 1).0,
        None => "",
    }
}

// The line without the blanks at both its ends.
pub fn trim(line: &str) -> &str
    ensures { result.now ≡ trimmed line.now }
{
    unblank_end(unblank(line))
}

// The words between the blanks of a text, one after another. The sign that begins a comment is no blank: whoever has comments cuts them first.
#[derive(Clone, Copy)]
pub struct Words<'a> {
    rest: &'a str,
    // So that a count of the words fits.
    ghost fits: { length (between_blanks rest.now) < 2 ^ 64 },
}

impl<'a> Words<'a> {
    // The words of the text.
    #[tactic(auto, using(crate::proofs::Words::words_fit))]
    pub fn new(text: &'a str) -> Words<'a>
        ensures { result.rest.now ≡ text.now }
    {
        Words { rest: text }
    }
}

impl<'a> Iterator for Words<'a> {
    ghost use Rattle.std.specs.Iterator.{YieldsFirstRef, item_count};
    ghost use Rattle.text.specs.Left.{words_left};

    type Item = &'a str;

    ghost next_gives = { YieldsFirstRef words_left };

    ghost remaining = { item_count words_left };

    #[tactic(auto, using(crate::proofs::Words::no_words, crate::proofs::Words::first_of_words, crate::proofs::Words::fewer_words))]
    fn next(&mut self) -> Option<&'a str> {
        let word = next_word(self.rest)?;
        self.rest = word.rest;
        Some(word.piece)
    }
}
