// The words of an entry, taken from the left one by one.
ghost use Rattle.std.specs.Prelude.{◌≡◌};
ghost use Rattle.entries.specs.Taking.{read_as, taken_word, taken_figure, no_more, take_word, take_figure, last_word, last_figure};

use crate::entry::EntryFault;
use crate::word::{Figure, read_figure};
use text::word::next_word;

// The next word, and the rest of the line.
#[tactic(auto, unfolding(crate::specs::Taking::take_word))]
pub(crate) fn take_word(line: &str) -> Result<(&str, &str), EntryFault>
    ensures { read_as taken_word result ≡ take_word line.now }
{
    let word = next_word(line).ok_or(EntryFault::TooFewWords)?;
    Ok((word.piece, word.rest))
}

// The next word as a figure, and the rest of the line.
#[tactic(auto, unfolding(crate::specs::Taking::take_figure))]
pub(crate) fn take_figure(figure: Figure, line: &str) -> Result<(u32, &str), EntryFault>
    ensures { read_as taken_figure result ≡ take_figure figure line.now }
{
    let (word, rest) = take_word(line)?;
    Ok((read_figure(figure, word)?, rest))
}

// No word is left.
#[tactic(auto, unfolding(crate::specs::Taking::no_more))]
pub(crate) fn end_line(line: &str) -> Result<(), EntryFault>
    ensures { result ≡ no_more line.now }
{
    if next_word(line).is_some() {
        return Err(EntryFault::TooManyWords);
    }
    Ok(())
}

// The one word that is left.
#[tactic(auto, unfolding(crate::specs::Taking::last_word))]
pub(crate) fn last_word(line: &str) -> Result<&str, EntryFault>
    ensures { read_as (λ x. x.now) result ≡ last_word line.now }
{
    let (word, rest) = take_word(line)?;
    end_line(rest)?;
    Ok(word)
}

// The one word that is left, as a figure.
#[tactic(auto, unfolding(crate::specs::Taking::last_figure))]
pub(crate) fn last_figure(figure: Figure, line: &str) -> Result<u32, EntryFault>
    ensures { result ≡ last_figure figure line.now }
{
    let (value, rest) = take_figure(figure, line)?;
    end_line(rest)?;
    Ok(value)
}
