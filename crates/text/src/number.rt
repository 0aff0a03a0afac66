ghost use Rattle.std.specs.Prelude.{◌≡◌};
ghost use Rattle.std.specs.Char.{is_ascii_digit};
ghost use Rattle.std.specs.List.{list_all};
ghost use Rattle.std.specs.Result.{result_ok};
ghost use Rattle.text.specs.Numbers.{number_of};

// Why a word is no number of 32 bits: it is empty or has a byte that is no decimal digit, or its number is above 4,294,967,295.
#[derive(Clone, Copy, PartialEq, Eq, Debug)]
pub enum NumberFault {
    NoNumber,
    TooLarge,
}

// Whether each byte of a word is a decimal digit.
fn all_digits(word: &str) -> bool
    ensures { result ≡ list_all is_ascii_digit word.now }
{
    word.bytes().all(|byte| byte.is_ascii_digit())
}

// The number that a word writes, where it writes one of 32 bits.
#[tactic(auto, using(crate::proofs::Digits::plus_in_front, crate::proofs::Digits::parsed))]
fn parsed(word: &str) -> Option<u32>
    ensures { result ≡ result_ok (number_of word.now) }
{
    // A word that begins with a plus is no number, and `parse` takes one.
    if let [b'+', ..] = word.as_bytes() {
        return None;
    }
    word.parse::<u32>().ok()
}

// Reads a word as a number: decimal digits, at least one, and nothing else.
#[tactic(auto, using(crate::proofs::Digits::number_is, crate::proofs::Digits::too_large, crate::proofs::Digits::no_number, crate::proofs::Digits::no_digits))]
pub fn number(word: &str) -> Result<u32, NumberFault>
    ensures { result ≡ number_of word.now }
{
    // The digits are looked at anew only where they write no number.
    match parsed(word) {
        Some(value) => Ok(value),
        None if !word.is_empty() && all_digits(word) => Err(NumberFault::TooLarge),
        None => Err(NumberFault::NoNumber),
    }
}
