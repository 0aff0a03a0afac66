ghost use Rattle.std.specs.Prelude.{◌≡◌};
ghost use Rattle.std.specs.List.{position};
ghost use Rattle.text.specs.Pieces.{upto, beyond};
ghost use Rattle.text.specs.Stops.{stops_at};

use crate::parts::{Mark, Parts};

// Whether the byte ends a piece at such a mark.
pub(crate) fn is_mark(mark: Mark, byte: u8) -> bool
    ensures { result ≡ stops_at mark byte }
{
    match mark {
        Mark::LineEnd => byte == b'\n',
        Mark::Comment => byte == b'#',
        Mark::Blank => byte == b' ' || byte == b'\t' || byte == b'\r',
        Mark::Comma => byte == b',',
    }
}

// The place of the first byte that is the mark.
// By `find` over the places and no `position` of the bytes, which counts a place beside its step for each byte.
fn first_mark(text: &str, mark: Mark) -> Option<usize>
    ensures { result ≡ position (stops_at mark) text.now }
{
    let bytes = text.as_bytes();
    (0..bytes.len()).find(|at| is_mark(mark, bytes[*at]))
}

// Cuts the text at the first mark; without one, the piece is all of it.
#[tactic(auto, using(crate::proofs::Marks::boundary_before_mark, crate::proofs::Marks::boundary_after_mark, crate::proofs::Cutting::before_mark, crate::proofs::Cutting::after_mark, crate::proofs::Cutting::whole, crate::proofs::Cutting::nothing))]
pub fn cut(text: &str, mark: Mark) -> Parts<'_>
    ensures piece { result.piece.now ≡ upto (stops_at mark) text.now }
    ensures rest { result.rest.now ≡ beyond (stops_at mark) text.now }
{
    match first_mark(text, mark) {
        // A mark is ASCII, so no character is split before it or after it.
        Some(at) => Parts {
            piece: text.split_at(at).0,
            rest: text.split_at(at + 1).1,
        },
        None => Parts {
            piece: text,
            rest: "",
        },
    }
}
