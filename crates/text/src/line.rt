ghost use Rattle.std.specs.Prelude.{◌≡◌, ◌<◌, ◌^◌, length};
ghost use Rattle.text.specs.Pieces.{lines};

use crate::cut::cut;
use crate::parts::Mark;

// The lines of a text, one after another: each is ended by LF, and what follows the last LF is a line too, unless it is empty.
#[derive(Clone, Copy)]
pub struct Lines<'a> {
    rest: &'a str,
    // So that a count of the lines fits.
    ghost fits: { length (lines rest.now) < 2 ^ 64 },
}

impl<'a> Lines<'a> {
    // The lines of the text.
    #[tactic(auto, using(crate::proofs::Cutting::pieces_fit))]
    pub fn new(text: &'a str) -> Lines<'a>
        ensures { result.rest.now ≡ text.now }
    {
        Lines { rest: text }
    }
}

impl<'a> Iterator for Lines<'a> {
    ghost use Rattle.std.specs.Iterator.{YieldsFirstRef, item_count};
    ghost use Rattle.text.specs.Left.{lines_left};

    type Item = &'a str;

    ghost next_gives = { YieldsFirstRef lines_left };

    ghost remaining = { item_count lines_left };

    #[tactic(auto, using(crate::proofs::Cutting::no_pieces, crate::proofs::Cutting::first_piece, crate::proofs::Cutting::fewer_pieces))]
    fn next(&mut self) -> Option<&'a str> {
        if self.rest.is_empty() {
            return None;
        }
        let line = cut(self.rest, Mark::LineEnd);
        self.rest = line.rest;
        Some(line.piece)
    }
}
