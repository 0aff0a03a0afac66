// The meters of a batch, by their places in its list.
ghost use Rattle.std.specs.Prelude.{◌≡◌, length, set, true, IfOk, vec_len};

use crate::settled::HandedIn;
use batch::plan::BatchMeter;
use std::alloc::{AllocError, Global};

// Marks a place, where it is one of those that have a mark.
fn mark(marks: &mut [bool], place: usize)
    ensures { marks.new ≡ set marks.old place true }
{
    if place < marks.len() {
        marks[place] = true;
    }
}

#[derive(Clone, Copy)]
pub(crate) struct Meters<'a> {
    pub heap: Global,
    pub list: &'a [HandedIn<'a>],
}

impl<'a> Meters<'a> {
    // The name of the meter at a place.
    pub(crate) fn name_at(self, place: usize) -> &'a str {
        self.list
            .get(place)
            .map_or("", |handed| handed.meter.name())
    }

    // Which meters stand in those at some places, place by place: these, and the two of each pair that is so. The two of a pair stand
    // before it. A mark for each meter of the list and no set of places: each meter of the list is asked for, and a set is slower to ask.
    pub(crate) fn standing_in(self, places: &[usize]) -> Result<Vec<bool>, AllocError>
        ensures { IfOk result (λ marks. vec_len marks ≡ length self.entry.list.now) }
    {
        let mut marks = vec![in self.heap; false; self.list.len()]?;
        for place in places {
            mark(&mut marks, *place);
        }
        for (place, handed) in self.list.iter().enumerate().rev() {
            if marks.get(place) == Some(&true)
                && let BatchMeter::Pair { first, second, .. } = handed.meter
            {
                mark(&mut marks, first);
                mark(&mut marks, second);
            }
        }
        Ok(marks)
    }
}
