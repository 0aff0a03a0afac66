ghost use Rattle.std.specs.Prelude.{◌≤◌};

use crate::placed::PlacedHour;

// The measured hours of a season, at most 60.
// A fixed array with its count: the type is public and `Copy`, which an `ArrayVec` is not, and nothing here wants memory.
#[derive(Clone, Copy)]
pub struct HourList {
    pub(crate) hours: [PlacedHour; 60],
    pub(crate) count: u8,
    ghost within: { count ≤ 60 },
}

// What keeps an hour from being added: the list has its 60 hours already.
#[derive(Clone, Copy, PartialEq, Eq, Debug)]
pub enum PushRefusal {
    ListFull,
}
