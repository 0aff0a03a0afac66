ghost use Rattle.std.specs.Prelude.{◌≤◌, length};

use crate::placed::PlacedHour;
use crate::weeks::Weeks;

// What a site's statement is made from: its measured hours, its nominations, week 1 first, and the weeks of the season.
#[derive(Clone, Copy)]
pub(crate) struct Summer<'a> {
    pub(crate) hours: &'a [PlacedHour],
    pub(crate) nominations: &'a [u32; 10],
    pub(crate) weeks: &'a Weeks,
    ghost few: { length hours.now ≤ 60 },
}
