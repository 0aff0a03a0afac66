ghost use Rattle.std.specs.Prelude.{◌≤◌};

// The weeks of a season: the programme days of each, week 1 first, and the number of the last week.
// All ten are used: `last` is a week's number, and no length.
#[derive(Clone, Copy)]
pub struct Weeks {
    pub days: [u8; 10],
    pub last: u8,
    ghost within: { last ≤ 10 },
}
