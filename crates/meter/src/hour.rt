ghost use Rattle.std.specs.Prelude.{◌≤◌};

// An hour of the summer: a day from 0 (June 1) to 75 (August 15), and an hour of that day from 0 to 23.
#[derive(Clone, Copy)]
pub struct SummerHour {
    pub day: u8,
    pub hour: u8,
    ghost day_within: { day ≤ 75 },
    ghost hour_within: { hour ≤ 23 },
}
