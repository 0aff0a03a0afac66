ghost use Rattle.std.specs.Prelude.{◌+◌, ◌<◌, ◌≤◌};

// A standing event to be measured: its number, its day, the hour of that day in which its notice fell, the hour in which it
// starts, and its length in hours. Two hours of the day lie before the notice's hour.
#[derive(Clone, Copy)]
pub struct EventSpan {
    pub number: u8,
    pub day: u8,
    pub notice: u8,
    pub start: u8,
    pub length: u8,
    ghost day_within: { day ≤ 75 },
    ghost notice_after_two: { 2 ≤ notice },
    ghost notice_within: { notice < 24 },
    ghost four_hours: { length ≤ 4 },
    ghost ends_within: { start + length ≤ 24 },
}
