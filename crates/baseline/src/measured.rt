use tariff::statement::MeasuredHour;

// What was measured in the hours of an event, rising. The entries from `count` on are not used, and zero.
// A fixed array with its count: the type is public and `Copy`, which an `ArrayVec` is not, and nothing here wants memory.
#[derive(Clone, Copy)]
pub struct MeasuredEvent {
    pub hours: [MeasuredHour; 4],
    pub count: u8,
}
