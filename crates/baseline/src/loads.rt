// What an event is measured from: B of each hour of the day, by the days it is compared with, and the loads of its own day.
#[derive(Clone, Copy)]
pub(crate) struct EventLoads {
    pub(crate) bases: [u64; 24],
    pub(crate) own: [u32; 24],
}
