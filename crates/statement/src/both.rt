use tariff::statement::Statement;

// The statements of a site on two meters, and the number of their event hours.
#[derive(Clone, Copy)]
pub struct TwoStatements {
    pub first: Statement,
    pub second: Statement,
    pub hours: u32,
}
