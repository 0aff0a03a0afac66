ghost use Rattle.std.specs.Prelude.{◌≡◌};
ghost use Rattle.meter.specs.Recording.{span, limit};

// The two kinds of tables: a cell to an hour, or a cell to a quarter-hour.
#[derive(Clone, Copy, PartialEq, Eq, Debug)]
pub enum TableKind {
    Hourly,
    Quarter,
}

impl TableKind {
    // How many cells the summer has.
    pub fn span(self) -> u32
        ensures { result ≡ span self }
    {
        match self {
            TableKind::Hourly => 1824,
            TableKind::Quarter => 7296,
        }
    }

    // The most that a cell may hold, in Wh.
    pub fn limit(self) -> u32
        ensures { result ≡ limit self }
    {
        match self {
            TableKind::Hourly => 100_000_000,
            TableKind::Quarter => 25_000_000,
        }
    }
}
