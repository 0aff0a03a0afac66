ghost use Rattle.std.specs.Prelude.{◌≡◌, ℕ, ◌<◌, ◌≤◌, T, slice_index};
ghost use Rattle.std.specs.Option.{option_map};
ghost use Rattle.baseline.specs.Days.{«within_summer», «days_taken»};

// Ten days of the summer to compare an event's day with, the latest first.
#[derive(Clone, Copy)]
pub struct ComparisonDays {
    pub(crate) days: [u8; 10],
    ghost within: { (k : ℕ) → k < 10 → slice_index days k ≤ 75 },
}

// Each of ten days is a day of the summer.
fn all_within(days: &[u8; 10]) -> bool
    ensures value { result ≡ within_summer days.now }
    ensures each { T result → (k : ℕ) → k < 10 → slice_index days.now k ≤ 75 }
{
    days.iter().all(|day| *day <= 75)
}

impl ComparisonDays {
    // Takes ten days, the latest first; none where one of them is no day of the summer.
    // An `if` and no `then`, whose closure would need two clauses to say what the type asks of its days.
    pub fn new(days: [u8; 10]) -> Option<ComparisonDays>
        ensures { option_map (λ x. x.days) result ≡ days_taken days }
    {
        if all_within(&days) {
            Some(ComparisonDays { days })
        } else {
            None
        }
    }
}
