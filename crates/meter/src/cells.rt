ghost use Rattle.std.specs.Prelude.{◌≡◌, ◌+◌, ◌/◌, ◌<◌, ◌≤◌, length, IfSome, MatchOption, slice_range};
ghost use Rattle.meter.specs.Cells.{together};

// The most that each of the N cells of an hour may hold: its part of what the hour may.
fn most<const N: usize>() -> u32
    requires { 1 ≤ N }
    ensures { result ≡ 100000000 / N }
{
    (100_000_000 / N) as u32
}

// The N cells of an hour from one on, where the table has them all.
fn cells_of<const N: usize>(cells: &[u32], first: u128) -> Option<&[u32]>
    ensures { MatchOption result (length cells.now < first + N) (λ hour. (first + N ≤ length cells.now) × (hour.now ≡ slice_range cells.now first (first + N)) × (length hour.now ≡ N)) }
{
    let first = usize::try_from(first).ok()?;
    cells.get(first..)?.get(..N)
}

// What the N cells of an hour from one on hold together: nothing where one of them lies past the end of the table, or is above its
// part of what an hour may hold.
#[tactic(auto, unfolding(crate::specs::Cells::together))]
pub(crate) fn hour_at<const N: usize>(cells: &[u32], first: u128) -> Option<u32>
    ensures sum { result ≡ together (100000000 / N) cells.now first N }
    ensures bound { IfSome result (λ w. w ≤ 100000000) }
{
    // An hour of no cells has no part to compare with.
    if N == 0 {
        return Some(0);
    }
    let most = most::<N>();
    let mut sum = 0;
    // A `for`: a `sum()` into an `Option` says nothing of where it fails, and so not that what it added until then fits.
    for cell in cells_of::<N>(cells, first)? {
        if *cell > most {
            return None;
        }
        sum += *cell;
    }
    Some(sum)
}
