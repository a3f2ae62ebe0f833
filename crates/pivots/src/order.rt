// "Rows are taken by current row degree, lowest first, ties by row number."
#![tactic(auto, unfolding(rules::specs::Sizes::most_rows))]

ghost use Rattle.std.specs.Prelude.{◌≡◌, ◌≤◌, ◌<◌, IfSome};
ghost use Rattle.rules.specs.Sizes.{most_rows};
ghost use Rattle.rules.specs.Maker.{next_row};
ghost use Rattle.pivots.specs.Order.{Small, is_taken, degree_at, better};

use layout::ROWS;

// degrees: of the rows. taken: the rows that were taken. i: a row. best: the lowest so far of those that were not taken, if there is one.
// Whether row i was not taken and is lower.
fn is_better(degrees: &[i32; ROWS], taken: &[bool; ROWS], i: usize, best: Option<usize>) -> bool
    requires small { Small degrees.now }
    requires i_lt_most_rows { i < most_rows }
    requires best_lt_most_rows { IfSome best (λ b. b < most_rows) }
    ensures { result ≡ better (degree_at degrees.now) (is_taken taken.now) i best }
{
    if taken[i] {
        return false;
    }
    match best {
        Some(lowest) => degrees[i] < degrees[lowest],
        None => true,
    }
}

// degrees: of the m rows. taken: the rows that were taken.
// The row to take next: the first of the lowest, or none where all were taken.
pub(crate) fn next_row(degrees: &[i32; ROWS], taken: &[bool; ROWS], m: usize) -> Option<usize>
    requires small { Small degrees.now }
    requires m_le_most_rows { m ≤ most_rows }
    ensures { result ≡ next_row m (degree_at degrees.now) (is_taken taken.now) }
{
    let mut best = None;
    for i in 0..m {
        if is_better(degrees, taken, i, best) {
            best = Some(i);
        }
    }
    best
}
