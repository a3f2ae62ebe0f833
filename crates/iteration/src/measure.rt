// How many coefficients each entry of P has: the zeros behind the last other number do not count.
#![tactic(auto, unfolding(rules::specs::Sizes::most_rows, rules::specs::Sizes::most_length, layout::specs::Flat::square_place, layout::specs::Flat::entry_place))]

ghost use Rattle.std.specs.Prelude.{◌<◌};
ghost use Rattle.rules.specs.Sizes.{most_rows};
ghost use Rattle.iteration.specs.Measure.{Measured, Lengths};

use layout::{ENTRY_COEFFICIENTS, LENGTH, ROWS, SQUARE, entry_place};

// entries: the coefficients of P. i, j: a row and a column.
// The number of coefficients of the entry there.
fn entry_length(entries: &[u32; ENTRY_COEFFICIENTS], i: usize, j: usize) -> usize
    requires { (i < most_rows) × (j < most_rows) }
    ensures { Measured entries.now i j result }
{
    for t in (0..LENGTH).rev() {
        if entries[entry_place(i, j, t)] != 0 {
            return t + 1;
        }
    }
    0
}

// entries: the coefficients of P.
// The numbers of coefficients of all entries.
pub(crate) fn lengths(entries: &[u32; ENTRY_COEFFICIENTS]) -> [usize; SQUARE]
    ensures { Lengths entries.now result }
{
    let mut counts = [0; SQUARE];
    for (place, count) in counts.iter_mut().enumerate() {
        *count = entry_length(entries, place / ROWS, place % ROWS);
    }
    counts
}
