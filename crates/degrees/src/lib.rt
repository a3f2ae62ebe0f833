// Document 01, condition 1: the degrees of the rows for the shifts, which may be negative, and their sum. A row of zeros has none.
// Proofs see the sizes of document 01 as numbers, and the places in flat arrays by their rows and columns.
#![tactic(auto, unfolding(rules::specs::Sizes::most_rows, rules::specs::Sizes::most_length, rules::specs::Sizes::most_shift, layout::specs::Flat::square_place))]

ghost use Rattle.std.specs.Prelude.{◌≡◌, ◌+◌, ◌^◌, ◌<◌, ◌≤◌, nat_abs, ◌-ℤ◌};
ghost use Rattle.rules.specs.Conditions.{shifted_degree_of, row_degree_of, degree_sum_of};
ghost use Rattle.rules.specs.Verdict.{natural};
ghost use Rattle.rules.specs.Sizes.{most_rows, most_length, most_shift};
ghost use Rattle.layout.specs.Flat.{length_at, shift_at};
ghost use Rattle.degrees.specs.Degrees.{Sized, entry_term};

use claim::{Basis, Head};
use layout::square_place;

// x and y: numbers whose sizes together are small enough.
// Their difference, x less y.
pub fn minus(x: i32, y: i32) -> i32
    requires { nat_abs x + nat_abs y < 2 ^ 31 }
    ensures { result ≡ x -ℤ y }
{
    x - y
}

// x: any number.
// The number itself, or 0 where it is negative.
pub fn not_negative(x: i32) -> u32
    ensures { result ≡ natural x }
{
    u32::try_from(x).unwrap_or(0)
}

// length: the number of coefficients of an entry. shift: its column's.
// "degree plus that column's shift": none for a zero entry.
fn shifted_degree(length: usize, shift: i32) -> Option<i32>
    requires { (length ≤ most_length) × (nat_abs shift ≤ most_shift) }
    ensures { result ≡ shifted_degree_of length shift }
{
    let degree = length.checked_sub(1)?; // a zero entry has none
    Some(degree as i32 + shift)
}

// head, basis: of a claim. i and j: a row and a column.
// The degree of the entry there plus the column's shift.
fn term(head: &Head, basis: &Basis, i: usize, j: usize) -> Option<i32>
    requires sized { Sized basis.now.lengths head.now.shifts }
    requires in_bounds { (i < most_rows) × (j < most_rows) }
    ensures { result ≡ entry_term basis.now.lengths head.now.shifts i j }
{
    shifted_degree(basis.lengths[square_place(i, j)], head.shifts[j])
}

// head, basis: of a claim. i: a row.
// "the largest, over its entries, of degree plus that column's shift; it may be negative": none for a row of zeros.
pub fn row_degree(head: &Head, basis: &Basis, i: usize) -> Option<i32>
    requires sized { Sized basis.now.lengths head.now.shifts }
    requires m_le_most_rows { (head.now.m ≤ most_rows) × (i < most_rows) }
    ensures { result ≡ row_degree_of head.now.m (length_at basis.now.lengths i) (shift_at head.now.shifts) }
{
    let mut most = None;
    for j in (0..head.m).rev() {
        most = term(head, basis, i, j).max(most);
    }
    most
}

// head, basis: of a claim.
// "the sum of the row degrees less the sum of the shifts": none where a row has no degree.
pub fn degree_sum(head: &Head, basis: &Basis) -> Option<i32>
    requires sized { Sized basis.now.lengths head.now.shifts }
    requires m_le_most_rows { head.now.m ≤ most_rows }
    ensures { result ≡ degree_sum_of head.now.m (length_at basis.now.lengths) (shift_at head.now.shifts) }
{
    let mut sum: i32 = 0;
    for i in (0..head.m).rev() {
        let row = row_degree(head, basis, i)?;
        sum += minus(row, head.shifts[i]);
    }
    Some(sum)
}
