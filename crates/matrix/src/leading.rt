// Document 01, condition 1: the leading matrix.
ghost use Rattle.std.specs.Prelude.{◌≡◌, ◌<◌, ◌≤◌};
ghost use Rattle.rules.specs.Sizes.{most_rows};
ghost use Rattle.layout.specs.Flat.{cell};
ghost use Rattle.degrees.specs.Degrees.{Sized};
ghost use Rattle.matrix.specs.Leading.{at_power, leading_number};
ghost use Rattle.matrix.specs.Fill.{row_of, array_of};

use claim::{Basis, Head};
use degrees::{minus, row_degree};
use layout::{COLUMNS, LENGTH, ROWS, entry_place};

// basis: P. i and j: a row and a column. power: any number.
// The coefficient of the entry there at the power, 0 where there is none or the power is negative.
fn entry_at(basis: &Basis, power: i32, i: usize, j: usize) -> u32
    requires { (i < most_rows) × (j < most_rows) }
    ensures { result ≡ at_power power (cell basis.now.entries i j) }
{
    match usize::try_from(power) {
        Ok(k) if k < LENGTH => basis.entries[entry_place(i, j, k)],
        _ => 0,
    }
}

// head, basis: of a claim. i: a row.
// The row i of the leading matrix, and zeros: only zeros where the row has no degree.
fn leading_row(head: &Head, basis: &Basis, i: usize) -> [u32; COLUMNS]
    requires sized { Sized basis.now.lengths head.now.shifts }
    requires m_le_most_rows { (head.now.m ≤ most_rows) × (i < most_rows) }
    ensures { result ≡ row_of head.now.m (leading_number basis.now.entries basis.now.lengths head.now.shifts head.now.m i) }
{
    let mut row = [0; COLUMNS];
    let Some(degree) = row_degree(head, basis, i) else {
        return row;
    };
    for j in 0..head.m {
        let power = minus(degree, head.shifts[j]);
        row[j] = entry_at(basis, power, i, j);
    }
    row
}

// head, basis: of a claim.
// The leading matrix, and zeros.
pub fn leading_matrix(head: &Head, basis: &Basis) -> [[u32; COLUMNS]; ROWS]
    requires sized { Sized basis.now.lengths head.now.shifts }
    requires m_le_most_rows { head.now.m ≤ most_rows }
    ensures { result ≡ array_of head.now.m head.now.m (leading_number basis.now.entries basis.now.lengths head.now.shifts head.now.m) }
{
    let mut rows = [[0; COLUMNS]; ROWS];
    for i in 0..head.m {
        rows[i] = leading_row(head, basis, i);
    }
    rows
}
