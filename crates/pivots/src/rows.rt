// Small squares modulo p, row by row in flat arrays, and the steps by which rows are cleared.
#![tactic(auto, unfolding(rules::specs::Sizes::most_rows, layout::specs::Flat::square_place))]

ghost use Rattle.std.specs.Prelude.{◌≡◌, ◌≢◌, ◌≤◌, ◌<◌, false, get_or, MatchOption};
ghost use Rattle.rules.specs.Sizes.{most_rows};
ghost use Rattle.layout.specs.Holds.{Each};
ghost use Rattle.pivots.specs.Rows.{Full, Identity, ZeroRow, FirstColumn, Copied, RowLess, BothLess, Cleared};

use layout::{ROWS, SQUARE, square_place};

// The rows that wait, eliminated, and the constants by which each was combined: squares of numbers below p.
#[derive(Clone, Copy)]
pub(crate) struct Work {
    pub(crate) residuals: [u32; SQUARE],
    pub(crate) constants: [u32; SQUARE],
}

// A row that is taken from others, the column in which they become 0, and the inverse of its residual there.
#[derive(Clone, Copy)]
pub(crate) struct Pivot {
    pub(crate) row: usize,
    pub(crate) column: usize,
    pub(crate) inverse: u32,
}

// The identity.
pub(crate) fn identity() -> [u32; SQUARE]
    ensures { Identity most_rows result }
{
    let mut rows = [0; SQUARE];
    for i in 0..ROWS {
        rows[square_place(i, i)] = 1;
    }
    rows
}

// rows: a square. i: a row.
// The first column in which row i is not 0, or none where it is 0.
pub(crate) fn first_column(rows: &[u32; SQUARE], i: usize) -> Option<usize>
    requires { i < most_rows }
    ensures { MatchOption result (ZeroRow rows.now i) (FirstColumn rows.now i) }
{
    let start = square_place(i, 0);
    rows[start..start + ROWS].iter().position(|x| *x != 0)
}

// out, rows: squares. i: a row.
// Puts row i of `rows` in its place in `out`.
pub(crate) fn copy_row(out: &mut [u32; SQUARE], rows: &[u32; SQUARE], i: usize)
    requires full { Full out.old }
    requires i_lt_most_rows { i < most_rows }
    ensures { Copied out.old rows.now i most_rows out.new }
{
    let start = square_place(i, 0);
    let end = start + ROWS;
    out[start..end].copy_from_slice(&rows[start..end]);
}

// rows: a square of numbers below p. i, r: two rows. f: a number.
// Takes f times row r from row i.
fn less_row(rows: &mut [u32; SQUARE], i: usize, f: u32, r: usize, p: u32)
    requires full { Full rows.old × Each p rows.old }
    requires i_lt_most_rows { (i < most_rows) × (r < most_rows) }
    ensures { RowLess p rows.old i f r most_rows rows.new }
{
    for j in 0..ROWS {
        let place = square_place(i, j);
        let product = field::mul_mod(f, rows[square_place(r, j)], p);
        rows[place] = field::sub_mod(rows[place], product, p);
    }
}

impl Work {
    // k: a row. pivot: a row, a column and a number.
    // Takes the pivot's row from row k, as often as the number times the residual of row k in the column says.
    fn clear_row(&mut self, k: usize, pivot: &Pivot, p: u32)
        requires full { Full self.old.residuals × Full self.old.constants }
        requires each { Each p self.old.residuals × Each p self.old.constants }
        requires k_lt_most_rows { (k < most_rows) × ((pivot.now.row < most_rows) × (pivot.now.column < most_rows)) }
        ensures { BothLess p self.old.residuals self.old.constants k pivot.now.row pivot.now.column pivot.now.inverse self.new.residuals self.new.constants }
    {
        let f = field::mul_mod(
            self.residuals[square_place(k, pivot.column)],
            pivot.inverse,
            p,
        );
        less_row(&mut self.residuals, k, f, pivot.row, p);
        less_row(&mut self.constants, k, f, pivot.row, p);
    }

    // taken: the rows that do not wait. pivot: one of those, a column and a number.
    // Takes the pivot's row from each of the m rows that wait.
    pub(crate) fn clear(&mut self, taken: &[bool; ROWS], pivot: &Pivot, p: u32, m: usize)
        requires full { Full self.old.residuals × Full self.old.constants }
        requires each { Each p self.old.residuals × Each p self.old.constants }
        requires row_lt_most_rows { (pivot.now.row < most_rows) × ((pivot.now.column < most_rows) × (m ≤ most_rows)) }
        requires row_taken { get_or taken.now pivot.now.row false ≢ false }
        ensures { Cleared p self.old.residuals self.old.constants taken.now pivot.now.row pivot.now.column pivot.now.inverse m self.new.residuals self.new.constants }
    {
        for k in 0..m {
            let waits = !taken[k];
            if waits {
                self.clear_row(k, pivot, p);
            }
        }
    }
}
