// Whether the rows of a small matrix modulo a prime are dependent, by elimination. Each step takes the matrix by value and returns what it
// leaves; within a step it is lent.
#![tactic(auto, unfolding(rules::specs::Sizes::most_rows))]

ghost use Rattle.std.specs.Prelude.{◌≡◌, ◌≢◌, ◌<◌, ◌≤◌};
ghost use Rattle.algebra.specs.Prime.{Prime};
ghost use Rattle.algebra.specs.Residue.{K};
ghost use Rattle.algebra.specs.Det.{det};
ghost use Rattle.algebra.specs.Dependence.{Dependent};
ghost use Rattle.rules.specs.Sizes.{most_rows};
ghost use Rattle.layout.specs.Flat.{width};
ghost use Rattle.layout.specs.Holds.{Each};
ghost use Rattle.layout.specs.Settles.{Settles};
ghost use Rattle.elimination.specs.Grid.{at, grid, Below, Found, Exchanged, RowLess, Cleared, Stepped};

use layout::{COLUMNS, ROWS};

pub type Row = [u32; COLUMNS];

pub type Grid = [Row; ROWS];

// a: the matrix. c: a column. r: the row to start from. m: the number of rows.
// The first row from r on whose entry in column c is not 0, if there is one.
fn pivot_row(a: &Grid, c: usize, r: usize, m: usize) -> Option<usize>
    requires c_lt_width { c < width }
    requires r_le_m { r ≤ m }
    requires m_le_most_rows { m ≤ most_rows }
    ensures { Found a.now c r m result }
{
    for k in r..m {
        if a[k][c] != 0 {
            return Some(k);
        }
    }
    None
}

// a: the matrix. i, k: two rows.
// The two are exchanged.
fn swap_rows(a: &mut Grid, i: usize, k: usize)
    requires i_lt_most_rows { i < most_rows }
    requires k_lt_most_rows { k < most_rows }
    ensures { Exchanged a.old i k a.new }
{
    a.swap(i, k);
}

// x: a row of numbers below p. f: a number. y: a row. c, n: columns.
// From x, f times the row y is taken, in the columns from c to n.
fn less_row(x: &mut Row, f: u32, y: &Row, p: u32, c: usize, n: usize)
    requires each { Each p x.old }
    requires c_le_n { c ≤ n }
    requires n_le_width { n ≤ width }
    ensures { RowLess p x.old f y.now c n x.new }
{
    for j in c..n {
        let product = field::mul_mod(f, y[j], p);
        x[j] = field::sub_mod(x[j], product, p);
    }
}

// a: the matrix, of numbers below p. v: a number. r: a row. c: a column. m, n: the numbers of rows and columns.
// From each row below row r, row r is taken as often as v times the entry in column c says.
fn clear_below(a: &mut Grid, p: u32, v: u32, r: usize, c: usize, m: usize, n: usize)
    requires below { Below p a.old }
    requires r_lt_m { r < m }
    requires m_le_most_rows { m ≤ most_rows }
    requires c_lt_n { c < n }
    requires n_le_width { n ≤ width }
    ensures { Cleared p a.old v r c m n a.new }
{
    let y = a[r];
    for i in r + 1..m {
        let f = field::mul_mod(a[i][c], v, p);
        less_row(&mut a[i], f, &y, p, c, n);
    }
}

// a: the matrix, of numbers below p. r, c: the row and the column that the step is at. k: a row from r on, not 0 in column c.
// The matrix with row k in the place of row r, and column c cleared below it. The last row has none below it: the matrix stays, and no
// inverse is asked for. Elsewhere it is that of a number other than 0, so that there always is one.
fn step(mut a: Grid, p: u32, r: usize, c: usize, k: usize, m: usize, n: usize) -> Grid
    requires prime { Prime p }
    requires below { Below p a }
    requires r_le_k { r ≤ k }
    requires k_lt_m { k < m }
    requires m_le_most_rows { m ≤ most_rows }
    requires c_lt_n { c < n }
    requires n_le_width { n ≤ width }
    requires c_nonzero { at a k c ≢ 0 }
    ensures { Stepped p a r c m n result }
{
    if r + 1 == m {
        return a;
    }
    let Some(v) = field::inverse_mod(a[k][c], p) else {
        return a;
    };
    swap_rows(&mut a, r, k);
    clear_below(&mut a, p, v, r, c, m, n);
    a
}

// a: the matrix, of numbers below p. p: a prime. m, n: the numbers of rows and columns.
// Whether the m rows are dependent, in the first n columns.
pub fn dependent(a: Grid, p: u32, m: usize, n: usize) -> bool
    requires prime { Prime p }
    requires m_le_most_rows { m ≤ most_rows }
    requires n_le_width { n ≤ width }
    requires below { Below p a }
    ensures { Settles (Dependent (K p) m n (grid p a)) result }
{
    let mut b = a;
    let mut r: usize = 0;
    for c in 0..n {
        if let Some(k) = pivot_row(&b, c, r, m) {
            b = step(b, p, r, c, k, m, n);
            r += 1;
        }
    }
    r < m
}

// a: the matrix, of numbers below p. p: a prime. m: the number of rows and of columns.
// Whether the determinant of the square is 0.
pub fn singular(a: Grid, p: u32, m: usize) -> bool
    requires prime { Prime p }
    requires m_le_most_rows { m ≤ most_rows }
    requires below { Below p a }
    ensures { Settles (det (K p) m (grid p a) ≡ (K p).𝟘) result }
{
    dependent(a, p, m, m)
}
