// The determinant of a square of polynomials modulo p, as document 01 says it: "the signed sum of its first row's entries times the
// determinants of the squares left. It is taken over polynomials, not at points." No square is copied: the entries stay in the
// basis that the caller lends, and a square is its size, the number of its first row and the list of its columns.
// A polynomial of the work stands in an array as `convolution` has it.
// Proofs see the sizes of document 01 as numbers, and the places in flat arrays by their rows and columns.
#![tactic(auto, unfolding(rules::specs::Sizes::most_rows, rules::specs::Sizes::most_length, layout::specs::Flat::square_place, layout::specs::Flat::entry_place, polynomial::specs::Coefficients::most_power))]

ghost use Rattle.std.specs.Prelude.{◌≡◌, ◌+◌, ◌≤◌, ◌<◌};
ghost use Rattle.algebra.specs.Residue.{K};
ghost use Rattle.algebra.proofs.Series.{Series};
ghost use Rattle.algebra.specs.Sum.{skip};
ghost use Rattle.algebra.specs.Det.{det};
ghost use Rattle.rules.specs.Sizes.{most_rows, most_length};
ghost use Rattle.field.specs.Modulus.{Made};
ghost use Rattle.layout.specs.Flat.{length_at, cells};
ghost use Rattle.layout.specs.Holds.{Each};
ghost use Rattle.polynomial.specs.Coefficients.{Coefficients};
ghost use Rattle.determinant.specs.Sign.{Signed, SignedEntry};
ghost use Rattle.determinant.specs.Tops.{Tops, RowTop};
ghost use Rattle.determinant.specs.Square.{Holds, Asked, Determinant, Without};
ghost use Rattle.determinant.specs.Expansion.{InOrder};

use claim::Basis;
use convolution::{CAPACITY, add_product, length_of, no_coefficients, no_sums, residues, unpadded};
use field::{Modulus, neg_mod};
use layout::{ROWS, entry_place, square_place};
use polynomial::Polynomial;
use std::array;

// A square of the matrix: its last `size` rows, which start at `row`, and the first `size` of the columns that are listed.
#[derive(Clone, Copy)]
struct Square {
    size: usize,
    row: usize,
    columns: [usize; ROWS],
}

// What the squares of a matrix have in common: for each row a bound on the powers in a determinant of the rows from there on, and the
// modulus.
#[derive(Clone, Copy)]
struct Limits {
    tops: [usize; ROWS],
    modulus: Modulus,
}

// x: a number below p. j: a column.
// x with the sign of the column, modulo p: x itself in the even columns, its negative in the odd ones.
fn with_sign(x: u32, j: usize, p: u32) -> u32
    requires { x < p }
    ensures { Signed p j x result }
{
    if j % 2 == 0 {
        return x;
    }
    neg_mod(x, p)
}

// basis: the matrix, its coefficients below p. row and column: an entry, of count coefficients. j: the number of that column in a square.
// The entry with the sign that it has in the square's expansion, as a polynomial of the work.
fn signed_entry(
    basis: &Basis,
    row: usize,
    column: usize,
    count: usize,
    j: usize,
    p: u32,
) -> [u32; CAPACITY]
    requires row_lt_most_rows { (row < most_rows) × ((column < most_rows) × (count ≤ most_length)) }
    requires each { Each p basis.now.entries }
    ensures { SignedEntry p row column count j basis.now.entries result }
{
    let mut l = no_coefficients();
    for k in 0..count {
        l[k + 2] = with_sign(basis.entries[entry_place(row, column, k)], j, p);
    }
    l
}

// basis: the matrix. i and j: a row and a column.
// The length of that entry.
fn entry_length(basis: &Basis, i: usize, j: usize) -> usize
    requires { (i < most_rows) × (j < most_rows) }
    ensures { result ≡ length_at basis.now.lengths i j }
{
    basis.lengths[square_place(i, j)]
}

// The k-th of the numbers other than j.
fn other(j: usize, k: usize) -> usize
    requires { k < most_rows }
    ensures { result ≡ skip j k }
{
    if k < j { k } else { k + 1 }
}

// columns: the columns of a square. j: the number of one of them in that list.
// The others, in order. One by one: the library's `rotate_left` needs a function of the C library that nothing else in the archive needs.
fn without(columns: &[usize; ROWS], j: usize) -> [usize; ROWS]
    ensures { Without j columns.now result }
{
    let mut left = [0; ROWS];
    for k in 0..ROWS - 1 {
        left[k] = columns[other(j, k)];
    }
    left
}

// basis: a matrix, its coefficients below p. limits: of the matrix. square: a square of it.
// The determinant of the square, each coefficient below p: of one entry, that entry; of a larger square, by its first row.
#[cycle(determinant_expand_row)]
fn determinant(basis: &Basis, limits: &Limits, square: &Square) -> [u32; CAPACITY]
    requires { Asked limits.now.modulus square.now.size square.now.row basis.now.entries basis.now.lengths limits.now.tops square.now.columns }
    ensures { Determinant limits.now.modulus.p square.now.size square.now.row basis.now.entries limits.now.tops square.now.columns result }
{
    if square.size == 1 {
        let column = square.columns[0];
        let length = entry_length(basis, square.row, column);
        signed_entry(basis, square.row, column, length, 0, limits.modulus.p)
    } else {
        expand_row(basis, limits, square)
    }
}

// The parameters are those of `determinant`, and the size is at least 2.
// The signed sum of the first row's entries times the determinants of the squares left. A zero entry costs nothing, each product is as
// long as its factors, and the sums of all products are divided by p once.
#[cycle(determinant_expand_row)]
fn expand_row(basis: &Basis, limits: &Limits, square: &Square) -> [u32; CAPACITY]
    requires asked { Asked limits.now.modulus square.now.size square.now.row basis.now.entries basis.now.lengths limits.now.tops square.now.columns }
    requires le_size { 2 ≤ square.now.size }
    ensures { Determinant limits.now.modulus.p square.now.size square.now.row basis.now.entries limits.now.tops square.now.columns result }
{
    let row = square.row;
    let mut sums = no_sums();
    for j in 0..square.size {
        let column = square.columns[j];
        let length = entry_length(basis, row, column);
        if 0 < length {
            let left = Square {
                size: square.size - 1,
                row: row + 1,
                columns: without(&square.columns, j),
            };
            let minor = determinant(basis, limits, &left);
            let entry = signed_entry(basis, row, column, length, j, limits.modulus.p);
            let top = limits.tops[row + 1];
            add_product(&mut sums, &entry, length, &minor, top, limits.modulus);
        }
    }
    residues(&sums, limits.tops[row], limits.modulus.p)
}

// basis: an m × m matrix. i: a row of it.
// The highest power that an entry of the row has room for.
fn row_top(basis: &Basis, i: usize, m: usize) -> usize
    requires i_lt_most_rows { (i < most_rows) × (m ≤ most_rows) }
    requires each { Each (most_length + 1) basis.now.lengths }
    ensures { RowTop m i basis.now.lengths result }
{
    let mut top = 0;
    for j in 0..m {
        top = entry_length(basis, i, j).saturating_sub(1).max(top);
    }
    top
}

// basis: an m × m matrix.
// For each row the sum of the highest powers of the rows from there on: no determinant of these rows has a higher power.
fn row_tops(basis: &Basis, m: usize) -> [usize; ROWS]
    requires m_le_most_rows { m ≤ most_rows }
    requires each { Each (most_length + 1) basis.now.lengths }
    ensures { Tops m basis.now.lengths result }
{
    let mut tops = [0; ROWS];
    let mut sum = 0;
    for i in (0..m).rev() {
        sum += row_top(basis, i, m);
        tops[i] = sum;
    }
    tops
}

// Every column, in order.
fn all_columns() -> [usize; ROWS]
    ensures { InOrder result }
{
    array::from_fn(|j| j)
}

// basis: an m × m matrix of polynomials modulo p, its coefficients below p, an entry's coefficients followed by zeros. modulus: its p is
// from 2 to the largest prime that is allowed.
// The determinant of the matrix.
pub fn determinant_of(basis: &Basis, modulus: Modulus, m: usize) -> Polynomial
    requires { Made modulus × Holds modulus.p m basis.now.entries basis.now.lengths }
    ensures { Coefficients modulus.p (det (Series (K modulus.p)) m (cells modulus.p basis.now.entries)) result }
{
    let limits = Limits {
        tops: row_tops(basis, m),
        modulus,
    };
    let whole = Square {
        size: m,
        row: 0,
        columns: all_columns(),
    };
    let l = determinant(basis, &limits, &whole);
    let length = length_of(&l, limits.tops[0] + 1);
    unpadded(&l, length)
}
