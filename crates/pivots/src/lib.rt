// Document 02, L7, within one step: which rows are pivots, and what combination of pivot rows each other row has subtracted. The residuals
// are eliminated beside the constants by which each row was combined, so that a row that is cleared to zero shows its combination.
#![tactic(auto)]

ghost use Rattle.std.specs.Prelude.{◌≡◌, ◌≢◌, ◌≤◌, ◌<◌, false, get_or};
ghost use Rattle.algebra.specs.Prime.{Prime};
ghost use Rattle.rules.specs.Sizes.{most_rows};
ghost use Rattle.rules.specs.Maker.{none_taken, take_rows};
ghost use Rattle.layout.specs.Holds.{Each};
ghost use Rattle.pivots.specs.Order.{Small, degree_at};
ghost use Rattle.pivots.specs.Reduced.{all};
ghost use Rattle.pivots.specs.Rows.{Full, number_at, square_of};
ghost use Rattle.pivots.specs.State.{Room, Pivoted, Takes, Chose};

mod order;
mod rows;

use crate::order::next_row;
use crate::rows::{Pivot, Work, copy_row, first_column, identity};
use layout::{ROWS, SQUARE, square_place};

// What a step takes: for each row the power of X by which it moves, 1 if it is a pivot and 0 if not; and the identity less the constants of
// the combinations that are subtracted, row by row.
#[derive(Clone, Copy)]
pub struct Choice {
    pub moves: [usize; ROWS],
    pub factors: [u32; SQUARE],
}

// work: the rows that wait, eliminated. taken: the rows that do not. i: one of those, and its residual in column c is not 0, so that it has
// an inverse.
// Takes row i from each row that waits, so that this one is 0 in column c.
fn clear_by(work: &mut Work, taken: &[bool; ROWS], i: usize, c: usize, p: u32, m: usize)
    requires prime { Prime p }
    requires full { Full work.old.residuals × Full work.old.constants }
    requires each { Each p work.old.residuals × Each p work.old.constants }
    requires i_lt_most_rows { (i < most_rows) × ((c < most_rows) × (m ≤ most_rows)) }
    requires i_nonzero { (get_or taken.now i false ≢ false) × (number_at work.old.residuals i c ≢ 0) }
    ensures { Pivoted p work.old.residuals work.old.constants taken.now i c m work.new.residuals work.new.constants }
{
    let Some(inverse) = field::inverse_mod(work.residuals[square_place(i, c)], p) else {
        return; // not reached: 0 alone has no inverse
    };
    let pivot = Pivot {
        row: i,
        column: c,
        inverse,
    };
    work.clear(taken, &pivot, p, m);
}

// taken: the rows that do not wait, i among them. work: the rows that wait, eliminated, and the constants by which they were combined.
// choice: the choice so far.
// Takes row i: a pivot if its residual is not 0, and else its combination.
fn take_row(taken: &[bool; ROWS], work: &mut Work, choice: &mut Choice, i: usize, p: u32, m: usize)
    requires prime { Prime p }
    requires room { Room p choice.old.moves work.old.residuals work.old.constants choice.old.factors }
    requires i_lt_m { (i < m) × ((m ≤ most_rows) × (get_or taken.now i false ≢ false)) }
    ensures { Takes p m i taken.now choice.old.moves work.old.residuals work.old.constants choice.old.factors
        choice.new.moves work.new.residuals work.new.constants choice.new.factors }
{
    match first_column(&work.residuals, i) {
        None => copy_row(&mut choice.factors, &work.constants, i),
        Some(c) => {
            choice.moves[i] = 1;
            clear_by(work, taken, i, c, p, m);
        }
    }
}

// residuals: of the m rows in the active columns, numbers below p, and 0 elsewhere. degrees: of the rows.
// The pivots, and what is subtracted from the other rows.
pub fn choose(residuals: &[u32; SQUARE], degrees: &[i32; ROWS], p: u32, m: usize) -> Choice
    requires prime { Prime p }
    requires m_le_most_rows { m ≤ most_rows }
    requires each { Each p residuals.now }
    requires small { Small degrees.now }
    ensures { Chose p (take_rows p m most_rows all (degree_at degrees.now) (square_of p residuals.now) m (none_taken p)) result.moves result.factors }
{
    let mut work = Work {
        residuals: *residuals,
        constants: identity(),
    };
    let mut choice = Choice {
        moves: [0; ROWS],
        factors: identity(),
    };
    let mut taken = [false; ROWS];
    for _ in 0..m {
        if let Some(i) = next_row(degrees, &taken, m) {
            taken[i] = true;
            take_row(&taken, &mut work, &mut choice, i, p, m);
        }
    }
    choice
}
