// Document 02, L7, one step on the rows of a matrix of polynomials: the combinations are subtracted, and each pivot is multiplied by X. The
// rows of P and those of P·F change by the same step.
#![tactic(auto, unfolding(rules::specs::Sizes::most_rows, rules::specs::Sizes::most_length, layout::specs::Flat::square_place, layout::specs::Flat::entry_place))]

ghost use Rattle.std.specs.Prelude.{◌≢◌, ◌↔◌, ◌≤◌, ◌<◌, IsTrue, get_or};
ghost use Rattle.rules.specs.Sizes.{most_rows, most_length};
ghost use Rattle.stepping.specs.Next.{Rows, Combined, Next};
ghost use Rattle.stepping.specs.Filled.{Kept, Filled, EntryBox, RowBox, RowsBox};

use layout::{ENTRY_COEFFICIENTS, entry_place, square_place};
use pivots::Choice;
use std::ops::Range;

// What a step is made from: the coefficients of a matrix before it, and what it takes; the modulus, above all coefficients and factors, and
// the number of rows.
#[derive(Clone, Copy)]
struct Step<'a> {
    old: &'a [u32; ENTRY_COEFFICIENTS],
    choice: &'a Choice,
    p: u32,
    m: usize,
}

impl<'a> Step<'a> {
    // i: a row. j: a column. t: a power.
    // The coefficient at power t, in column j, of the combination of the rows by row i of the factors.
    fn combined(&self, i: usize, j: usize, t: usize) -> u32
        requires rows { Rows self.now.p self.now.old.now self.now.choice.now.factors }
        requires m_le_most_rows { (self.now.m ≤ most_rows) × ((i < most_rows) × ((j < most_rows) × (t < most_length))) }
        ensures { Combined self.now.p self.now.m self.now.old.now self.now.choice.now.factors i j t result }
    {
        let mut sum: u64 = 0;
        for q in 0..self.m {
            let factor = u64::from(self.choice.factors[square_place(i, q)]);
            let coefficient = u64::from(self.old[entry_place(q, j, t)]);
            sum += factor * coefficient;
        }
        (sum % u64::from(self.p)) as u32
    }

    // moves: whether row i moves. i, j, t: as above.
    // The coefficient that row i has next: of the row before, one power lower, where it moves, and else of the combination.
    fn next_coefficient(&self, moves: bool, i: usize, j: usize, t: usize) -> u32
        requires moves { IsTrue moves ↔ get_or self.now.choice.now.moves i 0 ≢ 0 }
        requires rows { Rows self.now.p self.now.old.now self.now.choice.now.factors }
        requires m_le_most_rows { (self.now.m ≤ most_rows) × ((i < most_rows) × ((j < most_rows) × (t < most_length))) }
        ensures { Next self.now.p self.now.m self.now.old.now self.now.choice.now.moves self.now.choice.now.factors i j t result }
    {
        if !moves {
            return self.combined(i, j, t);
        }
        match t.checked_sub(1) {
            Some(lower) => self.old[entry_place(i, j, lower)],
            None => 0,
        }
    }

    // out: the coefficients of a matrix. i, j: as above. powers: of the coefficients that are made.
    // Puts the coefficients that the entry in row i and column j has next, at those powers.
    fn put_entry(
        &self,
        out: &mut [u32; ENTRY_COEFFICIENTS],
        i: usize,
        j: usize,
        powers: &Range<usize>,
    )
        requires rows { Rows self.now.p self.now.old.now self.now.choice.now.factors × Kept self.now.p out.old }
        requires m_le_most_rows { (self.now.m ≤ most_rows) × ((i < most_rows) × ((j < most_rows) × (powers.now.start ≤ powers.now.end))) }
        requires to_le_most_length { powers.now.end ≤ most_length }
        ensures { Filled self.now.p (Next self.now.p self.now.m self.now.old.now self.now.choice.now.moves self.now.choice.now.factors)
            (EntryBox i j powers.now.start powers.now.end) out.old out.new }
    {
        let moves = self.choice.moves[i] != 0;
        for t in powers.start..powers.end {
            out[entry_place(i, j, t)] = self.next_coefficient(moves, i, j, t);
        }
    }

    // The same for the first `columns` entries of row i.
    fn put_row(
        &self,
        out: &mut [u32; ENTRY_COEFFICIENTS],
        i: usize,
        columns: usize,
        powers: &Range<usize>,
    )
        requires rows { Rows self.now.p self.now.old.now self.now.choice.now.factors × Kept self.now.p out.old }
        requires m_le_most_rows { (self.now.m ≤ most_rows) × ((i < most_rows) × ((columns ≤ most_rows) × (powers.now.start ≤ powers.now.end))) }
        requires to_le_most_length { powers.now.end ≤ most_length }
        ensures { Filled self.now.p (Next self.now.p self.now.m self.now.old.now self.now.choice.now.moves self.now.choice.now.factors)
            (RowBox i columns powers.now.start powers.now.end) out.old out.new }
    {
        for j in 0..columns {
            self.put_entry(out, i, j, powers);
        }
    }
}

// rows: the coefficients of a matrix with m rows, numbers below p. choice: not 0 in its moves for each row that is a pivot, and the identity
// less the constants of the combinations that are subtracted. columns: how many columns there are. powers: of coefficients.
// Makes the step at those powers; the coefficients at other powers stay.
pub fn step_rows(
    rows: &mut [u32; ENTRY_COEFFICIENTS],
    choice: &Choice,
    p: u32,
    m: usize,
    columns: usize,
    powers: Range<usize>,
)
    requires rows { Rows p rows.old choice.now.factors × Kept p rows.old }
    requires m_le_most_rows { (m ≤ most_rows) × ((columns ≤ most_rows) × (powers.start ≤ powers.end)) }
    requires to_le_most_length { powers.end ≤ most_length }
    ensures { Filled p (Next p m rows.old choice.now.moves choice.now.factors) (RowsBox m columns powers.start powers.end) rows.old rows.new }
{
    let old = *rows;
    let step = Step {
        old: &old,
        choice,
        p,
        m,
    };
    for i in 0..m {
        step.put_row(rows, i, columns, &powers);
    }
}
