// What a step works on, and the step.
#![tactic(auto, unfolding(rules::specs::Sizes::most_rows, rules::specs::Sizes::most_order, rules::specs::Sizes::most_length, layout::specs::Flat::square_place, layout::specs::Flat::entry_place))]

ghost use Rattle.std.specs.Prelude.{◌≡◌, ◌≤◌, ◌<◌, length};
ghost use Rattle.rules.specs.Sizes.{most_rows, most_order};
ghost use Rattle.claim.specs.Sound.{SoundHead};
ghost use Rattle.pivots.specs.Order.{Small};
ghost use Rattle.stepping.specs.Filled.{Kept};
ghost use Rattle.iteration.specs.After.{Residuals, Raised};
ghost use Rattle.iteration.specs.Steps.{residual_number, Steps};

use claim::Head;
use layout::{ENTRY_COEFFICIENTS, ORDER, ROWS, SQUARE, entry_place};
use pivots::choose;
use stepping::step_rows;

// The coefficients of P and of P·F, and the row degrees.
#[derive(Clone, Copy)]
pub(crate) struct State {
    pub(crate) entries: [u32; ENTRY_COEFFICIENTS],
    pub(crate) products: [u32; ENTRY_COEFFICIENTS],
    pub(crate) degrees: [i32; ROWS],
}

// degrees: of the rows. moves: 0 for each row that is no pivot.
// Makes the degree of each of the m rows that is a pivot one more.
fn raise(degrees: &mut [i32; ROWS], moves: &[usize; ROWS], m: usize)
    requires m_le_most_rows { m ≤ most_rows }
    requires degrees_len { (length degrees.old ≡ most_rows) × Small degrees.old }
    ensures { Raised m moves.now degrees.old degrees.new }
{
    for i in 0..m {
        if moves[i] != 0 {
            degrees[i] += 1;
        }
    }
}

impl State {
    // head: of a problem. i, j: a row and a column. k: a power.
    // The residual of row i at power k in column j, 0 where the column's order is not above k.
    fn residual(&self, head: &Head, i: usize, j: usize, k: usize) -> u32
        requires { (i < most_rows) × ((j < most_rows) × (k < most_order)) }
        ensures { result ≡ residual_number head.now.m head.now.n head.now.orders self.now.products i j k }
    {
        if i < head.m && j < head.n && k < head.orders[j] {
            self.products[entry_place(i, j, k)]
        } else {
            0
        }
    }

    // head: of a problem. k: a power.
    // "the residual at power k of the columns with order above k", and 0 elsewhere.
    fn residuals(&self, head: &Head, k: usize) -> [u32; SQUARE]
        requires { (head.now.m ≤ most_rows) × ((head.now.n ≤ most_rows) × (k < most_order)) }
        ensures { Residuals head.now.m head.now.n k head.now.orders self.now.products result }
    {
        let mut rows = [0; SQUARE];
        for (place, number) in rows.iter_mut().enumerate() {
            *number = self.residual(head, place / ROWS, place % ROWS, k);
        }
        rows
    }

    // head: of a problem. k: the step.
    // Makes the step.
    pub(crate) fn step(&mut self, head: &Head, k: usize)
        requires sound_head { SoundHead head.now × (k < most_order) }
        requires kept { Kept head.now.p self.old.entries × Kept head.now.p self.old.products }
        requires degrees_len { (length self.old.degrees ≡ most_rows) × Small self.old.degrees }
        ensures { Steps head.now k self.old.entries self.old.products self.old.degrees self.new.entries self.new.products self.new.degrees }
    {
        let choice = choose(&self.residuals(head, k), &self.degrees, head.p, head.m);
        step_rows(&mut self.entries, &choice, head.p, head.m, head.m, 0..k + 2);
        step_rows(
            &mut self.products,
            &choice,
            head.p,
            head.m,
            head.n,
            k + 1..ORDER,
        );
        raise(&mut self.degrees, &choice.moves, head.m);
    }
}
