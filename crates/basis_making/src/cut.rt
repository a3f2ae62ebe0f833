// "the same problem with each order replaced by the smaller of it and b, its F columns cut to match"
ghost use Rattle.std.specs.Prelude.{◌≡◌, min, ◌≤◌, get_or};
ghost use Rattle.rules.specs.Sizes.{most_rows};
ghost use Rattle.rules.specs.Conditions.{max_below};
ghost use Rattle.basis_making.specs.Cut.{cut_orders, cut_columns, cut_head, cut_arrays};

use claim::{Head, Problem};
use layout::{COLUMN_COEFFICIENTS, ORDER, ROWS};

// head: of a problem.
// The largest order.
fn largest_order(head: &Head) -> usize
    requires { head.now.n ≤ most_rows }
    ensures { result ≡ max_below head.now.n (λ j. get_or head.now.orders j 0) }
{
    let orders = &head.orders[..head.n];
    orders.iter().copied().max().unwrap_or(0)
}

// head: of a problem. steps: how many are allowed.
// How many are done: the smaller of that and the largest order.
pub(crate) fn steps_done(head: &Head, steps: u32) -> usize
    requires { head.now.n ≤ most_rows }
    ensures { result ≡ min steps (max_below head.now.n (λ j. get_or head.now.orders j 0)) }
{
    (steps as usize).min(largest_order(head))
}

// orders: of the columns. done: a number of steps.
// Each replaced by the smaller of it and the steps.
fn smaller_orders(orders: [usize; ROWS], done: usize) -> [usize; ROWS]
    ensures { result ≡ cut_orders orders done }
{
    let mut cut = orders;
    for order in cut.iter_mut() {
        *order = (*order).min(done);
    }
    cut
}

// head: of a problem. done: a number of steps.
// That of the cut problem.
fn cut_head(head: &Head, done: usize) -> Head
    ensures { result ≡ cut_head head.now done }
{
    Head {
        orders: smaller_orders(head.orders, done),
        ..*head
    }
}

// f: the coefficients of F. done: a number of steps.
// Those of the cut problem: 0 from that power on.
fn cut_columns(f: &[u32; COLUMN_COEFFICIENTS], done: usize) -> [u32; COLUMN_COEFFICIENTS]
    ensures { result ≡ cut_columns f.now done }
{
    let mut cut = *f;
    for place in 0..COLUMN_COEFFICIENTS {
        if place % ORDER >= done {
            cut[place] = 0;
        }
    }
    cut
}

// done: a number of steps.
// The cut problem.
pub(crate) fn cut_problem(problem: &Problem, done: usize) -> Problem
    ensures { result ≡ cut_arrays problem.now done }
{
    Problem {
        head: cut_head(&problem.head, done),
        f: cut_columns(&problem.f, done),
    }
}
