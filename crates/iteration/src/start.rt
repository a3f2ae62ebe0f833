// What the iteration starts from: "With 0 steps P is the identity", so that P·F is F.
#![tactic(auto, unfolding(rules::specs::Sizes::most_rows, rules::specs::Sizes::most_order, rules::specs::Sizes::most_length, layout::specs::Flat::square_place, layout::specs::Flat::entry_place, layout::specs::Flat::column_place, crate::specs::Begin::start_number))]

ghost use Rattle.std.specs.Prelude.{◌≡◌, ◌≤◌, ◌<◌};
ghost use Rattle.rules.specs.Sizes.{most_rows};
ghost use Rattle.iteration.specs.Begin.{Unit, start_number, Copied};

use crate::state::State;
use claim::Problem;
use layout::{
    COLUMN_COEFFICIENTS, ENTRY_COEFFICIENTS, LENGTH, ORDER, ROWS, column_place, entry_place,
};

// The coefficients of the identity with m rows.
fn identity(m: usize) -> [u32; ENTRY_COEFFICIENTS]
    requires { m ≤ most_rows }
    ensures { Unit m result }
{
    let mut entries = [0; ENTRY_COEFFICIENTS];
    for i in 0..m {
        entries[entry_place(i, i, 0)] = 1;
    }
    entries
}

// f: the coefficients of F. i, j: a row and a column. t: a power.
// The coefficient there, 0 from the largest order on.
fn start_number(f: &[u32; COLUMN_COEFFICIENTS], i: usize, j: usize, t: usize) -> u32
    requires { (i < most_rows) × (j < most_rows) }
    ensures { result ≡ start_number f.now i j t }
{
    if t < ORDER {
        f[column_place(i, j, t)]
    } else {
        0
    }
}

// f: the coefficients of F.
// The same, laid out as those of P are.
fn products(f: &[u32; COLUMN_COEFFICIENTS]) -> [u32; ENTRY_COEFFICIENTS]
    ensures { Copied f.now result }
{
    let mut rows = [0; ENTRY_COEFFICIENTS];
    for (place, number) in rows.iter_mut().enumerate() {
        let entry = place / LENGTH;
        *number = start_number(f, entry / ROWS, entry % ROWS, place % LENGTH);
    }
    rows
}

// problem: one with no more rows than are allowed.
// P, P·F and the row degrees before any step.
pub(crate) fn start_of(problem: &Problem) -> State
    requires { problem.now.head.m ≤ most_rows }
    ensures entries { Unit problem.now.head.m result.entries }
    ensures products { Copied problem.now.f result.products }
    ensures degrees { result.degrees ≡ problem.now.head.shifts }
{
    State {
        entries: identity(problem.head.m),
        products: products(&problem.f),
        degrees: problem.head.shifts,
    }
}
