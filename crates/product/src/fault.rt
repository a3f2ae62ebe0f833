// Document 01, condition 3: the first place, row by row and in it column by column, where P·F has a coefficient below the order that
// is not 0, or one at the order that differs from C.
ghost use Rattle.std.specs.Prelude.{◌≡◌, ◌<◌, ◌≤◌, ℕ, Bool, get_or};
ghost use Rattle.rules.specs.Conditions.{first_place};
ghost use Rattle.rules.specs.Sizes.{most_rows};
ghost use Rattle.field.specs.Modulus.{modulus_of};
ghost use Rattle.layout.specs.Holds.{Ordered};
ghost use Rattle.product.specs.Product.{Factors, flat_product};
ghost use Rattle.product.specs.Faults.{flat_low_fault, flat_order_fault};

use crate::coefficient::coefficient;
use claim::{Answer, Basis, Problem};
use field::Modulus;
use layout::square_place;

// problem, modulus, basis: of a claim. i, j: a row and a column.
// Whether some coefficient of P·F there below the column's order is not 0.
fn low_fault(problem: &Problem, modulus: Modulus, basis: &Basis, i: usize, j: usize) -> bool
    requires factors { Factors problem.now.head.p basis.now.entries basis.now.lengths problem.now.f }
    requires modulus_value { (modulus ≡ modulus_of problem.now.head.p) × Ordered problem.now.head.orders }
    requires m_le_most_rows { (problem.now.head.m ≤ most_rows) × ((i < most_rows) × (j < most_rows)) }
    ensures { result ≡ flat_low_fault problem.now.head problem.now.f basis.now.entries i j }
{
    (0..problem.head.orders[j]).any(|k| coefficient(problem, modulus, basis, i, j, k) != 0)
}

// problem, modulus, basis: of a claim. i, j: a row and a column.
// The coefficient of P·F there at the column's order, modulo p: the number of C that is due, and that of the evidence.
pub fn order_coefficient(
    problem: &Problem,
    modulus: Modulus,
    basis: &Basis,
    i: usize,
    j: usize,
) -> u32
    requires factors { Factors problem.now.head.p basis.now.entries basis.now.lengths problem.now.f }
    requires modulus_value { (modulus ≡ modulus_of problem.now.head.p) × Ordered problem.now.head.orders }
    requires m_le_most_rows { (problem.now.head.m ≤ most_rows) × ((i < most_rows) × (j < most_rows)) }
    ensures { result ≡ (flat_product problem.now.head.p basis.now.entries problem.now.f problem.now.head.m i j (get_or problem.now.head.orders j 0)).0 }
{
    coefficient(problem, modulus, basis, i, j, problem.head.orders[j])
}

// problem, modulus, answer: of a claim. i, j: a row and a column.
// Whether the coefficient of P·F there at the column's order differs from C's number.
#[tactic(auto, unfolding(rules::specs::Sizes::most_rows, layout::specs::Flat::square_place))]
fn order_fault(problem: &Problem, modulus: Modulus, answer: &Answer, i: usize, j: usize) -> bool
    requires factors { Factors problem.now.head.p answer.now.basis.entries answer.now.basis.lengths problem.now.f }
    requires modulus_value { (modulus ≡ modulus_of problem.now.head.p) × Ordered problem.now.head.orders }
    requires m_le_most_rows { (problem.now.head.m ≤ most_rows) × ((i < most_rows) × (j < most_rows)) }
    ensures { result ≡ flat_order_fault problem.now.head problem.now.f answer.now.basis.entries answer.now.c i j }
{
    let due = order_coefficient(problem, modulus, &answer.basis, i, j);
    let given = answer.c[square_place(i, j)];
    due != given
}

// m, n: how many rows and columns. fault: whether the place in a row and a column has a fault.
// "the first row that has a fault and in it the first column", of the m rows and the n columns.
fn first_place<F: Fn(usize, usize) -> bool>(m: usize, n: usize, fault: F) -> Option<(usize, usize)>
    requires { (i j : ℕ) → i < m → j < n → F.pre fault i j }
    ensures { (faults : ℕ → ℕ → Bool) → ((i j : ℕ) (r : Bool) → i < m → j < n → F.post fault i j r → r ≡ faults i j) → result ≡ first_place m n faults }
{
    for i in 0..m {
        let column = (0..n).find(
            |j|
                requires { F.pre fault i j.now }
            { fault(i, *j) },
        );
        if let Some(j) = column {
            return Some((i, j));
        }
    }
    None
}

// problem, modulus, basis: of a claim.
// The first place of a fault below the orders.
pub fn first_low_fault(problem: &Problem, modulus: Modulus, basis: &Basis) -> Option<(usize, usize)>
    requires factors { Factors problem.now.head.p basis.now.entries basis.now.lengths problem.now.f }
    requires modulus_value { (modulus ≡ modulus_of problem.now.head.p) × Ordered problem.now.head.orders }
    requires m_le_most_rows { (problem.now.head.m ≤ most_rows) × (problem.now.head.n ≤ most_rows) }
    ensures { result ≡ first_place problem.now.head.m problem.now.head.n (flat_low_fault problem.now.head problem.now.f basis.now.entries) }
{
    first_place(problem.head.m, problem.head.n, |i, j| {
        low_fault(problem, modulus, basis, i, j)
    })
}

// problem, modulus, answer: of a claim.
// The first place of a fault at the orders.
pub fn first_order_fault(
    problem: &Problem,
    modulus: Modulus,
    answer: &Answer,
) -> Option<(usize, usize)>
    requires factors { Factors problem.now.head.p answer.now.basis.entries answer.now.basis.lengths problem.now.f }
    requires modulus_value { (modulus ≡ modulus_of problem.now.head.p) × Ordered problem.now.head.orders }
    requires m_le_most_rows { (problem.now.head.m ≤ most_rows) × (problem.now.head.n ≤ most_rows) }
    ensures { result ≡ first_place problem.now.head.m problem.now.head.n (flat_order_fault problem.now.head problem.now.f answer.now.basis.entries answer.now.c) }
{
    first_place(problem.head.m, problem.head.n, |i, j| {
        order_fault(problem, modulus, answer, i, j)
    })
}
