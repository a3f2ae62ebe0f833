// Document 01, condition 3: the coefficients of P·F modulo p.
ghost use Rattle.std.specs.Prelude.{◌≡◌, ◌+◌, ◌*◌, ◌-◌, ◌%◌, ◌^◌, ◌<◌, ◌≤◌, length};
ghost use Rattle.rules.specs.Sizes.{most_rows, most_order, most_length};
ghost use Rattle.field.specs.Modulus.{cut, modulus_of, Made};
ghost use Rattle.layout.specs.Holds.{Each, Padded, Short};
ghost use Rattle.product.specs.Total.{Grown, Within, Summed};
ghost use Rattle.product.specs.Product.{Factors, dot, first_power, convolved, entry_part, column_part, product_number, flat_product};

use claim::{Basis, Problem};
use field::{CUT, Modulus};
use layout::{ORDER, column_place, entry_place, square_place};

// A sum of products, each cut in two, so that sums of the parts fit: high · 2^40 + low.
#[derive(Clone, Copy)]
struct Total {
    high: u64,
    low: u64,
}

// total: a sum. up, down: as many coefficients of P as of F, which go with each other in the one's order and against the other's.
// The sum with the products of the coefficients added.
fn add_products(total: Total, up: &[u32], down: &[u32]) -> Total
    requires each { Each (2 ^ 31) up.now × Each (2 ^ 31) down.now }
    requires within { Within (2 ^ 10) total.high total.low }
    requires paired { (length up.now ≡ length down.now) × (length up.now ≤ 2 ^ 10) }
    ensures { Grown (length up.now) total.high total.low (dot up.now down.now 0 (length down.now - 1) (length up.now)) result.high result.low }
{
    let mut high = total.high;
    let mut low = total.low;
    for (t, x) in up.iter().enumerate() {
        let product = u64::from(*x) * u64::from(down[down.len() - 1 - t]);
        high += product / CUT;
        low += product % CUT;
    }
    Total { high, low }
}

// k: a power, at most the largest order.
// The first power of P's entries that goes with a coefficient of F to the power k.
#[tactic(auto, unfolding(rules::specs::Sizes::most_order, crate::specs::Product::first_power))]
fn first_power(k: usize) -> usize
    requires { k ≤ most_order }
    ensures { result ≡ first_power k }
{
    (k + 1).saturating_sub(ORDER)
}

// total: a sum. p: the coefficients of an entry of P. f: those of one of F. k: a power, at most the largest order.
// The sum with the products added that the two entries give to the power k.
#[tactic(auto, unfolding(rules::specs::Sizes::most_order, rules::specs::Sizes::most_length, crate::specs::Product::first_power))]
fn add_pair(total: Total, p: &[u32], f: &[u32], k: usize) -> Total
    requires each { Each (2 ^ 31) p.now × Each (2 ^ 31) f.now }
    requires within { Within (2 ^ 10) total.high total.low }
    requires lengths { (length p.now ≤ most_length) × ((length f.now ≡ most_order) × (k ≤ most_order)) }
    ensures { Grown most_length total.high total.low (convolved p.now f.now k) result.high result.low }
{
    let first = first_power(k);
    let end = p.len().min(k + 1);
    if end <= first {
        return total; // no coefficient goes with another
    }
    add_products(total, &p[first..end], &f[k + 1 - end..k + 1 - first])
}

// basis: P. i, j: a row and a column.
// The coefficients of its entry there.
#[tactic(auto, unfolding(rules::specs::Sizes::most_rows, rules::specs::Sizes::most_length, layout::specs::Flat::square_place, layout::specs::Flat::entry_place))]
fn entry(basis: &Basis, i: usize, j: usize) -> &[u32]
    requires short { Short basis.now.lengths }
    requires within { (i < most_rows) × (j < most_rows) }
    ensures value { result.now ≡ entry_part basis.now.entries basis.now.lengths i j }
    ensures short { length result.now ≤ most_length }
{
    let start = entry_place(i, j, 0);
    &basis.entries[start..start + basis.lengths[square_place(i, j)]]
}

// problem: of a claim. i, j: a row and a column.
// The coefficients of F's entry there, zeros where it has fewer than the largest order.
#[tactic(auto, unfolding(rules::specs::Sizes::most_rows, rules::specs::Sizes::most_order, layout::specs::Flat::column_place))]
fn column(problem: &Problem, i: usize, j: usize) -> &[u32]
    requires { (i < most_rows) × (j < most_rows) }
    ensures value { result.now ≡ column_part problem.now.f i j }
    ensures long { length result.now ≡ most_order }
{
    let start = column_place(i, j, 0);
    &problem.f[start..start + ORDER]
}

// problem, basis: of a claim. i, j: a row and a column. k: a power, at most the largest order.
// The sum of the products that make the coefficient of P·F there at that power.
fn entry_total(problem: &Problem, basis: &Basis, i: usize, j: usize, k: usize) -> Total
    requires each { Each (2 ^ 31) basis.now.entries × (Each (2 ^ 31) problem.now.f × Padded most_rows basis.now.entries basis.now.lengths) }
    requires m_le_most_rows { (problem.now.head.m ≤ most_rows) × ((i < most_rows) × ((j < most_rows) × (k ≤ most_order))) }
    ensures { Summed (most_rows * most_length) (product_number basis.now.entries problem.now.f problem.now.head.m i j k) result.high result.low }
{
    let mut total = Total { high: 0, low: 0 };
    for l in 0..problem.head.m {
        total = add_pair(total, entry(basis, i, l), column(problem, l, j), k);
    }
    total
}

// total: a sum of products.
// The sum modulo p.
fn residue(total: Total, modulus: Modulus) -> u32
    requires made { Made modulus }
    requires within { Within (2 ^ 10) total.high total.low }
    ensures { result ≡ (total.high * cut + total.low) % modulus.p }
{
    let folded = total.high * u64::from(modulus.fold) + total.low;
    (folded % u64::from(modulus.p)) as u32
}

// problem, modulus, basis: of a claim. i, j: a row and a column. k: a power, at most the largest order.
// The coefficient of P·F there at that power, modulo p.
pub(crate) fn coefficient(
    problem: &Problem,
    modulus: Modulus,
    basis: &Basis,
    i: usize,
    j: usize,
    k: usize,
) -> u32
    requires factors { Factors problem.now.head.p basis.now.entries basis.now.lengths problem.now.f }
    requires m_le_most_rows { (problem.now.head.m ≤ most_rows) × ((i < most_rows) × ((j < most_rows) × (k ≤ most_order))) }
    requires modulus_value { modulus ≡ modulus_of problem.now.head.p }
    ensures { result ≡ (flat_product problem.now.head.p basis.now.entries problem.now.f problem.now.head.m i j k).0 }
{
    let total = entry_total(problem, basis, i, j, k);
    residue(total, modulus)
}
