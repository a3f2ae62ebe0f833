// Document 02, L5, "Judging by a drawn point": whether a claim's product may pass, by a drawn row u and a drawn point. Source document 000,
// section 3. No product is formed: u·P comes first, a row of m polynomials, and the values of its entries at the point up to each power. With
// these, Horner's rule gives the value of each column of u·P·F that is cut at the order, from the highest power down.
#![tactic(auto, unfolding(rules::specs::Sizes::most_rows, rules::specs::Sizes::most_order, rules::specs::Sizes::most_length, rules::specs::Sizes::largest_prime, layout::specs::Flat::column_place, layout::specs::Flat::entry_place, layout::specs::Flat::square_place))]

ghost use Rattle.std.specs.Prelude.{◌≡◌, ◌+◌, ◌-◌, ◌*◌, ◌%◌, ◌<◌, ◌≤◌, get_or, length};
ghost use Rattle.rules.specs.Sizes.{most_rows, most_order, most_length, largest_prime};
ghost use Rattle.layout.specs.Flat.{column_place};
ghost use Rattle.layout.specs.Holds.{Each, Ordered};
ghost use Rattle.claim.specs.Sound.{SoundHead};
ghost use Rattle.drawn.specs.Sums.{room, FirstBelow, plus_row};
ghost use Rattle.drawn.specs.Values.{TimesPoint, AddedPower, Table};
ghost use Rattle.drawn.specs.Columns.{column_value};
ghost use Rattle.drawn.specs.Asked.{AskedIn, Largest};
ghost use Rattle.drawn.specs.Claims.{EveryColumnIn};

mod sum;

use crate::sum::plus_row;
use claim::{Answer, Basis, Head, Problem};
use field::{mul_mod, neg_mod};
use layout::{COLUMN_COEFFICIENTS, LENGTH, ORDER, ROWS, SQUARE, column_place, entry_place};

type Row = [u32; ROWS];

// The values up to each power.
type Values = [Row; LENGTH];

// row: any numbers. p: above 0.
// Each of them times the point, modulo p.
fn times_point(row: &mut [u32], point: u32, p: u32)
    requires { 0 < p }
    ensures { TimesPoint p (length row.old) row.old point row.new }
{
    for x in row.iter_mut() {
        *x = mul_mod(*x, point, p);
    }
}

// values, row: numbers below p, at most as many as there may be rows. basis: of a claim. x: a power.
// The values, to each of which the products of the row with a column of P at that power are added, modulo p.
fn add_power(values: &mut [u32], row: &[u32], basis: &Basis, x: usize, p: u32)
    requires p_nonzero { (0 < p) × ((p ≤ largest_prime) × (x < most_length)) }
    requires below { Each p values.old × (Each p row.now × Each p basis.now.entries) }
    requires length_le_most_rows { (length values.old ≤ most_rows) × (length row.now ≤ most_rows) }
    ensures { AddedPower p (length row.now) (length values.old) values.old row.now basis.now.entries x values.new }
{
    for (l, value) in values.iter_mut().enumerate() {
        let at = entry_place(0, l, x);
        *value = plus_row(u64::from(*value), row, &basis.entries, at, ROWS * LENGTH, p);
    }
}

// head, basis: of a claim. u: its first m numbers are below p. count: how many powers are asked for.
// The values at the point of the entries of u·P, up to each of the first `count` powers: for each power a row of m.
fn values(head: &Head, basis: &Basis, u: &Row, point: u32, count: usize) -> Values
    requires head { SoundHead head.now × (count ≤ most_length) }
    requires first_below { FirstBelow head.now.m head.now.p u.now × Each head.now.p basis.now.entries }
    ensures { Table head.now.p head.now.m u.now basis.now.entries point count result }
{
    let m = head.m;
    let mut table = [[0; ROWS]; LENGTH];
    let mut row = *u;
    let mut sums = [0; ROWS];
    for x in 0..count {
        add_power(&mut sums[..m], &row[..m], basis, x, head.p);
        table[x] = sums;
        times_point(&mut row[..m], point, head.p);
    }
    table
}

// c: of a claim. u: m numbers, below p. j: a column.
// The negative of C's column, its rows combined by u.
fn first_value(c: &[u32; SQUARE], u: &[u32], j: usize, p: u32) -> u32
    requires p_nonzero { (0 < p) × ((p ≤ largest_prime) × (j < most_rows)) }
    requires below { (length u.now ≤ most_rows) × (Each p u.now × Each p c.now) }
    ensures { result ≡ (p - (plus_row p (length u.now) 0 u.now c.now j most_rows).0) % p }
{
    neg_mod(plus_row(0, u, c, j, ROWS, p), p)
}

// value: what Horner's rule has, times the point. row: m values, below p. f: of a claim. j, k: a column and a power.
// That and the coefficients of F's column at that power, each times its value of the row, modulo p: the next step.
fn next_value(
    value: u64,
    row: &[u32],
    f: &[u32; COLUMN_COEFFICIENTS],
    j: usize,
    k: usize,
    p: u32,
) -> u32
    requires p_nonzero { (0 < p) × ((p ≤ largest_prime) × (value < room p)) }
    requires in_bounds { (j < most_rows) × (k < most_order) }
    requires below { (length row.now ≤ most_rows) × (Each p row.now × Each p f.now) }
    ensures { result ≡ (plus_row p (length row.now) value row.now f.now (column_place 0 j k) most_order).0 }
{
    let at = column_place(0, j, k);
    plus_row(value, row, f, at, ORDER, p)
}

// problem, answer: a claim. u, point: the numbers drawn. table: the values of u·P up to each power. j: a column.
// The value at the point of the column of the combined rows, cut at its order, less C's there.
fn column_value(
    problem: &Problem,
    answer: &Answer,
    u: &Row,
    point: u32,
    table: &Values,
    j: usize,
) -> u32
    requires asked { AskedIn problem.now answer.now u.now point }
    requires j_lt_n { j < problem.now.head.n }
    requires table { Table problem.now.head.p problem.now.head.m u.now answer.now.basis.entries point (get_or problem.now.head.orders j 0 + 1) table.now }
    ensures { result ≡ (column_value problem.now.head problem.now.f answer.now.basis.entries answer.now.c u.now point j).0 }
{
    let head = &problem.head;
    let order = head.orders[j];
    let mut value = first_value(&answer.c, &u[..head.m], j, head.p);
    for k in (0..order).rev() {
        let powered = u64::from(value) * u64::from(point);
        value = next_value(
            powered,
            &table[order - k][..head.m],
            &problem.f,
            j,
            k,
            head.p,
        );
    }
    value
}

// head: of a claim.
// The largest order.
fn largest_order(head: &Head) -> usize
    requires { Ordered head.now.orders × (head.now.n ≤ most_rows) }
    ensures { Largest head.now.n head.now.orders result }
{
    let orders = &head.orders[..head.n];
    orders.iter().copied().max().unwrap_or(0)
}

// problem, answer: a claim. u, point: the numbers drawn.
// "every column gives 0"
pub fn every_column_zero(problem: &Problem, answer: &Answer, u: &[u32; ROWS], point: u32) -> bool
    requires { AskedIn problem.now answer.now u.now point }
    ensures { EveryColumnIn problem.now answer.now u.now point result }
{
    let head = &problem.head;
    let table = values(head, &answer.basis, u, point, largest_order(head) + 1);
    for j in 0..head.n {
        if column_value(problem, answer, u, point, &table, j) != 0 {
            return false;
        }
    }
    true
}
