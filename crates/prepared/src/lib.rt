// A problem in its prepared form (document 02, L4): reading it, and whether the form of some arrays is one that a problem file gives. A caller
// may hand in anything, so that every number of the arrays is looked at, p included: no seal that the caller holds would spare the test of p.
//
// The tests go from the cheap to the dear, and each stands for a part of `Canonical` (specs/Canonical.antt).
#![tactic(auto, unfolding(rules::specs::Sizes::most_rows, rules::specs::Sizes::most_order, rules::specs::Sizes::most_shift, rules::specs::Sizes::largest_prime, layout::specs::Flat::column_place))]

ghost use Rattle.std.specs.Prelude.{◌≡◌, ◌↔◌, true, ℕ, ◌*◌, ◌≤◌, ◌<◌, length, slice_index, EachIndex, IsTrue, OnOk};
ghost use Rattle.algebra.specs.Prime.{Prime};
ghost use Rattle.rules.specs.Sizes.{most_rows, most_order};
ghost use Rattle.rules.specs.Files.{read_problem};
ghost use Rattle.rules.specs.Prepared.{Gives, Given};
ghost use Rattle.layout.specs.Flat.{shift_at, filled, column_coefficients};
ghost use Rattle.layout.specs.Settles.{Settles};
ghost use Rattle.problem_file.specs.Values.{problem_value};
ghost use Rattle.prepared.specs.Form.{form_of};
ghost use Rattle.prepared.specs.Canonical.{Below, Sized, Order, Orders, Shift, Shifts, Numbers, Row, Rows, Column, Columns};

use claim::{Head, Problem};
use layout::{ORDER, PRIME, ROWS, SHIFT};
use primality::is_prime;
use problem_file::read_problem_into;
use verdict::Refusal;

// The numbers of a column of F.
const COLUMN: usize = ROWS * ORDER;

// The prime of the bench jobs. It is known to be one, and is not tested again.
const BENCH_PRIME: u32 = 251;

// The largest shift, and the smallest.
const HIGHEST: i32 = SHIFT as i32;

const LOWEST: i32 = -HIGHEST;

// numbers: any. limit: any number.
// Whether they are all below the limit. The loop counts those that are not: it has no branch and nothing but 32-bit numbers, so that it is
// done for four of them at once.
fn all_below(numbers: &[u32], limit: u32) -> bool
    requires { length numbers.now ≤ column_coefficients }
    ensures { Settles (Below numbers.now 0 (length numbers.now) limit) result }
{
    let mut over: u32 = 0;
    for x in numbers {
        over += u32::from(*x >= limit);
    }
    over == 0
}

// numbers: any.
// Whether they are all 0: their bits are put together, four numbers at once.
fn zeros(numbers: &[u32]) -> bool
    ensures { Settles (Below numbers.now 0 (length numbers.now) 1) result }
{
    let mut bits: u32 = 0;
    for x in numbers {
        bits |= *x;
    }
    bits == 0
}

// head: any numbers.
// Whether p, m and n are within their sizes.
fn sizes_given(head: &Head) -> bool
    ensures { Settles (Sized head.now.p head.now.m head.now.n) result }
{
    (1..=ROWS).contains(&head.m) && (1..=ROWS).contains(&head.n) && head.p <= PRIME
}

// orders: any numbers.
// Whether they are orders.
fn are_orders(orders: &[usize]) -> bool
    ensures { IsTrue result ↔ EachIndex orders.now (λ j. Order true (slice_index orders.now j)) }
{
    orders.iter().all(|d| (1..=ORDER).contains(d))
}

// orders: any numbers. n: the columns.
// Whether the first n are orders, and the others 0.
fn orders_given(orders: &[usize; ROWS], n: usize) -> bool
    requires { n ≤ most_rows }
    ensures { Settles (Orders n orders.now) result }
{
    are_orders(&orders[..n]) && orders[n..].iter().all(|d| *d == 0)
}

// shifts: any numbers.
// Whether they are shifts.
fn are_shifts(shifts: &[i32]) -> bool
    ensures { IsTrue result ↔ ((i : ℕ) → i < length shifts.now → Shift true (shift_at shifts.now i)) }
{
    shifts.iter().all(|s| (LOWEST..=HIGHEST).contains(s))
}

// shifts: any numbers. m: the rows.
// Whether the first m are shifts, and the others 0.
fn shifts_given(shifts: &[i32; ROWS], m: usize) -> bool
    requires { m ≤ most_rows }
    ensures { Settles (Shifts m shifts.now) result }
{
    are_shifts(&shifts[..m]) && shifts[m..].iter().all(|s| *s == 0)
}

// row: the coefficients of an entry of F. d: the order of its column. p: any number.
// Whether the first d are below p, and the others 0.
fn row_given(row: &[u32], d: usize, p: u32) -> bool
    requires d_le_most_order { d ≤ most_order }
    requires row_len { length row.now ≡ most_order }
    ensures { Settles (Row p d row.now 0) result }
{
    all_below(&row[..d], p) && zeros(&row[d..])
}

// column: the coefficients of a column of F. m: the rows. d: the column's order. p: any number.
// Whether each of its first m entries has d coefficients below p, and then zeros.
fn rows_given(column: &[u32], m: usize, d: usize, p: u32) -> bool
    requires m_le_most_rows { (m ≤ most_rows) × (d ≤ most_order) }
    requires column_len { length column.now ≡ most_rows * most_order }
    ensures { Settles (Rows p m d column.now 0) result }
{
    (0..m).all(|i| row_given(&column[i * ORDER..(i + 1) * ORDER], d, p))
}

// column: the coefficients of a column of F. m: the rows. d: the column's order. p: any number.
// Whether the column has m such entries, and then zeros.
fn column_given(column: &[u32], m: usize, d: usize, p: u32) -> bool
    requires m_le_most_rows { (m ≤ most_rows) × (d ≤ most_order) }
    requires column_len { length column.now ≡ most_rows * most_order }
    ensures { Settles (Column p m d column.now 0) result }
{
    rows_given(column, m, d, p) && zeros(&column[m * ORDER..])
}

// problem: its sizes and its orders are given.
// Whether F has n such columns, and then zeros.
fn columns_given(problem: &Problem) -> bool
    requires m_le_most_rows { (problem.now.head.m ≤ most_rows) × (problem.now.head.n ≤ most_rows) }
    requires orders { Orders problem.now.head.n problem.now.head.orders }
    ensures { Settles (Columns problem.now.head.p problem.now.head.m problem.now.head.n problem.now.head.orders problem.now.f) result }
{
    let (head, f) = (&problem.head, &problem.f);
    (0..head.n).all(|j| {
        let column = &f[j * COLUMN..(j + 1) * COLUMN];
        column_given(column, head.m, head.orders[j], head.p)
    }) && zeros(&f[head.n * COLUMN..])
}

// problem: the problem file, of any bytes. form: the coefficients of F all 0; where the problem goes, in its prepared form. Every number is 0 where
// it is refused.
// The refusal, if it is refused.
pub fn prepare(problem: &[u8], form: &mut Problem) -> Result<(), Refusal>
    requires { form.old.f ≡ filled column_coefficients 0 }
    ensures form_after { (result, form.new) ≡ problem_value (read_problem problem.now) }
    ensures gives { OnOk result (Gives problem.now (form_of form.new.head form.new.f)) }
{
    read_problem_into(problem, form)
}

// head: any numbers.
// Whether they are within their sizes, and 0 where nothing stands.
fn numbers_given(head: &Head) -> bool
    ensures { Settles (Numbers head.now) result }
{
    sizes_given(head) && orders_given(&head.orders, head.n) && shifts_given(&head.shifts, head.m)
}

// p: any number.
// Whether it is a prime.
fn prime_given(p: u32) -> bool
    ensures { Settles (Prime p) result }
{
    p == BENCH_PRIME || is_prime(p)
}

// problem: any numbers.
// Whether some problem file gives their form.
pub fn given(problem: &Problem) -> bool
    ensures { Settles (Given (form_of problem.now.head problem.now.f)) result }
{
    let head = &problem.head;
    numbers_given(head) && columns_given(problem) && prime_given(head.p)
}
