// The records of the problem file.
ghost use Rattle.std.specs.Prelude.{◌≡◌, ℕ, ◌+◌, ◌≤◌, ◌<◌, length, get_or};
ghost use Rattle.rules.specs.Sizes.{most_rows, most_order};
ghost use Rattle.rules.specs.Reader.{each, field, unless};
ghost use Rattle.rules.specs.Files;
ghost use Rattle.rules.specs.Files.{one_to, shift_reader};
ghost use Rattle.place.specs.Places.{place, going};
ghost use Rattle.layout.specs.Flat.{filled, column_coefficients};
ghost use Rattle.storing.specs.Storing.{into};
ghost use Rattle.storing.specs.Flat.{list_into, shifts_into, put_column, columns_into, body_into};
ghost use Rattle.problem_file.specs.Values.{body_reader};

use claim::{Head, Problem};
use cursor::{read_due, read_mark, read_shift, read_size, signed16};
use layout::{ORDER, column_place};
use place::{Place, Stop, closed, finish, opened};
use runs::block;

// The marks, low byte first.
const OR: u32 = 0x4F + 256 * 0x52;

const SH: u32 = 0x53 + 256 * 0x48;

const FC: u32 = 0x46 + 256 * 0x43;

// s: the file. q: the place of the first order. out: where the orders go, as many as it has room for.
// How the reading goes on after them.
fn order_list(s: &[u8], q: Place, out: &mut [usize]) -> Result<Place, Stop>
    ensures { going result out.new ≡ into (list_into out.old) (each (length out.old) (λ j. field 1 (unless 3 (one_to most_order))) s.now (place q)) }
{
    let mut here = q;
    for order in out.iter_mut() {
        let (v, next) = read_size(s, here, ORDER as u32)?;
        *order = v as usize;
        here = next;
    }
    Ok(here)
}

// s: the file. q: the place of the first shift. out: where the shifts go, as many as it has room for.
// How the reading goes on after them.
fn shift_list(s: &[u8], q: Place, out: &mut [i32]) -> Result<Place, Stop>
    ensures { going result out.new ≡ into (shifts_into out.old) (each (length out.old) (λ i. shift_reader) s.now (place q)) }
{
    let mut here = q;
    for shift in out.iter_mut() {
        let (v, next) = read_shift(s, here)?;
        *shift = signed16(v);
        here = next;
    }
    Ok(here)
}

// s: the file. q: the place of the `OR` record. out: where the columns' orders go, one for each column.
// How the reading goes on after the record.
fn read_orders(s: &[u8], q: Place, out: &mut [usize]) -> Result<Place, Stop>
    requires { q.number < 65535 }
    ensures { going result out.new ≡ into (list_into out.old) (Files.OR (length out.old) s.now (place q)) }
{
    let (_, q) = read_mark(s, opened(q), OR)?;
    closed(order_list(s, q, out))
}

// s: the file. q: the place of the `SH` record. out: where the rows' shifts go, one for each row.
// How the reading goes on after the record.
fn read_shifts(s: &[u8], q: Place, out: &mut [i32]) -> Result<Place, Stop>
    requires { q.number < 65535 }
    ensures { going result out.new ≡ into (shifts_into out.old) (Files.SH (length out.old) s.now (place q)) }
{
    let (_, q) = read_mark(s, opened(q), SH)?;
    closed(shift_list(s, q, out))
}

// s: the file. q: the place of the `FC` record of column j. head: the problem's numbers: the record has m rows of as many coefficients modulo p
// as the column's order says. out: where they go.
// How the reading goes on after the record.
fn read_column(s: &[u8], q: Place, head: &Head, j: usize, out: &mut [u32]) -> Result<Place, Stop>
    requires { (q.number < 65535) × (head.now.m ≤ most_rows) × (get_or head.now.orders j 0 ≤ most_order) × (j < most_rows) × (length out.old ≡ column_coefficients) }
    ensures { going result out.new ≡ into (put_column out.old j) (Files.FC head.now.p head.now.m (get_or head.now.orders j 0) j s.now (place q)) }
{
    let (_, q) = read_mark(s, opened(q), FC)?;
    let (_, q) = read_due(s, q, j as u32)?;
    closed(block(
        s,
        q,
        head.p,
        head.m,
        head.orders[j],
        out,
        column_place(0, j, 0),
        ORDER,
    ))
}

// s: the file. q: the place of the first `FC` record. head: the problem's numbers. out: where the coefficients of F go.
// How the reading goes on after the records, one for each column.
fn read_columns(s: &[u8], q: Place, head: &Head, out: &mut [u32]) -> Result<Place, Stop>
    requires n_bound { (q.number + head.now.n < 65535) × (head.now.m ≤ most_rows) × (head.now.n ≤ most_rows) }
    requires by_index { (j : ℕ) → get_or head.now.orders j 0 ≤ most_order }
    requires out_len { length out.old ≡ column_coefficients }
    ensures { going result out.new ≡ into (columns_into out.old) (each head.now.n (λ j. Files.FC head.now.p head.now.m (get_or head.now.orders j 0) j) s.now (place q)) }
{
    let mut here = q;
    for j in 0..head.n {
        here = read_column(s, here, head, j, out)?;
    }
    Ok(here)
}

// s: the file. q: the place after its `PR` record. problem: has what that record holds; where the rest goes, with orders all 0.
// How the reading goes on, which is at the file's end. What the `PR` record holds stays.
pub(crate) fn read_body(s: &[u8], q: Place, problem: &mut Problem) -> Result<Place, Stop>
    requires number_bound { (q.number < 2) × (problem.old.head.m ≤ most_rows) × (problem.old.head.n ≤ most_rows) }
    requires orders_value { problem.old.head.orders ≡ filled most_rows 0 }
    requires shifts_len { length problem.old.head.shifts ≡ most_rows }
    ensures kept { (problem.new.head.p ≡ problem.old.head.p) × (problem.new.head.m ≡ problem.old.head.m) × (problem.new.head.n ≡ problem.old.head.n) }
    ensures read { going result (problem.new.head.orders, problem.new.head.shifts, problem.new.f) ≡ into (body_into (problem.old.head.orders, problem.old.head.shifts, problem.old.f)) (body_reader problem.old.head.p problem.old.head.m problem.old.head.n s.now (place q)) }
{
    let head = &mut problem.head;
    let q = read_orders(s, q, &mut head.orders[..head.n])?;
    let q = read_shifts(s, q, &mut head.shifts[..head.m])?;
    let q = read_columns(s, q, &problem.head, &mut problem.f)?;
    finish(s, q)
}
