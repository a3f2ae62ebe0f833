// The `PE` records of a basis, written into a lent buffer.
ghost use Rattle.std.specs.Prelude.{◌≡◌, ◌+◌, ◌*◌, ◌≤◌, ◌<◌, length};
ghost use Rattle.rules.specs.Sizes.{most_rows, most_length};
ghost use Rattle.rules.specs.Writer.{bytes, write_each, write_all, write_PE, write_basis};
ghost use Rattle.writer.specs.Appended.{Appended};
ghost use Rattle.layout.specs.Flat.{length_at};
ghost use Rattle.layout.specs.Holds.{Short};
ghost use Rattle.basis_making.specs.Text.{entry_room, numbers, entry, row, rows};

use claim::Basis;
use layout::{entry_place, square_place};
use writer::{put_text, put4};

// Puts the low byte of v at `at` and gives the place after it.
fn put1(out: &mut [u8], at: usize, v: usize) -> usize
    requires { at < length out.old }
    ensures { Appended out.old out.new at result (bytes 1 v) }
{
    out[at] = (v % 256) as u8;
    at + 1
}

// basis: P. i, j: a row and a column. count: how many coefficients the entry there has.
// Puts them at `at` and gives the place after them.
fn put_numbers(out: &mut [u8], at: usize, basis: &Basis, i: usize, j: usize, count: usize) -> usize
    requires count_in_bounds { at + 4 * count ≤ length out.old }
    requires i_lt_most_rows { (i < most_rows) × ((j < most_rows) × (count ≤ most_length)) }
    ensures { Appended out.old out.new at result (write_all (bytes 4) (numbers basis.now i j count)) }
{
    let mut end = at;
    for t in 0..count {
        end = put4(out, end, basis.entries[entry_place(i, j, t)]);
    }
    end
}

// basis: P. i, j: a row and a column.
// Puts the `PE` record of the entry there at `at` and gives the place after it.
#[tactic(auto, using(laws::specs::ByteNumbers::length_bytes), unfolding(rules::specs::Sizes::most_rows, rules::specs::Sizes::most_length, layout::specs::Flat::square_place))]
fn put_entry(out: &mut [u8], at: usize, basis: &Basis, i: usize, j: usize) -> usize
    requires entry_room_in_bounds { at + entry_room ≤ length out.old }
    requires i_lt_most_rows { (i < most_rows) × ((j < most_rows) × Short basis.now.lengths) }
    ensures { Appended out.old out.new at result (write_PE i j (entry basis.now i j)) }
{
    let count = basis.lengths[square_place(i, j)];
    let marked = put_text(out, at, b"PE");
    let row = put1(out, marked, i);
    let column = put1(out, row, j);
    let counted = put1(out, column, count);
    put_numbers(out, counted, basis, i, j, count)
}

// basis: P, with m columns. i: a row.
// Puts the records of its entries at `at` and gives the place after them.
fn put_row(out: &mut [u8], at: usize, basis: &Basis, m: usize, i: usize) -> usize
    requires entry_room_in_bounds { at + m * entry_room ≤ length out.old }
    requires i_lt_most_rows { (i < most_rows) × ((m ≤ most_rows) × Short basis.now.lengths) }
    ensures { Appended out.old out.new at result (write_each (write_PE i) 0 (row basis.now m i)) }
{
    let mut end = at;
    for j in 0..m {
        end = put_entry(out, end, basis, i, j);
    }
    end
}

// basis: P, with m rows and columns.
// Puts the records of all entries at the front and gives the place after them.
pub(crate) fn put_basis(out: &mut [u8], basis: &Basis, m: usize) -> usize
    requires entry_room_in_bounds { m * (m * entry_room) ≤ length out.old }
    requires m_le_most_rows { (m ≤ most_rows) × Short basis.now.lengths }
    ensures { Appended out.old out.new 0 result (write_basis (rows basis.now m)) }
{
    let mut end = 0;
    for i in 0..m {
        end = put_row(out, end, basis, m, i);
    }
    end
}
