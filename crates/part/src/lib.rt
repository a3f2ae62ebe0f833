// The third service of document 01: the bytes that the verdict on two files points at. Any bytes may come in.
#![tactic(auto)]

ghost use Rattle.std.specs.Prelude.{◌≡◌, cond, ◌+◌, ◌-◌, ◌≤◌, eqb, length, get_or};
ghost use Rattle.rules.specs.Conditions.{sum_below};
ghost use Rattle.rules.specs.Sizes.{most_rows, most_order};
ghost use Rattle.rules.specs.RecordBytes.{head_bytes, column_bytes};
ghost use Rattle.rules.specs.Verdict.{verdict, numbers};
ghost use Rattle.rules.specs.Part.{pointed_at};
ghost use Rattle.laws.specs.Soundness.{longest_FC};
ghost use Rattle.layout.specs.Holds.{Ordered};
ghost use Rattle.unique.specs.OneResult.{SameReference};
ghost use Rattle.verdict.specs.Meant.{meant};
ghost use Rattle.part.specs.Parts.{PartIn, HasColumn, ColumnPart, part_of, start_of};

use claim::Head;
use judging::judge_files;
use reader::read_problem;
use verdict::{Fault, Verdict};

// The part of `size` bytes from `start` on, of the problem (file 0) or of the answer.
#[derive(Clone, Copy, Debug, PartialEq, Eq)]
pub struct Piece {
    pub file: u8,
    pub start: usize,
    pub size: usize,
}

// The first byte of the record that a refusal of reading names; of any other verdict, 0.
fn record_start(v: Verdict) -> u32
    ensures { result ≡ start_of (meant v) }
{
    match v {
        Err(Fault::Unread(refusal)) => refusal.start,
        _ => 0,
    }
}

// The bytes of an `FC` record of `m` rows and the order `d`.
#[tactic(auto, using(laws::specs::WriterLaws::rectangle_most), unfolding(rules::specs::Sizes::most_rows, rules::specs::Sizes::most_order, laws::specs::Soundness::longest_FC))]
fn column_bytes(m: usize, d: usize) -> usize
    requires { (m ≤ most_rows) × (d ≤ most_order) }
    ensures value { result ≡ column_bytes m d }
    ensures longest { result ≤ longest_FC }
{
    3 + 4 * m * d
}

// The first byte of the `FC` record of column `j`: `PR`, `OR`, `SH` and the columns before it stand before it.
#[tactic(auto, unfolding(rules::specs::Sizes::most_rows, rules::specs::Sizes::most_order, laws::specs::Soundness::longest_FC))]
fn column_start(head: &Head, j: usize) -> usize
    requires m_le_most_rows { (head.now.m ≤ most_rows) × ((head.now.n ≤ most_rows) × (j ≤ most_rows)) }
    requires ordered { Ordered head.now.orders }
    ensures { result ≡ head_bytes head.now.m head.now.n + sum_below j (λ k. column_bytes head.now.m (get_or head.now.orders k 0)) }
{
    let mut start = 8 + (2 + head.n) + (2 + 2 * head.m);
    for order in &head.orders[..j] {
        start += column_bytes(head.m, *order);
    }
    start
}

// The file of that number: 0 is the problem.
fn file_numbered<'a>(problem: &'a [u8], answer: &'a [u8], file: u8) -> &'a [u8]
    ensures { SameReference result (cond (eqb file 0) problem.entry answer.entry) }
{
    if file == 0 { problem } else { answer }
}

// The part from `start` to the file's end.
fn rest_of_file(problem: &[u8], answer: &[u8], file: u8, start: usize) -> Piece
    requires { start ≤ cond (eqb file 0) (length problem.now) (length answer.now) }
    ensures { part_of result ≡ part_of (record { file = file; start = start; size = cond (eqb file 0) (length problem.now) (length answer.now) - start }) }
{
    let size = file_numbered(problem, answer, file).len() - start;
    Piece { file, start, size }
}

// The `FC` record of column `j` in the problem.
fn column_record(problem: &[u8], j: usize) -> Piece
    requires { HasColumn problem.now j }
    ensures { ColumnPart problem.now j (part_of result) }
{
    let read = read_problem(problem).unwrap();
    let head = &read.head;
    let start = column_start(head, j);
    let size = column_bytes(head.m, head.orders[j]);
    Piece {
        file: 0,
        start,
        size,
    }
}

// The `CE` record in the answer.
fn evidence_record(problem: &[u8], answer: &[u8]) -> Piece
    requires { (numbers (verdict problem.now answer.now)).code ≡ 12 }
    ensures { part_of result ≡ pointed_at problem.now answer.now }
{
    let read = read_problem(problem).unwrap();
    let head = &read.head;
    let size = 2 + 4 * head.m * head.n;
    Piece {
        file: 1,
        start: answer.len() - size,
        size,
    }
}

// The part that the verdict `v` on the two files points at, by the code, as document 01 asks.
pub fn span(problem: &[u8], answer: &[u8], v: Verdict) -> Piece
    requires { meant v ≡ verdict problem.now answer.now }
    ensures { part_of result ≡ pointed_at problem.now answer.now }
{
    let found = verdict::numbers(v);
    match found.code {
        1..=8 => rest_of_file(problem, answer, found.file, record_start(v) as usize),
        11 => column_record(problem, found.at as usize),
        12 => evidence_record(problem, answer),
        _ => Piece {
            file: 1,
            start: 0,
            size: 0,
        },
    }
}

// That part itself.
pub fn cut<'a>(problem: &'a [u8], answer: &'a [u8], x: Piece) -> &'a [u8]
    requires { x.start + x.size ≤ cond (eqb x.file 0) (length problem.now) (length answer.now) }
    ensures { PartIn problem.entry answer.entry result (part_of x) }
{
    &file_numbered(problem, answer, x.file)[x.start..x.start + x.size]
}

// problem, answer: the two files.
// The bytes that the verdict on them points at: a part of one of them, and no copy.
pub fn pointed_at<'a>(problem: &'a [u8], answer: &'a [u8]) -> &'a [u8]
    ensures { PartIn problem.entry answer.entry result (pointed_at problem.now answer.now) }
{
    let v = judge_files(problem, answer);
    let x = span(problem, answer, v);
    cut(problem, answer, x)
}
