// The records of the answer file.
ghost use Rattle.std.specs.Prelude.{◌≡◌, ◌+◌, ◌≤◌, ◌<◌, length};
ghost use Rattle.rules.specs.Sizes.{most_rows};
ghost use Rattle.rules.specs.Reader.{each};
ghost use Rattle.rules.specs.Files;
ghost use Rattle.rules.specs.Files.{entries_reader};
ghost use Rattle.place.specs.Places.{place, going, taken};
ghost use Rattle.layout.specs.Flat.{square};
ghost use Rattle.storing.specs.Storing.{into};
ghost use Rattle.storing.specs.Flat.{put_entry, row_into, entries_into, evidence_into, answer_into};
ghost use Rattle.answer_file.specs.Counts.{count_reader};
ghost use Rattle.answer_file.specs.Values.{answer_parts};

use claim::{Answer, Basis, Head};
use cursor::{read_count, read_due, read_mark};
use layout::{LENGTH, ROWS, entry_place, square_place};
use place::{Place, Stop, closed, finish, opened};
use runs::{block, run};

// The marks, low byte first.
const PE: u32 = 0x50 + 256 * 0x45;

const CE: u32 = 0x43 + 256 * 0x45;

// s: the file. q: the place after the mark of a `PE` record. i and j: the row and the column that are due.
// The count of its coefficients and the place after it, or the refusal.
fn entry_count(s: &[u8], q: Place, i: usize, j: usize) -> Result<(u32, Place), Stop>
    requires { (i < most_rows) × (j < most_rows) }
    ensures { taken result ≡ count_reader i j s.now (place q) }
{
    let (_, q) = read_due(s, q, i as u32)?;
    let (_, q) = read_due(s, q, j as u32)?;
    read_count(s, q, LENGTH as u32)
}

// s: the file. q: the place of the `PE` record of row i and column j, modulo p. basis: where its length and its coefficients go.
// How the reading goes on after the record.
fn read_entry(
    s: &[u8],
    q: Place,
    p: u32,
    i: usize,
    j: usize,
    basis: &mut Basis,
) -> Result<Place, Stop>
    requires { (q.number < 65535) × (i < most_rows) × (j < most_rows) }
    ensures { going result (basis.new.lengths, basis.new.entries) ≡ into (put_entry i (basis.old.lengths, basis.old.entries) j) (Files.PE p i j s.now (place q)) }
{
    let (_, q) = read_mark(s, opened(q), PE)?;
    let (l, q) = entry_count(s, q, i, j)?;
    let count = l as usize;
    basis.lengths[square_place(i, j)] = count;
    closed(run(
        s,
        q,
        p,
        count,
        count,
        &mut basis.entries,
        entry_place(i, j, 0),
    ))
}

// s: the file. q: the place of the first of m `PE` records of row i, modulo p. basis: where their lengths and their coefficients go.
// How the reading goes on after them.
fn read_row(
    s: &[u8],
    q: Place,
    p: u32,
    m: usize,
    i: usize,
    basis: &mut Basis,
) -> Result<Place, Stop>
    requires { (q.number + m < 65535) × (m ≤ most_rows) × (i < most_rows) }
    ensures { going result (basis.new.lengths, basis.new.entries) ≡ into (row_into (basis.old.lengths, basis.old.entries) i) (each m (λ j. Files.PE p i j) s.now (place q)) }
{
    let mut here = q;
    for j in 0..m {
        here = read_entry(s, here, p, i, j, basis)?;
    }
    Ok(here)
}

// s: the file. q: the place of the first `PE` record of m rows of m, modulo p. basis: where their lengths and their coefficients go.
// How the reading goes on after them.
fn read_entries(s: &[u8], q: Place, p: u32, m: usize, basis: &mut Basis) -> Result<Place, Stop>
    requires { (q.number + square < 65535) × (m ≤ most_rows) }
    ensures { going result (basis.new.lengths, basis.new.entries) ≡ into (entries_into (basis.old.lengths, basis.old.entries)) (entries_reader p m s.now (place q)) }
{
    let mut here = q;
    for i in 0..m {
        here = read_row(s, here, p, m, i, basis)?;
    }
    Ok(here)
}

// s: the file. q: the place of the `CE` record: m rows of n numbers modulo p. out: where they go.
// How the reading goes on after the record.
fn read_evidence(
    s: &[u8],
    q: Place,
    p: u32,
    m: usize,
    n: usize,
    out: &mut [u32],
) -> Result<Place, Stop>
    requires { (q.number < 65535) × (m ≤ most_rows) × (n ≤ most_rows) × (length out.old ≡ square) }
    ensures { going result out.new ≡ into (evidence_into out.old) (Files.CE p m n s.now (place q)) }
{
    let (_, q) = read_mark(s, opened(q), CE)?;
    closed(block(s, q, p, m, n, out, 0, ROWS))
}

// s: the file. q: its front. head: the problem's numbers. evidence: whether the `CE` record is due. answer: where lengths, coefficients and C go.
// How the reading goes on, which is at the file's end.
pub(crate) fn read_all(
    s: &[u8],
    q: Place,
    head: &Head,
    evidence: bool,
    answer: &mut Answer,
) -> Result<Place, Stop>
    requires { (q.number ≡ 0) × (head.now.m ≤ most_rows) × (head.now.n ≤ most_rows) }
    ensures { going result (answer.new.basis.lengths, answer.new.basis.entries, answer.new.c) ≡ into (answer_into (answer.old.basis.lengths, answer.old.basis.entries, answer.old.c)) (answer_parts head.now.p head.now.m head.now.n evidence s.now (place q)) }
{
    let q = read_entries(s, q, head.p, head.m, &mut answer.basis)?;
    if !evidence {
        return finish(s, q);
    }
    let q = read_evidence(s, q, head.p, head.m, head.n, &mut answer.c)?;
    finish(s, q)
}
