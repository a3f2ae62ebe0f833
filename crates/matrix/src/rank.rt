// Document 01, condition 4: the matrix [P(0) C], whose rows have m + n numbers.
ghost use Rattle.std.specs.Prelude.{◌≡◌, ◌+◌, ◌<◌, ◌≤◌};
ghost use Rattle.rules.specs.Sizes.{most_rows};
ghost use Rattle.matrix.specs.Fill.{row_of, array_of};
ghost use Rattle.matrix.specs.Rank.{rank_number};

use claim::{Answer, Head};
use layout::{COLUMNS, ROWS, entry_place, square_place};

// head, answer: of a claim. i, j: a row and a column of [P(0) C].
// The number there.
fn rank_entry(head: &Head, answer: &Answer, i: usize, j: usize) -> u32
    requires { (head.now.m ≤ most_rows) × ((i < most_rows) × (j < head.now.m + most_rows)) }
    ensures { result ≡ rank_number answer.now.basis.entries answer.now.c head.now.m i j }
{
    if j < head.m {
        answer.basis.entries[entry_place(i, j, 0)]
    } else {
        answer.c[square_place(i, j - head.m)]
    }
}

// head, answer: of a claim. i: a row.
// The row i of [P(0) C], and zeros.
fn rank_row(head: &Head, answer: &Answer, i: usize) -> [u32; COLUMNS]
    requires { (head.now.m ≤ most_rows) × ((head.now.n ≤ most_rows) × (i < most_rows)) }
    ensures { result ≡ row_of (head.now.m + head.now.n) (rank_number answer.now.basis.entries answer.now.c head.now.m i) }
{
    let width = head.m + head.n;
    let mut row = [0; COLUMNS];
    for j in 0..width {
        row[j] = rank_entry(head, answer, i, j);
    }
    row
}

// head, answer: of a claim.
// The matrix [P(0) C], and zeros.
pub fn rank_matrix(head: &Head, answer: &Answer) -> [[u32; COLUMNS]; ROWS]
    requires { (head.now.m ≤ most_rows) × (head.now.n ≤ most_rows) }
    ensures { result ≡ array_of head.now.m (head.now.m + head.now.n) (rank_number answer.now.basis.entries answer.now.c head.now.m) }
{
    let mut rows = [[0; COLUMNS]; ROWS];
    for i in 0..head.m {
        rows[i] = rank_row(head, answer, i);
    }
    rows
}
