// The sizes of document 01 as the code has them, each named once, where a coefficient stands in a flat array, and such arrays of zeros.
#![tactic(auto)]

ghost use Rattle.std.specs.Prelude.{◌≡◌, ◌<◌};
ghost use Rattle.rules.specs.Sizes.{most_rows, most_order, most_length};
ghost use Rattle.layout.specs.Flat.{filled, entry_coefficients, column_coefficients, square_place, entry_place, column_place};

// Rows and columns, the order of a column, the coefficients of an entry: at most so many.
pub const ROWS: usize = 4;

pub const ORDER: usize = 16;

pub const LENGTH: usize = 17;

// The prime, and the shift either way: at most so large.
pub const PRIME: u32 = 2_147_483_647;

pub const SHIFT: u32 = 1_000;

// The bytes of a file that a program reads: at most so many.
pub const READ_LIMIT: usize = 16_384;

// The columns of [P(0) C], the entries of a matrix, and the coefficients of P and of F.
pub const COLUMNS: usize = 2 * ROWS;

pub const SQUARE: usize = ROWS * ROWS;

pub const ENTRY_COEFFICIENTS: usize = SQUARE * LENGTH;

pub const COLUMN_COEFFICIENTS: usize = SQUARE * ORDER;

// The bytes of the longest `CE` record: its mark, and four for each number.
pub const RECORD: usize = 2 + 4 * SQUARE;

// Coefficients of F, all 0.
#[tactic(auto, unfolding(rules::specs::Sizes::most_rows, rules::specs::Sizes::most_order, crate::specs::Flat::filled))]
pub fn no_columns() -> [u32; COLUMN_COEFFICIENTS]
    ensures { result ≡ filled column_coefficients 0 }
{
    [0; COLUMN_COEFFICIENTS]
}

// Coefficients of P, all 0.
#[tactic(auto, unfolding(rules::specs::Sizes::most_rows, rules::specs::Sizes::most_length, crate::specs::Flat::filled))]
pub fn no_entries() -> [u32; ENTRY_COEFFICIENTS]
    ensures { result ≡ filled entry_coefficients 0 }
{
    [0; ENTRY_COEFFICIENTS]
}

// Where the number of row i and column j stands in an array with one number for each entry.
#[tactic(auto, unfolding(rules::specs::Sizes::most_rows, crate::specs::Flat::square_place))]
pub fn square_place(i: usize, j: usize) -> usize
    requires { (i < most_rows) × (j < most_rows) }
    ensures { result ≡ square_place i j }
{
    i * ROWS + j
}

// Where the coefficient at power k of P's entry in row i and column j stands.
#[tactic(auto, unfolding(rules::specs::Sizes::most_rows, rules::specs::Sizes::most_length, crate::specs::Flat::square_place, crate::specs::Flat::entry_place))]
pub fn entry_place(i: usize, j: usize, k: usize) -> usize
    requires { (i < most_rows) × ((j < most_rows) × (k < most_length)) }
    ensures { result ≡ entry_place i j k }
{
    square_place(i, j) * LENGTH + k
}

// Where the coefficient at power k of F's entry in row i and column j stands.
#[tactic(auto, unfolding(rules::specs::Sizes::most_rows, rules::specs::Sizes::most_order, crate::specs::Flat::column_place))]
pub fn column_place(i: usize, j: usize, k: usize) -> usize
    requires { (i < most_rows) × ((j < most_rows) × (k < most_order)) }
    ensures { result ≡ column_place i j k }
{
    (j * ROWS + i) * ORDER + k
}
