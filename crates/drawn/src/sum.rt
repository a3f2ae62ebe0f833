// Sums of products modulo p, in one word.
ghost use Rattle.std.specs.Prelude.{◌≡◌, ◌+◌, ◌*◌, ◌%◌, ◌<◌, ◌≤◌, length};
ghost use Rattle.rules.specs.Sizes.{most_rows, largest_prime};
ghost use Rattle.layout.specs.Holds.{Each};
ghost use Rattle.drawn.specs.Sums.{room, Added, plus_row};

// A word of 32 bits has so many values.
const WORD: u64 = 1 << 32;

// sum: below p · 2^32. x, y: numbers below p.
// The sum with the product of the two added, modulo p, and below p · 2^32 again: one comparison keeps it in its word, however many
// products are added.
fn add_product(sum: u64, x: u32, y: u32, p: u32) -> u64
    requires p_le_largest_prime { (p ≤ largest_prime) × (sum < room p) }
    requires x_lt_p { (x < p) × (y < p) }
    ensures { Added p sum x y result }
{
    let room = u64::from(p) * WORD;
    let next = sum + u64::from(x) * u64::from(y);
    if next < room { next } else { next - room }
}

// sum: any sum. p: above 0.
// The sum modulo p.
fn residue(sum: u64, p: u32) -> u32
    requires { 0 < p }
    ensures { result ≡ sum % p }
{
    (sum % u64::from(p)) as u32
}

// start: below p · 2^32. row: numbers below p. numbers: below p. at, stride: where the numbers stand that go with the row's, the first at `at`
// and each further one `stride` behind.
// The start and the sum of the products, modulo p.
pub(crate) fn plus_row(
    start: u64,
    row: &[u32],
    numbers: &[u32],
    at: usize,
    stride: usize,
    p: u32,
) -> u32
    requires p_nonzero { (0 < p) × ((p ≤ largest_prime) × (start < room p)) }
    requires below { (length row.now ≤ most_rows) × (Each p row.now × Each p numbers.now) }
    requires stride_in_bounds { at + most_rows * stride < length numbers.now + stride }
    ensures { result ≡ (plus_row p (length row.now) start row.now numbers.now at stride).0 }
{
    let mut sum = start;
    for (i, x) in row.iter().enumerate() {
        sum = add_product(sum, *x, numbers[at + i * stride], p);
    }
    residue(sum, p)
}
