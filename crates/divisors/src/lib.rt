// Whether a number of a table, or an odd number from some place on, divides a number p: trial division, of which most is done by 16-bit
// products, eight at once.
//
// A number q that divides p = 2^16 · high + low leaves a quotient m with q · m = p. If v inverts q modulo 2^16, the low half of m is
// low · v modulo 2^16; what q times that half carries into the high half, taken from high, leaves q times the high half of m; and times v
// that is the high half itself. It is at most high / q. So where this computation gives more, q does not divide p, and no division is
// needed to say so. Where it gives no more, a division settles it.
#![tactic(auto)]

ghost use Rattle.std.specs.Prelude.{◌≡◌, ◌+◌, ◌*◌, ◌/◌, ◌%◌, ◌<◌, ◌≤◌, length};
ghost use Rattle.divisors.specs.Quotient.{high_part};
ghost use Rattle.divisors.specs.Table.{Table, Positive, left_open};
ghost use Rattle.divisors.specs.Found.{block, Found, InBlock, InTable, OddDivisor};

// The numbers of a block of a table.
const BLOCK: usize = 64;

// 2^16: a number of 32 bits is its high half times this, and its low half.
const HALF: u32 = 65536;

// x and y: any numbers.
// The high half of their product.
fn high_product(x: u16, y: u16) -> u16
    ensures { result ≡ x * y / 65536 }
{
    (u32::from(x) * u32::from(y) / HALF) as u16
}

// high and low: the halves of a number p. q: a number, and v its inverse modulo 2^16.
// The high half of p / q, if q divides p; else a number of no meaning. It takes three products and no division.
fn high_quotient(high: u16, low: u16, q: u16, v: u16) -> u16
    ensures { result ≡ high_part high low q v }
{
    let carried = high_product(q, low.wrapping_mul(v));
    high.wrapping_sub(carried).wrapping_mul(v)
}

// primes and inverses: a table. from: where a block of it starts. high and low: the halves of a number p. limit: what the high half of
// p / q is at most, for the block's first q and so for each.
// How many q of the block may divide p: those whose computed high half is within the limit. If 0, none does. The loop has no branch and
// nothing but 16-bit numbers, so that it is done for eight of them at once.
fn hits(primes: &[u16], inverses: &[u16], from: usize, high: u16, low: u16, limit: u16) -> u16
    requires inverses_len { length inverses.now ≡ length primes.now }
    requires block_in_bounds { from + block ≤ length primes.now }
    ensures { result ≡ left_open primes.now inverses.now from high low limit block }
{
    let mut count: u16 = 0;
    for i in 0..BLOCK {
        let part = high_quotient(high, low, primes[from + i], inverses[from + i]);
        count += u16::from(part <= limit);
    }
    count
}

// primes: numbers other than 0. from: where a block of them starts. p: any number.
// Whether one of the block divides p, by as many divisions as it takes to find it.
fn divisor_by_division(primes: &[u16], from: usize, p: u32) -> bool
    requires positive { Positive primes.now }
    requires block_in_bounds { from + block ≤ length primes.now }
    ensures { Found (InBlock primes.now from p) result }
{
    for i in from..from + BLOCK {
        if p % u32::from(primes[i]) == 0 {
            return true;
        }
    }
    false
}

// primes and inverses: a table. from: where a block of it starts. p: any number.
// Whether one of the block divides p, with divisions only where the products leave it open.
fn divisor_in_block(primes: &[u16], inverses: &[u16], from: usize, p: u32) -> bool
    requires table { Table primes.now inverses.now }
    requires block_in_bounds { from + block ≤ length primes.now }
    ensures { Found (InBlock primes.now from p) result }
{
    let high = (p / HALF) as u16;
    let low = (p % HALF) as u16;
    if hits(primes, inverses, from, high, low, high / primes[from]) == 0 {
        return false;
    }
    divisor_by_division(primes, from, p)
}

// primes and inverses: a table. p: any number.
// Whether a number of the table divides p, of the blocks that start with a number whose square is at most p.
pub fn divisor_among(primes: &[u16], inverses: &[u16], p: u32) -> bool
    requires { Table primes.now inverses.now }
    ensures { Found (InTable primes.now p) result }
{
    for from in (0..primes.len()).step_by(BLOCK) {
        let first = u32::from(primes[from]);
        if p < first * first {
            return false;
        }
        if divisor_in_block(primes, inverses, from, p) {
            return true;
        }
    }
    false
}

// p: any number. from: an odd number, 3 or more.
// Whether an odd number from there on, whose square is at most p, divides p.
pub fn odd_divisor(p: u32, from: u32) -> bool
    requires { (3 ≤ from) × (from % 2 ≡ 1) }
    ensures { Found (OddDivisor from p) result }
{
    let mut d = from;
    while u64::from(d) * u64::from(d) <= u64::from(p) {
        if p % d == 0 {
            return true;
        }
        d += 2;
    }
    false
}
