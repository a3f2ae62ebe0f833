// Products of polynomials modulo p, added to sums that are divided by p once, when all has been added.
//
// A polynomial stands in an array of CAPACITY numbers: two zeros, its coefficients from power 0 on, then zeros, at least two of them. With
// these zeros the product of two polynomials needs no case for its ends.
// Proofs see the sizes of document 01 and of these arrays as numbers.
#![tactic(auto, unfolding(crate::specs::Padded::capacity, polynomial::specs::Coefficients::most_power, rules::specs::Sizes::most_rows, rules::specs::Sizes::most_length))]

ghost use Rattle.std.specs.Prelude.{◌≡◌, ◌+◌, ◌*◌, ◌^◌, ◌≤◌, ◌<◌, length, replicate};
ghost use Rattle.field.specs.Modulus.{Made};
ghost use Rattle.layout.specs.Holds.{Each};
ghost use Rattle.polynomial.specs.Coefficients.{most_power, ZerosFrom, Ends};
ghost use Rattle.convolution.specs.Padded.{capacity, Filled, Remainder};
ghost use Rattle.convolution.specs.Steps.{folded, with_three, with_triple, with_product};
ghost use Rattle.convolution.specs.Unpadded.{coefficient, Unpadded};

use field::{CUT, Modulus};
use polynomial::{COEFFICIENTS, Polynomial};

// The numbers of an array that holds a polynomial.
pub const CAPACITY: usize = 2 + COEFFICIENTS + 2;

// The polynomial 0.
pub fn no_coefficients() -> [u32; CAPACITY]
    ensures { result ≡ replicate capacity 0 }
{
    [0u32; CAPACITY]
}

// Sums to which nothing has been added, one for each power.
pub fn no_sums() -> [u64; CAPACITY]
    ensures { result ≡ replicate capacity 0 }
{
    [0u64; CAPACITY]
}

// v: any sum.
// A number below 2^56 that is v modulo p. It takes one product of 32-bit numbers and no division, so that a sum need not be divided
// by p each time that something is added to it.
fn fold(v: u64, modulus: Modulus) -> u64
    requires { Made modulus }
    ensures { (result ≡ folded modulus v) × (result < 2 ^ 56) }
{
    v / CUT * u64::from(modulus.fold) + v % CUT
}

// x and y: numbers below 2^31, as every number modulo an allowed prime is.
// Their whole product: as both come from 32 bits, the processor makes two or more such products at once.
fn product(x: u32, y: u32) -> u64
    requires { (x < 2 ^ 31) × (y < 2 ^ 31) }
    ensures { (result ≡ x * y) × (result < 2 ^ 62) }
{
    u64::from(x) * u64::from(y)
}

// v: a sum. x, y and z: three coefficients in a row of one polynomial. g: another polynomial. k: a power.
// The sum with the coefficient at k of (x + y·X + z·X²) · g added. A folded sum and three products always fit 64 bits.
fn add_three(v: u64, x: u32, y: u32, z: u32, g: &[u32; CAPACITY], k: usize, modulus: Modulus) -> u64
    requires x_bound { (x < 2 ^ 31) × ((y < 2 ^ 31) × (z < 2 ^ 31)) }
    requires k_bound { (k + 2 < capacity) × Made modulus }
    requires each { Each (2 ^ 31) g.now }
    ensures { result ≡ with_three modulus x y z g.now k v }
{
    fold(v, modulus) + product(x, g[k + 2]) + product(y, g[k + 1]) + product(z, g[k])
}

// sums: the sums, one for each power. f and g: two polynomials. at: a power. top: the highest power of g.
// Adds to the sums the terms of f at the powers at, at + 1 and at + 2, times g. Each turn does the same to its own sum, so that turns
// are made side by side.
fn add_triple(
    sums: &mut [u64; CAPACITY],
    f: &[u32; CAPACITY],
    at: usize,
    g: &[u32; CAPACITY],
    top: usize,
    modulus: Modulus,
)
    requires top_bound { (at + top ≤ most_power) × (Made modulus × (length sums.old ≡ capacity)) }
    requires each { Each (2 ^ 31) f.now × Each (2 ^ 31) g.now }
    ensures { sums.new ≡ with_triple modulus at top f.now g.now sums.old }
{
    let x = f[at + 2];
    let y = f[at + 3];
    let z = f[at + 4];
    for k in 0..top + 3 {
        let s = at + k;
        sums[s] = add_three(sums[s], x, y, z, g, k, modulus);
    }
}

// sums: the sums, one for each power. f: a polynomial of count coefficients. g: a polynomial with no power above top.
// Adds to the sums the product of the two polynomials, three coefficients of f at a time.
pub fn add_product(
    sums: &mut [u64; CAPACITY],
    f: &[u32; CAPACITY],
    count: usize,
    g: &[u32; CAPACITY],
    top: usize,
    modulus: Modulus,
)
    requires top_bound { (count + top ≤ most_power + 1) × (Made modulus × (length sums.old ≡ capacity)) }
    requires each { Each (2 ^ 31) f.now × Each (2 ^ 31) g.now }
    ensures { sums.new ≡ with_product modulus count top f.now g.now sums.old }
{
    for at in (0..count).step_by(3) {
        add_triple(sums, f, at, g, top, modulus);
    }
}

// sums: the sums, one for each power. top: the highest power that has one. p: above 0.
// The polynomial whose coefficients the sums are modulo p: one division for each coefficient.
pub fn residues(sums: &[u64; CAPACITY], top: usize, p: u32) -> [u32; CAPACITY]
    requires { (0 < p) × (top ≤ most_power) }
    ensures { Filled (top + 1) (Remainder p sums.now) result }
{
    let mut l = no_coefficients();
    for k in 0..top + 1 {
        l[k + 2] = (sums[k] % u64::from(p)) as u32;
    }
    l
}

// l: a polynomial in an array of CAPACITY numbers, of at most `bound` coefficients.
// Their number without the zeros at the end.
pub fn length_of(l: &[u32; CAPACITY], bound: usize) -> usize
    requires { ZerosFrom (coefficient l.now) bound }
    ensures { Ends (coefficient l.now) result }
{
    for k in (0..bound).rev() {
        if l[k + 2] != 0 {
            return k + 1;
        }
    }
    0
}

// l: a polynomial in an array of CAPACITY numbers. length: the number of its coefficients.
// The polynomial, without the zeros in front.
pub fn unpadded(l: &[u32; CAPACITY], length: usize) -> Polynomial
    ensures { Unpadded l.now length result }
{
    let mut f = Polynomial {
        coefficients: [0; COEFFICIENTS],
        length,
    };
    f.coefficients.copy_from_slice(&l[2..COEFFICIENTS + 2]);
    f
}
