// The fields of the two files: each a number, and the test that it has to pass.
#![tactic(auto, unfolding(rules::specs::Sizes::largest_prime, rules::specs::Sizes::most_shift))]

ghost use Rattle.std.specs.Prelude.{◌≡◌, Bool, ℕ, ◌+◌, ◌^◌, ◌<◌, nat_abs, leb};
ghost use Rattle.rules.specs.Reader.{mark, field, unless};
ghost use Rattle.rules.specs.Files.{allowed_prime, one_to, due, shift_in_size, coefficient_test, two's_complement};
ghost use Rattle.place.specs.Places.{place, taken, code, refusal};
ghost use Rattle.number.specs.Widths.{Width};

use layout::{PRIME, SHIFT};
use number::read_number;
use place::{Place, Reason, Stop};
use primality::is_prime;

// The first number of two bytes that stands for a negative one.
const NEGATIVE: u32 = 32_768;

// v: any number.
// Whether it is an allowed prime.
fn allowed_prime(v: u32) -> bool
    ensures { result ≡ allowed_prime v }
{
    v <= PRIME && is_prime(v)
}

// v: any number.
// How far its two's complement in two bytes is from 0.
fn magnitude(v: u32) -> u32
    ensures { result ≡ nat_abs (two's_complement v) }
{
    if v < NEGATIVE { v } else { v.abs_diff(65536) }
}

// v: a number of two bytes.
// The signed number whose two's complement it is.
pub fn signed16(v: u32) -> i32
    requires { v < 65536 }
    ensures { result ≡ two's_complement v }
{
    if v < NEGATIVE {
        v as i32
    } else {
        v as i32 - 65536
    }
}

// reason: why a field is refused. q: its place.
// The refusal.
fn stop(reason: Reason, q: Place) -> Stop
    ensures { refusal result ≡ record { code = code reason; place = place q } }
{
    Stop {
        code: reason as u8,
        place: q,
    }
}

// s: the file. q: a field's place. width: how many bytes it has: 1, 2 or 4. reason: why it is refused where `test` does not hold of its number.
// The number and the place after it, or the refusal.
fn read_field<F: FnOnce(u32) -> bool>(
    s: &[u8],
    q: Place,
    width: usize,
    reason: Reason,
    test: F,
) -> Result<(u32, Place), Stop>
    requires one_of { Width width }
    requires tests { F.IsAlwaysCallable test }
    ensures { (holds : ℕ → Bool) → ((v : ℕ) (b : Bool) → F.post test v b → b ≡ holds v) → taken result ≡ field width (unless (code reason) holds) s.now (place q) }
{
    let (v, next) = read_number(s, q, width)?;
    if test(v) {
        Ok((v, next))
    } else {
        Err(stop(reason, q))
    }
}

// s: the file. q: the place of a record's mark. due: the one that is due, its first byte the low one.
// The mark and the place after it, or the refusal.
pub fn read_mark(s: &[u8], q: Place, due: u32) -> Result<(u32, Place), Stop>
    ensures { taken result ≡ mark due s.now (place q) }
{
    read_field(s, q, 2, Reason::WrongMark, |v| v == due)
}

// s: the file. q: the place of a size from 1 on. most: the largest.
// The size and the place after it, or the refusal.
pub fn read_size(s: &[u8], q: Place, most: u32) -> Result<(u32, Place), Stop>
    ensures { taken result ≡ field 1 (unless 3 (one_to most)) s.now (place q) }
{
    read_field(s, q, 1, Reason::WrongSize, |v| 1 <= v && v <= most)
}

// s: the file. q: the place of a count, which may be 0. most: the largest.
// The count and the place after it, or the refusal.
pub fn read_count(s: &[u8], q: Place, most: u32) -> Result<(u32, Place), Stop>
    ensures { taken result ≡ field 1 (unless 3 (λ L. leb L most)) s.now (place q) }
{
    read_field(s, q, 1, Reason::WrongSize, |v| v <= most)
}

// s: the file. q: the place of a row or column number. i: the one that is due.
// The number and the place after it, or the refusal.
pub fn read_due(s: &[u8], q: Place, i: u32) -> Result<(u32, Place), Stop>
    ensures { taken result ≡ field 1 (due i) s.now (place q) }
{
    read_field(s, q, 1, Reason::WrongNumber, |v| v == i)
}

// s: the file. q: the place of a shift.
// The number of its two bytes and the place after it, or the refusal.
pub fn read_shift(s: &[u8], q: Place) -> Result<(u32, Place), Stop>
    ensures { taken result ≡ field 2 (unless 3 shift_in_size) s.now (place q) }
{
    read_field(s, q, 2, Reason::WrongSize, |v| magnitude(v) <= SHIFT)
}

// s: the file. q: the place of the k-th coefficient modulo p, counted from 0, of an entry with `length`
// coefficients; with a length of 0, of none whose last one is told from the others.
// The coefficient and the place after it, or the refusal. The test for 0, of the entry's last coefficient, stands apart: with one test for both,
// the compiler computes both for each coefficient.
pub fn read_coefficient(
    s: &[u8],
    q: Place,
    p: u32,
    length: usize,
    k: usize,
) -> Result<(u32, Place), Stop>
    requires { k + 1 < 2 ^ 64 }
    ensures { taken result ≡ field 4 (coefficient_test p length k) s.now (place q) }
{
    let (v, next) = read_field(s, q, 4, Reason::NotBelowPrime, |v| v < p)?;
    if k + 1 == length && v == 0 {
        return Err(stop(Reason::LastIsZero, q));
    }
    Ok((v, next))
}

// s: the file. q: the place of the prime.
// The prime and the place after it, or the refusal.
pub fn read_prime(s: &[u8], q: Place) -> Result<(u32, Place), Stop>
    ensures { taken result ≡ field 4 (unless 4 allowed_prime) s.now (place q) }
{
    read_field(s, q, 4, Reason::WrongPrime, allowed_prime)
}
