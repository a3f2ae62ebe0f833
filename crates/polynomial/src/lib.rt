// A polynomial modulo p by its coefficients, and whether it is a nonzero constant times a power of X.
#![tactic(auto)]

ghost use Rattle.std.specs.Prelude.{◌≡◌, ◌==◌, not, count_by};
ghost use Rattle.polynomial.specs.Coefficients.{Trimmed};
ghost use Rattle.polynomial.specs.Count.{TestsMonomial};

use layout::{LENGTH, ROWS};

// The coefficients of a determinant, in which each row contributes one entry: at most so many.
pub const COEFFICIENTS: usize = 1 + ROWS * (LENGTH - 1);

// A polynomial of `length` coefficients, from power 0 on, the last of which is not 0. Everything past them is 0.
#[derive(Clone, Copy)]
pub struct Polynomial {
    pub coefficients: [u32; COEFFICIENTS],
    pub length: usize,
}

// xs: any numbers.
// How many of them are not 0.
fn nonzeros(xs: &[u32]) -> usize
    ensures { result ≡ count_by (λ x. not (x == 0)) xs.now }
{
    let mut n: usize = 0;
    for x in xs {
        n += usize::from(*x != 0);
    }
    n
}

// f: a polynomial.
// Whether it is a nonzero constant times a power of X, modulo any p that its coefficients are below: exactly one of them is not 0.
#[tactic(auto, unfolding(rules::specs::Sizes::most_rows, rules::specs::Sizes::most_length, crate::specs::Coefficients::most_power))]
pub fn is_monomial(f: Polynomial) -> bool
    requires { Trimmed f }
    ensures { TestsMonomial f.coefficients result }
{
    nonzeros(&f.coefficients[..f.length]) == 1
}
