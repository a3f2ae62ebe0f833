// A part of the table of primes.
ghost use Rattle.std.specs.Prelude.{◌≤◌};
ghost use Rattle.primality.specs.Sifted.{Sifted};
ghost use Rattle.primality.specs.Listed.{IsPart};

use divisors::divisor_among;

// N odd primes that rise, each beside its inverse modulo 2^16: those from `from` on and below `next`, the prime after them.
pub(crate) struct Part<const N: usize> {
    pub(crate) from: u32,
    pub(crate) next: u32,
    pub(crate) primes: [u16; N],
    pub(crate) inverses: [u16; N],
}

impl<const N: usize> Part<N> {
    // p: a number from the next prime on, so that none of these primes is p itself.
    // Whether one of them divides p, of those up to p's square root and the rest of their block.
    pub(crate) fn divides(&self, p: u32) -> bool
        requires part { IsPart self.now.from self.now.next self.now.primes self.now.inverses }
        requires beyond { self.now.next ≤ p }
        ensures { Sifted self.now.from self.now.next p result }
    {
        divisor_among(&self.primes, &self.inverses, p)
    }
}
