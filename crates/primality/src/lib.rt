// Prime numbers, by a table of the odd primes up to 46,451. The square of the next one, 46,457, is above 2^31, so the table settles every
// number that a file may name; above its reach the odd numbers go on.
//
// The table stands in four parts. A part is read only if the primes before it do not settle the number, so that the time grows with the
// number's square root.
#![tactic(auto)]

ghost use Rattle.std.specs.Prelude.{◌≡◌};
ghost use Rattle.rules.specs.Files.{is_prime};

use divisors::odd_divisor;

mod first;
mod fourth;
mod second;
mod table;
mod third;

// Below this number a few divisions cost less than the table.
const SMALL: u32 = 1024;

// p: any number.
// Whether p is prime.
pub fn is_prime(p: u32) -> bool
    ensures { result ≡ is_prime p }
{
    if p < 4 {
        return 1 < p;
    }
    if p % 2 == 0 {
        return false;
    }
    if p < SMALL {
        return !odd_divisor(p, 3);
    }
    if first::PART.divides(p) {
        return false;
    }
    if p < first::PART.next * first::PART.next {
        return true;
    }
    if second::PART.divides(p) {
        return false;
    }
    if p < second::PART.next * second::PART.next {
        return true;
    }
    if third::PART.divides(p) {
        return false;
    }
    if p < third::PART.next * third::PART.next {
        return true;
    }
    if fourth::PART.divides(p) {
        return false;
    }
    !odd_divisor(p, fourth::PART.next)
}
