// The first record of the problem file, `PR`: the prime, the rows and the columns.
#![tactic(auto)]

ghost use Rattle.std.specs.Prelude.{◌≡◌, ◌<◌};
ghost use Rattle.rules.specs.Files;
ghost use Rattle.place.specs.Places.{place};
ghost use Rattle.problem_head.specs.Head.{headed};

use cursor::{read_mark, read_prime, read_size};
use layout::ROWS;
use place::{Place, Stop, after, opened};

// The mark, low byte first.
const PR: u32 = 0x50 + 256 * 0x52;

// What the `PR` record holds.
#[derive(Clone, Copy)]
pub struct Sizes {
    pub p: u32,
    pub m: usize,
    pub n: usize,
}

// s: the file. q: the place of the `PR` record.
// The record's numbers and the place after it, or the refusal.
pub fn read_head(s: &[u8], q: Place) -> Result<(Sizes, Place), Stop>
    requires { q.number < 65535 }
    ensures { headed result ≡ Files.PR s.now (place q) }
{
    let (_, q) = read_mark(s, opened(q), PR)?;
    let (p, q) = read_prime(s, q)?;
    let (m, q) = read_size(s, q, ROWS as u32)?;
    let (n, q) = read_size(s, q, ROWS as u32)?;
    let sizes = Sizes {
        p,
        m: m as usize,
        n: n as usize,
    };
    Ok((sizes, after(q)))
}
