// Coefficients in a row, and rows of them.
#![tactic(auto)]

ghost use Rattle.std.specs.Prelude.{◌≡◌, ◌+◌, ◌*◌, ◌≤◌, length};
ghost use Rattle.place.specs.Places.{place};
ghost use Rattle.runs.specs.Stored.{stored};
ghost use Rattle.runs.specs.Rows.{run_stored, block_stored};

use cursor::read_coefficient;
use place::{Place, Stop};

// s: the file. q: the place of the first of `count` coefficients modulo p. last: the count at which the last one may
// not be 0, or 0 where each may be. out: where they go, from `base` on.
// How the reading goes on after them. After a refusal what was read before stands there.
pub fn run(
    s: &[u8],
    q: Place,
    p: u32,
    count: usize,
    last: usize,
    out: &mut [u32],
    base: usize,
) -> Result<Place, Stop>
    requires { base + count ≤ length out.old }
    ensures { stored result out.new ≡ run_stored p last count base s.now out.old (place q) }
{
    let mut here = q;
    for k in 0..count {
        let (v, next) = read_coefficient(s, here, p, last, k)?;
        out[base + k] = v;
        here = next;
    }
    Ok(here)
}

// s: the file. q: the place of the first of `rows` rows of `count` coefficients modulo p. out: where they go, from `base` on, each row `stride` after the one before.
// How the reading goes on after them. After a refusal what was read before stands there.
pub fn block(
    s: &[u8],
    q: Place,
    p: u32,
    rows: usize,
    count: usize,
    out: &mut [u32],
    base: usize,
    stride: usize,
) -> Result<Place, Stop>
    requires { (count ≤ stride) × (base + rows * stride ≤ length out.old) }
    ensures { stored result out.new ≡ block_stored p rows count base stride s.now out.old (place q) }
{
    let mut here = q;
    for i in 0..rows {
        here = run(s, here, p, count, 0, out, base + i * stride)?;
    }
    Ok(here)
}
