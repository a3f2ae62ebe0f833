// One number of a file: one, two or four bytes, low byte first.
#![tactic(auto)]

ghost use Rattle.std.specs.Prelude.{◌≡◌, ◌+◌, ◌*◌, ◌≤◌, leb, length};
ghost use Rattle.rules.specs.Reader.{number_at, field};
ghost use Rattle.place.specs.Places.{place, taken};
ghost use Rattle.number.specs.Widths.{Width};

use place::{Place, Reason, Stop, past};

// s: the file. at: an offset, which may lie past its end. k: how many bytes.
// Whether the file has so many bytes from there on.
fn whole(s: &[u8], at: usize, k: usize) -> bool
    ensures { result ≡ leb (at + k) (length s.now) }
{
    at <= s.len() && k <= s.len() - at
}

// s: the file. at: an offset. k: 1, 2 or 4, and the file has so many bytes from there on.
// Their number, low byte first.
fn joined(s: &[u8], at: usize, k: usize) -> u32
    requires width { Width k }
    requires k_in_bounds { at + k ≤ length s.now }
    ensures { result ≡ number_at k s.now at }
{
    match k {
        1 => u32::from(s[at]),
        2 => u32::from(u16::from_le_bytes([s[at], s[at + 1]])),
        _ => u32::from_le_bytes([s[at], s[at + 1], s[at + 2], s[at + 3]]),
    }
}

// s: the file. q: the place of a field. k: how many bytes it has: 1, 2 or 4.
// Its number, whatever it is, and the place after it, or the refusal.
pub fn read_number(s: &[u8], q: Place, k: usize) -> Result<(u32, Place), Stop>
    requires { Width k }
    ensures { taken result ≡ field k (λ v. 0) s.now (place q) }
{
    if !whole(s, q.at, k) {
        return Err(Stop {
            code: Reason::CutShort as u8,
            place: q,
        });
    }
    Ok((joined(s, q.at, k), past(q, k)))
}
