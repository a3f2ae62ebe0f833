// A refusal of reading, as a verdict has it.
#![tactic(auto)]

ghost use Rattle.std.specs.Prelude.{◌≡◌};
ghost use Rattle.place.specs.Places.{refusal, place};
ghost use Rattle.refusal.specs.Narrow.{Narrow, refusal_value, no_refusal};

use place::Stop;
use verdict::Refusal;

// x: a refusal, whose offsets fit 32 bits.
// Its numbers.
pub fn narrow(x: Stop) -> Refusal
    requires { Narrow (place x.place) }
    ensures { result ≡ refusal_value (refusal x) }
{
    let q = x.place;
    Refusal {
        code: x.code,
        file: q.file,
        number: q.number,
        at: q.at as u32,
        start: q.start as u32,
    }
}

// The numbers of no refusal: all 0.
pub fn accepted() -> Refusal
    ensures { result ≡ no_refusal }
{
    Refusal {
        code: 0,
        file: 0,
        number: 0,
        at: 0,
        start: 0,
    }
}
