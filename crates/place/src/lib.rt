// Where the reading stands, and how it goes on.
#![tactic(auto)]

ghost use Rattle.std.specs.Prelude.{◌≡◌, ◌+◌, ◌^◌, ◌<◌, length};
ghost use Rattle.rules.specs.Reader.{front as front_of};
ghost use Rattle.laws.specs.ReaderLaws.{moved};
ghost use Rattle.place.specs.Places.{place, opened_at, after_of, closed_of, finish_of, Numbered};

// File, record, the record's first byte, the next field's first byte.
#[derive(Clone, Copy)]
pub struct Place {
    pub file: u8,
    pub number: u16,
    pub start: usize,
    pub at: usize,
}

// Why a field is refused, each reason with its code.
#[derive(Clone, Copy)]
pub enum Reason {
    CutShort = 1,
    WrongMark = 2,
    WrongSize = 3,
    WrongPrime = 4,
    WrongNumber = 5,
    NotBelowPrime = 6,
    LastIsZero = 7,
    BytesLeft = 8,
}

// A refusal: its code, and the place of the field refused.
#[derive(Clone, Copy)]
pub struct Stop {
    pub code: u8,
    pub place: Place,
}

// file: the file's number.
// The place of its first byte.
pub fn front(file: u8) -> Place
    ensures { place result ≡ front_of file }
{
    Place {
        file,
        number: 0,
        start: 0,
        at: 0,
    }
}

// q: a place.
// The same place, with its record starting there.
pub fn opened(q: Place) -> Place
    ensures { result ≡ opened_at q }
{
    Place { start: q.at, ..q }
}

// q: a place. k: how many bytes.
// The place so many bytes on, in the same record.
pub fn past(q: Place, k: usize) -> Place
    requires { q.at + k < 2 ^ 64 }
    ensures { place result ≡ moved k (place q) }
{
    Place { at: q.at + k, ..q }
}

// q: the place where a record ends.
// The same place after the record: the next record has the next number.
pub fn after(q: Place) -> Place
    requires { q.number < 65535 }
    ensures { result ≡ after_of q }
{
    Place {
        number: q.number + 1,
        ..q
    }
}

// g: how the reading went on up to a record's last field.
// How it goes on after the record.
pub fn closed(g: Result<Place, Stop>) -> Result<Place, Stop>
    requires { Numbered g }
    ensures { result ≡ closed_of g }
{
    g.map(after)
}

// s: the file. q: the place where its last record ends.
// How the reading goes on: the file ends there too, or it is refused by 8.
pub fn finish(s: &[u8], q: Place) -> Result<Place, Stop>
    ensures { result ≡ finish_of (length s.now) q }
{
    if q.at == s.len() {
        Ok(q)
    } else {
        Err(Stop {
            code: Reason::BytesLeft as u8,
            place: opened(q),
        })
    }
}
