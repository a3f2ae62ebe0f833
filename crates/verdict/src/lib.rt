// What is answered: the judge's verdict and the reply of a service that writes, each the number of a success or an enum of what stands against
// it; the four numbers of an answer, and the one number that packs them.
#![tactic(auto)]

ghost use Rattle.std.specs.Prelude.{◌≡◌, ◌+◌, ◌*◌};
ghost use Rattle.rules.specs.Verdict.{numbers, packed};
ghost use Rattle.rules.specs.Reply.{reply_numbers};
ghost use Rattle.verdict.specs.Meant.{meant, four_of};
ghost use Rattle.verdict.specs.Replies.{reply_meant};

// A refusal of reading: its code, file and record, the offset of the field, and that of the record's first byte.
#[derive(Clone, Copy, Debug, PartialEq, Eq)]
pub struct Refusal {
    pub code: u8,
    pub file: u8,
    pub number: u16,
    pub at: u32,
    pub start: u32,
}

// What the judge finds against an answer.
#[derive(Clone, Copy, Debug, PartialEq, Eq)]
pub enum Fault {
    // 1 to 8
    Unread(Refusal),
    // 9
    NotReduced,
    // 10
    NotMonomial,
    // 11, with row and column
    BelowOrder(u16, u32),
    // 12, with row and column
    AtOrder(u16, u32),
    // 13
    LowRank,
}

// The answer of the judge: 0, with the degree sum, or the fault.
pub type Verdict = Result<u32, Fault>;

impl From<Refusal> for Fault {
    ghost use Rattle.std.specs.Prelude.{◌≡◌};
    ghost use Rattle.verdict.specs.declared.Fault.TheVariants.{Unread};

    ghost from_gives = { λ refusal fault. fault ≡ Unread refusal };

    fn from(refusal: Refusal) -> Fault {
        Fault::Unread(refusal)
    }
}

// Why a service that writes into a lent buffer wrote nothing.
#[derive(Clone, Copy, Debug, PartialEq, Eq)]
pub enum Unwritten {
    // 1 to 8
    Unread(Refusal),
    // 14, with the bytes needed
    NoRoom(u32),
}

// The answer of such a service: 0, with the bytes written, or why there are none.
pub type Reply = Result<u32, Unwritten>;

impl From<Refusal> for Unwritten {
    ghost use Rattle.std.specs.Prelude.{◌≡◌};
    ghost use Rattle.verdict.specs.declared.Unwritten.TheVariants.{Unread};

    ghost from_gives = { λ refusal reason. reason ≡ Unread refusal };

    fn from(refusal: Refusal) -> Unwritten {
        Unwritten::Unread(refusal)
    }
}

// The four numbers of an answer.
#[derive(Clone, Copy, Debug, PartialEq, Eq)]
pub struct Four {
    pub code: u8,
    pub file: u8,
    pub number: u16,
    pub at: u32,
}

impl Four {
    fn new(code: u8, file: u8, number: u16, at: u32) -> Four
        ensures { result ≡ record { code = code; file = file; number = number; at = at } }
    {
        Four {
            code,
            file,
            number,
            at,
        }
    }
}

// The numbers that document 01 gives for each kind of verdict.
#[tactic(auto, unfolding(rules::specs::Verdict::numbers))]
pub fn numbers(v: Verdict) -> Four
    ensures { four_of result ≡ numbers (meant v) }
{
    match v {
        Ok(d) => Four::new(0, 0, 0, d),
        Err(Fault::Unread(r)) => Four::new(r.code, r.file, r.number, r.at),
        Err(Fault::NotReduced) => Four::new(9, 0, 0, 0),
        Err(Fault::NotMonomial) => Four::new(10, 0, 0, 0),
        Err(Fault::BelowOrder(i, j)) => Four::new(11, 2, i, j),
        Err(Fault::AtOrder(i, j)) => Four::new(12, 2, i, j),
        Err(Fault::LowRank) => Four::new(13, 0, 0, 0),
    }
}

// The numbers that document 01 gives for each kind of reply.
#[tactic(auto, unfolding(rules::specs::Reply::reply_numbers))]
pub fn reply_numbers(v: Reply) -> Four
    ensures { four_of result ≡ reply_numbers (reply_meant v) }
{
    match v {
        Ok(k) => Four::new(0, 0, 0, k),
        Err(Unwritten::Unread(r)) => Four::new(r.code, r.file, r.number, r.at),
        Err(Unwritten::NoRoom(k)) => Four::new(14, 0, 0, k),
    }
}

// code + 256 × file + 65,536 × record + 4,294,967,296 × at: no bit is lost.
#[tactic(auto, unfolding(rules::specs::Verdict::packed))]
pub fn pack(n: Four) -> u64
    ensures { result ≡ packed (four_of n) }
{
    u64::from(n.code)
        + 256 * u64::from(n.file)
        + 65536 * u64::from(n.number)
        + 4294967296 * u64::from(n.at)
}
