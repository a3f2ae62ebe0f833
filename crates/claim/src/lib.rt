// A claim as the code has it: a problem and an answer, their numbers in arrays of the largest sizes, padded with zeros. What such arrays
// stand for is said in `specs/Claims.antt`, and what the code asks of them in `specs/Sound.antt`.
#![tactic(auto)]

ghost use Rattle.std.specs.Prelude.{◌≡◌};
ghost use Rattle.claim.specs.Empty.{empty_head, empty_problem, empty_answer};

use layout::{COLUMN_COEFFICIENTS, ENTRY_COEFFICIENTS, ROWS, SQUARE, no_columns, no_entries};

// The numbers of a problem beside F: the prime, the rows and the columns, the orders of the columns, the shifts of the rows.
#[derive(Clone, Copy)]
pub struct Head {
    pub p: u32,
    pub m: usize,
    pub n: usize,
    pub orders: [usize; ROWS],
    pub shifts: [i32; ROWS],
}

// A problem: those numbers, and the coefficients of F.
#[derive(Clone, Copy)]
pub struct Problem {
    pub head: Head,
    pub f: [u32; COLUMN_COEFFICIENTS],
}

// P: how many coefficients each entry has, and the coefficients.
#[derive(Clone, Copy)]
pub struct Basis {
    pub lengths: [usize; SQUARE],
    pub entries: [u32; ENTRY_COEFFICIENTS],
}

// An answer: P and C.
#[derive(Clone, Copy)]
pub struct Answer {
    pub basis: Basis,
    pub c: [u32; SQUARE],
}

// The numbers of no problem: all 0.
pub fn no_head() -> Head
    ensures { result ≡ empty_head }
{
    Head {
        p: 0,
        m: 0,
        n: 0,
        orders: [0; ROWS],
        shifts: [0; ROWS],
    }
}

// Room for a problem: every number is 0.
pub fn no_problem() -> Problem
    ensures { result ≡ empty_problem }
{
    Problem {
        head: no_head(),
        f: no_columns(),
    }
}

// Room for an answer: every number is 0.
pub fn no_answer() -> Answer
    ensures { result ≡ empty_answer }
{
    Answer {
        basis: Basis {
            lengths: [0; SQUARE],
            entries: no_entries(),
        },
        c: [0; SQUARE],
    }
}
