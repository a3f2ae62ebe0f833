// Document 02, L5: the answer on two files by a drawn row u and a drawn point. Any bytes and any numbers may come in.
#![tactic(auto, unfolding(rules::specs::Sizes::most_rows, rules::specs::Drawn::drawn_numbers))]

ghost use Rattle.std.specs.Prelude.{◌≡◌, ◌≤◌};
ghost use Rattle.rules.specs.Drawn.{first_too_large, drawn_numbers, judge_drawn};
ghost use Rattle.rules.specs.Sizes.{most_rows};
ghost use Rattle.verdict.specs.Meant.{four_of};
ghost use Rattle.drawn.specs.Asked.{ArraysIn};
ghost use Rattle.drawing.specs.Meant.{drawn_meant};
ghost use Rattle.drawing.specs.Numbers.{JudgedIn};

use answer_file::read_answer_into;
use claim::{Answer, Problem, no_answer, no_problem};
use drawn::every_column_zero;
use layout::ROWS;
use problem_file::read_problem_into;
use verdict::{Four, Refusal};

// The answer by drawn numbers, which is no verdict.
#[derive(Clone, Copy, Debug, PartialEq, Eq)]
pub enum Drawn {
    MayPass,
    TurnedAway,
}

// Why there is no answer by drawn numbers.
#[derive(Clone, Copy, Debug, PartialEq, Eq)]
pub enum Undrawn {
    // 1 to 8
    Unread(Refusal),
    // 16, with the number's place
    TooLarge(u32),
}

impl From<Refusal> for Undrawn {
    ghost use Rattle.std.specs.Prelude.{◌≡◌};
    ghost use Rattle.drawing.specs.declared.Undrawn.TheVariants.{Unread};

    ghost from_gives = { λ refusal reason. reason ≡ Unread refusal };

    fn from(refusal: Refusal) -> Undrawn {
        Undrawn::Unread(refusal)
    }
}

// u, point: the numbers drawn. m: the rows. p: the modulus.
// The place of the first of them that is p or more, u from 0 and the point m, if there is one. u from m on isn't read.
fn first_too_large(u: &[u32; ROWS], point: u32, m: usize, p: u32) -> Option<usize>
    requires { m ≤ most_rows }
    ensures { result ≡ first_too_large p m u.now point }
{
    let place = u[..m].iter().position(|x| *x >= p);
    place.or((point >= p).then_some(m))
}

// problem, answer: a claim. u, point: the numbers drawn.
// The answer on the claim.
fn draw_claim(
    problem: &Problem,
    answer: &Answer,
    u: &[u32; ROWS],
    point: u32,
) -> Result<Drawn, Undrawn>
    requires { ArraysIn problem.now answer.now }
    ensures { JudgedIn problem.now answer.now u.now point (drawn_meant result) }
{
    match first_too_large(u, point, problem.head.m, problem.head.p) {
        Some(place) => Err(Undrawn::TooLarge(place as u32)),
        None if every_column_zero(problem, answer, u, point) => Ok(Drawn::MayPass),
        None => Ok(Drawn::TurnedAway),
    }
}

// problem, answer: the two files. u, point: the numbers drawn.
// The answer on them.
pub fn draw_files(
    problem: &[u8],
    answer: &[u8],
    u: &[u32; ROWS],
    point: u32,
) -> Result<Drawn, Undrawn>
    ensures { drawn_meant result ≡ judge_drawn problem.now answer.now u.now point }
{
    let mut b = no_problem();
    read_problem_into(problem, &mut b)?;
    let mut a = no_answer();
    read_answer_into(answer, &b.head, true, &mut a)?;
    draw_claim(&b, &a, u, point)
}

// The four numbers of each kind of answer.
pub fn drawn_numbers(d: Result<Drawn, Undrawn>) -> Four
    ensures { four_of result ≡ drawn_numbers (drawn_meant d) }
{
    let (code, file, number, at) = match d {
        Ok(Drawn::MayPass) => (0, 0, 0, 0),
        Ok(Drawn::TurnedAway) => (255, 0, 0, 0),
        Err(Undrawn::Unread(r)) => (r.code, r.file, r.number, r.at),
        Err(Undrawn::TooLarge(place)) => (16, 2, 0, place),
    };
    Four {
        code,
        file,
        number,
        at,
    }
}
