// Document 02, L7: "The board should make an answer itself". The service that makes a basis into a lent buffer.
#![tactic(auto, unfolding(rules::specs::Sizes::most_rows, rules::specs::Sizes::most_order, rules::specs::Sizes::most_length, layout::specs::Flat::entry_place, layout::specs::Flat::square_place))]

ghost use Rattle.std.specs.Prelude.{◌≡◌, ◌≤◌, length};
ghost use Rattle.rules.specs.Sizes.{most_order};
ghost use Rattle.rules.specs.Writer.{write_answer};
ghost use Rattle.rules.specs.Maker.{answer_after};
ghost use Rattle.rules.specs.MakeBasis.{make_basis, basis_numbers};
ghost use Rattle.laws.specs.Valid.{ValidProblem};
ghost use Rattle.writer.specs.Appended.{Appended};
ghost use Rattle.verdict.specs.Meant.{four_of};
ghost use Rattle.claim.specs.Claims.{problem_in};
ghost use Rattle.claim.specs.Sound.{SoundProblem};
ghost use Rattle.basis_making.specs.Answer.{most_answer};
ghost use Rattle.basis_making.specs.Meant.{basis_meant};

mod cut;
mod text;

use crate::cut::{cut_problem, steps_done};
use crate::text::put_basis;
use claim::Problem;
use evidence::put_evidence;
use iteration::basis_after;
use layout::{LENGTH, RECORD, SQUARE};
use reader::read_problem;
use verdict::{Four, Unwritten, reply_numbers};
use writer::put_text;

// The bytes of the longest answer: of each entry the fields before its coefficients, and four for each of them; then the `CE` record.
const ANSWER: usize = SQUARE * (5 + 4 * LENGTH) + RECORD;

// What is answered where a basis is made: the steps done, and the bytes written.
#[derive(Clone, Copy, Debug, PartialEq, Eq)]
pub struct Made {
    pub steps: u16,
    pub bytes: u32,
}

// done: a number of steps, at most the largest order that is allowed.
// Puts the answer after so many steps at the front and gives its length.
fn put_answer(out: &mut [u8], problem: &Problem, done: usize) -> usize
    requires sound { SoundProblem problem.now × ValidProblem (problem_in problem.now) }
    requires done_le_most_order { (done ≤ most_order) × (most_answer ≤ length out.old) }
    ensures { Appended out.old out.new 0 result (write_answer (answer_after (problem_in problem.now) done)) }
{
    let basis = basis_after(problem, done);
    let end = put_basis(out, &basis, problem.head.m);
    let cut = cut_problem(problem, done);
    let mut record = [0u8; RECORD];
    let count = put_evidence(&mut record, &cut, &basis);
    put_text(out, end, &record[..count])
}

// problem: a file, of any bytes. steps: how many are allowed. buffer: where the answer's file goes.
// Makes an answer by as many steps. The buffer stays as it is where the problem is refused or the file has no room.
pub fn basis_file(problem: &[u8], steps: u32, buffer: &mut [u8]) -> Result<Made, Unwritten>
    ensures result_value { basis_meant result ≡ (make_basis problem.now steps buffer.old).answer }
    ensures buffer_after { buffer.new ≡ (make_basis problem.now steps buffer.old).buffer }
{
    let given = read_problem(problem)?;
    let done = steps_done(&given.head, steps);
    let mut file = [0u8; ANSWER];
    let needed = put_answer(&mut file, &given, done);
    let bytes = needed as u32;
    if buffer.len() < needed {
        return Err(Unwritten::NoRoom(bytes));
    }
    put_text(buffer, 0, &file[..needed]);
    Ok(Made {
        steps: done as u16,
        bytes,
    })
}

// The four numbers of each kind of answer.
pub fn basis_numbers(answer: Result<Made, Unwritten>) -> Four
    ensures { four_of result ≡ basis_numbers (basis_meant answer) }
{
    match answer {
        Ok(made) => Four {
            code: 0,
            file: 0,
            number: made.steps,
            at: made.bytes,
        },
        Err(reason) => reply_numbers(Err(reason)),
    }
}
