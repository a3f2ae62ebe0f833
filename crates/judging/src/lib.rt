// The first service of document 01, the verdict on a problem and an answer, in two steps (document 02, L4): the problem is read into a prepared
// form, and an answer is judged against it. Any bytes and any forms may come in.
#![tactic(auto)]

ghost use Rattle.std.specs.Prelude.{◌≡◌};
ghost use Rattle.rules.specs.Verdict.{verdict};
ghost use Rattle.rules.specs.Prepared.{Judges, prepared_numbers, verdict_after};
ghost use Rattle.laws.specs.Valid.{ValidProblem};
ghost use Rattle.verdict.specs.Meant.{meant, four_of};
ghost use Rattle.claim.specs.Claims.{problem_in};
ghost use Rattle.claim.specs.Sound.{SoundProblem};
ghost use Rattle.prepared.specs.Form.{form_of};
ghost use Rattle.judging.specs.Meaning.{prepared_meant};

use answer_file::read_answer_into;
use claim::{Problem, no_answer, no_problem};
use conditions::conditions;
use prepared::{given, prepare};
use verdict::{Fault, Four, Verdict, numbers};

// 20: no problem file gives the form.
#[derive(Clone, Copy, Debug, PartialEq, Eq)]
pub struct NotGiven;

// problem: one that was read, or could have been. answer: the answer file.
// The verdict on the answer.
fn judge_answer(problem: &Problem, answer: &[u8]) -> Verdict
    requires valid { ValidProblem (problem_in problem.now) }
    requires sound { SoundProblem problem.now }
    ensures { meant result ≡ verdict_after (problem_in problem.now) answer.now }
{
    let mut read = no_answer();
    read_answer_into(answer, &problem.head, true, &mut read)?;
    conditions(problem, &read)
}

// problem: any numbers. answer: the answer file.
// 20 if no problem file gives the form, before a byte of the answer is looked at; else the verdict on the answer.
pub fn judge_prepared(problem: &Problem, answer: &[u8]) -> Result<Verdict, NotGiven>
    ensures { Judges (form_of problem.now.head problem.now.f) answer.now (prepared_meant result) }
{
    if !given(problem) {
        return Err(NotGiven);
    }
    // A number read of each array tells the proof how long the array is.
    let _first = (problem.head.orders[0], problem.head.shifts[0], problem.f[0]);
    Ok(judge_answer(problem, answer))
}

// The four numbers of what an answer to a prepared problem gets.
#[tactic(auto, unfolding(rules::specs::Prepared::prepared_numbers))]
pub fn prepared_numbers(v: Result<Verdict, NotGiven>) -> Four
    ensures { four_of result ≡ prepared_numbers (prepared_meant v) }
{
    match v {
        Ok(w) => numbers(w),
        Err(NotGiven) => Four {
            code: 20,
            file: 0,
            number: 0,
            at: 0,
        },
    }
}

// problem, answer: the two files.
// The verdict on them: the two steps in a row. What reading gives is given, so that it is not tested again.
pub fn judge_files(problem: &[u8], answer: &[u8]) -> Verdict
    ensures { meant result ≡ verdict problem.now answer.now }
{
    let mut read = no_problem();
    if let Err(refusal) = prepare(problem, &mut read) {
        return Err(Fault::Unread(refusal));
    }
    judge_answer(&read, answer)
}
