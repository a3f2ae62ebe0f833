// The two files of document 01, each in one struct.
#![tactic(auto)]

ghost use Rattle.std.specs.Prelude.{◌≡◌, ◌≤◌};
ghost use Rattle.rules.specs.Sizes.{most_rows};
ghost use Rattle.rules.specs.Files.{read_problem};
ghost use Rattle.problem_file.specs.Values.{problem_value};
ghost use Rattle.answer_file.specs.Values.{answer_value, read_answer};
ghost use Rattle.reader.specs.Readings.{handed};

use answer_file::read_answer_into;
use claim::{Answer, Head, Problem, no_answer, no_problem};
use problem_file::read_problem_into;
use verdict::Refusal;

// s: the problem file, of any bytes.
// The problem, or the refusal.
pub fn read_problem(s: &[u8]) -> Result<Problem, Refusal>
    ensures { result ≡ handed (problem_value (read_problem s.now)) }
{
    let mut problem = no_problem();
    read_problem_into(s, &mut problem)?;
    Ok(problem)
}

// t: the answer file, of any bytes. head: the problem's. with_evidence: whether the `CE` record is due; without it the file ends after the last entry.
// The answer, with C all 0 where it was not due, or the refusal.
pub fn read_answer(t: &[u8], head: &Head, with_evidence: bool) -> Result<Answer, Refusal>
    requires { (head.now.m ≤ most_rows) × (head.now.n ≤ most_rows) }
    ensures { result ≡ handed (answer_value (read_answer head.now.p head.now.m head.now.n with_evidence t.now)) }
{
    let mut answer = no_answer();
    read_answer_into(t, head, with_evidence, &mut answer)?;
    Ok(answer)
}
