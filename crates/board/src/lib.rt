// What a host that is written in C calls. Each function packs what a service answers into one number.
#![tactic(auto)]

ghost use Rattle.std.specs.Prelude.{◌≡◌};
ghost use Rattle.rules.specs.Verdict.{verdict, numbers, packed};
ghost use Rattle.rules.specs.Reply.{reply_numbers};
ghost use Rattle.rules.specs.Evidence.{make_evidence};
ghost use Rattle.rules.specs.MakeBasis.{make_basis, basis_numbers};
ghost use Rattle.rules.specs.Drawn.{drawn_numbers, judge_drawn};
ghost use Rattle.rules.specs.Files.{read_problem};
ghost use Rattle.rules.specs.Prepared.{prepare_numbers};
ghost use Rattle.problem_file.specs.Values.{problem_value};
ghost use Rattle.board.specs.Lent.{head_with, problem_with, left_after, JudgedAs};

use basis_making::{basis_file, basis_numbers};
use claim::{Head, Problem, no_problem};
use drawing::{draw_files, drawn_numbers};
use judging::{judge_files, prepared_numbers};
use layout::{COLUMN_COEFFICIENTS, ROWS};
use making::evidence_files;
use verdict::{Fault, numbers, pack, reply_numbers};

// The judge.
#[unsafe(no_mangle)]
pub extern "C" fn judge(problem: &[u8], answer: &[u8]) -> u64
    ensures { result ≡ packed (numbers (verdict problem.now answer.now)) }
{
    pack(numbers(judge_files(problem, answer)))
}

// Makes the evidence of a basis into a lent buffer.
#[unsafe(no_mangle)]
pub extern "C" fn make_evidence(problem: &[u8], answer: &[u8], buffer: &mut [u8]) -> u64
    ensures value { result ≡ packed (reply_numbers (make_evidence problem.now answer.now buffer.old).answer) }
    ensures buffer_after { buffer.new ≡ (make_evidence problem.now answer.now buffer.old).buffer }
{
    pack(reply_numbers(evidence_files(problem, answer, buffer)))
}

// The answer by a drawn row u and a drawn point. It is no verdict.
#[unsafe(no_mangle)]
pub extern "C" fn judge_drawn(problem: &[u8], answer: &[u8], u: &[u32; ROWS], point: u32) -> u64
    ensures { result ≡ packed (drawn_numbers (judge_drawn problem.now answer.now u.now point)) }
{
    pack(drawn_numbers(draw_files(problem, answer, u, point)))
}

// Makes an answer to a problem into a lent buffer, by so many order steps at most.
#[unsafe(no_mangle)]
pub extern "C" fn make_basis(problem: &[u8], steps: u32, buffer: &mut [u8]) -> u64
    ensures value { result ≡ packed (basis_numbers (make_basis problem.now steps buffer.old).answer) }
    ensures buffer_after { buffer.new ≡ (make_basis problem.now steps buffer.old).buffer }
{
    pack(basis_numbers(basis_file(problem, steps, buffer)))
}

// Reads a problem into a prepared form, number by number where the host keeps it. A refused problem leaves every number as it was.
#[unsafe(no_mangle)]
pub extern "C" fn prepare(
    problem: &[u8],
    p: &mut u32,
    m: &mut usize,
    n: &mut usize,
    orders: &mut [usize; ROWS],
    shifts: &mut [i32; ROWS],
    f: &mut [u32; COLUMN_COEFFICIENTS],
) -> u64
    ensures value { result ≡ packed (prepare_numbers (read_problem problem.now)) }
    ensures f_after { problem_with p.new m.new n.new orders.new shifts.new f.new ≡ left_after (problem_value (read_problem problem.now)) (problem_with p.old m.old n.old orders.old shifts.old f.old) }
{
    let mut form = no_problem();
    if let Err(refusal) = prepared::prepare(problem, &mut form) {
        return pack(numbers(Err(Fault::from(refusal))));
    }
    *p = form.head.p;
    *m = form.head.m;
    *n = form.head.n;
    *orders = form.head.orders;
    *shifts = form.head.shifts;
    *f = form.f;
    0
}

// Judges an answer to a prepared problem. The form may be anything.
#[unsafe(no_mangle)]
pub extern "C" fn judge_prepared(
    p: u32,
    m: usize,
    n: usize,
    orders: &[usize; ROWS],
    shifts: &[i32; ROWS],
    f: &[u32; COLUMN_COEFFICIENTS],
    answer: &[u8],
) -> u64
    ensures { JudgedAs (head_with p m n orders.now shifts.now) f.now answer.now result }
{
    let form = Problem {
        head: Head {
            p,
            m,
            n,
            orders: *orders,
            shifts: *shifts,
        },
        f: *f,
    };
    pack(prepared_numbers(judging::judge_prepared(&form, answer)))
}
