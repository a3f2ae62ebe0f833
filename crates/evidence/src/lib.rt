// The `CE` record of the evidence that a basis has, written into a lent buffer.
#![tactic(auto)]

ghost use Rattle.std.specs.Prelude.{◌≡◌, ◌+◌, ◌*◌, ◌≤◌, ◌<◌, length};
ghost use Rattle.rules.specs.RecordBytes.{evidence_bytes};
ghost use Rattle.rules.specs.Writer.{bytes, write_all, write_CE};
ghost use Rattle.rules.specs.Evidence.{evidence_of};
ghost use Rattle.writer.specs.Appended.{Appended};
ghost use Rattle.claim.specs.Claims.{problem_in, basis_in};
ghost use Rattle.claim.specs.Sound.{SoundProblem, SoundBasis};
ghost use Rattle.field.specs.Modulus.{modulus_of};
ghost use Rattle.evidence.specs.Record.{row_numbers};

use claim::{Basis, Problem};
use field::{Modulus, modulus_of};
use product::fault::order_coefficient;
use writer::{put_text, put4};

// problem, modulus, basis: of a claim. i: a row.
// Puts the numbers of row i at `at` and gives the place after them.
fn put_row(
    out: &mut [u8],
    at: usize,
    problem: &Problem,
    modulus: Modulus,
    basis: &Basis,
    i: usize,
) -> usize
    requires sound { SoundProblem problem.now × SoundBasis problem.now.head basis.now.lengths basis.now.entries }
    requires modulus_value { modulus ≡ modulus_of problem.now.head.p }
    requires i_lt_m { (i < problem.now.head.m) × (at + 4 * problem.now.head.n ≤ length out.old) }
    ensures { Appended out.old out.new at result (write_all (bytes 4) (row_numbers (problem_in problem.now) (basis_in problem.now.head.m basis.now) i)) }
{
    let mut end = at;
    for j in 0..problem.head.n {
        let v = order_coefficient(problem, modulus, basis, i, j);
        end = put4(out, end, v);
    }
    end
}

// problem, basis: of a claim.
// Puts the whole record at the front and gives its length.
pub fn put_evidence(out: &mut [u8], problem: &Problem, basis: &Basis) -> usize
    requires sound { SoundProblem problem.now × SoundBasis problem.now.head basis.now.lengths basis.now.entries }
    requires n_in_bounds { evidence_bytes problem.now.head.m problem.now.head.n ≤ length out.old }
    ensures { Appended out.old out.new 0 result (write_CE (evidence_of (problem_in problem.now) (basis_in problem.now.head.m basis.now))) }
{
    let modulus = modulus_of(problem.head.p);
    let mut end = put_text(out, 0, b"CE");
    for i in 0..problem.head.m {
        end = put_row(out, end, problem, modulus, basis, i);
    }
    end
}
