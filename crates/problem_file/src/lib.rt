// The problem file of document 01, read front to back in one pass.
#![tactic(auto, unfolding(rules::specs::Sizes::most_rows, rules::specs::Sizes::most_order, layout::specs::Flat::column_place))]

ghost use Rattle.std.specs.Prelude.{◌≡◌};
ghost use Rattle.rules.specs.Files.{read_problem};
ghost use Rattle.place.specs.Places.{going};
ghost use Rattle.layout.specs.Flat.{filled, column_coefficients};
ghost use Rattle.storing.specs.Storing.{into};
ghost use Rattle.problem_file.specs.Values.{problem_value, problem_arrays};

mod records;

use crate::records::read_body;
use claim::{Problem, no_head, no_problem};
use place::{Place, Stop, front};
use problem_head::read_head;
use refusal::narrow;
use verdict::Refusal;

// s: the problem file, of any bytes. problem: the coefficients of F all 0; where the problem goes.
// How the reading goes on, which is at the file's end.
fn read_records(s: &[u8], problem: &mut Problem) -> Result<Place, Stop>
    requires { problem.old.f ≡ filled column_coefficients 0 }
    ensures { going result problem.new ≡ into problem_arrays (read_problem s.now) }
{
    problem.head = no_head();
    let (sizes, q) = read_head(s, front(0))?;
    problem.head.p = sizes.p;
    problem.head.m = sizes.m;
    problem.head.n = sizes.n;
    read_body(s, q, problem)
}

// s: the problem file, of any bytes. problem: the coefficients of F all 0; where the problem goes. Every number is 0 where it is refused.
// The refusal, if it is refused. The many numbers are read where they lie: a struct of arrays that is handed back is copied.
pub fn read_problem_into(s: &[u8], problem: &mut Problem) -> Result<(), Refusal>
    requires { problem.old.f ≡ filled column_coefficients 0 }
    ensures { (result, problem.new) ≡ problem_value (read_problem s.now) }
{
    if let Err(stop) = read_records(s, problem) {
        *problem = no_problem();
        return Err(narrow(stop));
    }
    Ok(())
}
