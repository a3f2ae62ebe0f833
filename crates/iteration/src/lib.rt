// Document 02, L7: "the plain iteration of source document 004", order step by order step. The product of P and F is kept beside P, so that
// a residual is looked up, and so are the row degrees.
#![tactic(auto, unfolding(rules::specs::Sizes::most_rows, rules::specs::Sizes::most_order))]

ghost use Rattle.std.specs.Prelude.{◌≤◌};
ghost use Rattle.rules.specs.Sizes.{most_order};
ghost use Rattle.laws.specs.Valid.{ValidProblem};
ghost use Rattle.claim.specs.Claims.{problem_in};
ghost use Rattle.claim.specs.Sound.{SoundHead, SoundColumns};
ghost use Rattle.iteration.specs.Made.{EntriesAfter, BasisAfter};

mod measure;
mod start;
mod state;

use crate::measure::lengths;
use crate::start::start_of;
use claim::{Basis, Problem};
use layout::ENTRY_COEFFICIENTS;

// problem: one that is valid. done: a number of steps, at most the largest order that is allowed.
// The coefficients of P after so many steps.
fn entries_after(problem: &Problem, done: usize) -> [u32; ENTRY_COEFFICIENTS]
    requires sound_head { SoundHead problem.now.head × (SoundColumns problem.now.head problem.now.f × ValidProblem (problem_in problem.now)) }
    requires done_le_most_order { done ≤ most_order }
    ensures { EntriesAfter (problem_in problem.now) done result }
{
    let mut state = start_of(problem);
    for k in 0..done {
        state.step(&problem.head, k);
    }
    state.entries
}

// problem: one that is valid. done: a number of steps, at most the largest order that is allowed.
// P after so many steps.
pub fn basis_after(problem: &Problem, done: usize) -> Basis
    requires sound_head { SoundHead problem.now.head × (SoundColumns problem.now.head problem.now.f × ValidProblem (problem_in problem.now)) }
    requires done_le_most_order { done ≤ most_order }
    ensures { BasisAfter (problem_in problem.now) done result.lengths result.entries }
{
    let entries = entries_after(problem, done);
    let lengths = lengths(&entries);
    Basis { lengths, entries }
}
