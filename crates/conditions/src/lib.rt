// The four conditions of document 01, on a claim that lies in arrays.
#![tactic(auto, unfolding(rules::specs::Sizes::most_rows))]

ghost use Rattle.std.specs.Prelude.{◌≡◌, ◌<◌, Err, MatchOption, IfSome, Ok};
ghost use Rattle.rules.specs.Sizes.{most_rows};
ghost use Rattle.rules.specs.Verdict.{judge_claim};
ghost use Rattle.verdict.specs.Meant.{meant};
ghost use Rattle.field.specs.Modulus.{modulus_of};
ghost use Rattle.claim.specs.Claims.{claim_in};
ghost use Rattle.claim.specs.Sound.{SoundClaim};
ghost use Rattle.conditions.specs.Applies.{applies, fault_if};
ghost use Rattle.conditions.specs.Findings.{found};

use claim::{Answer, Problem};
use degrees::{degree_sum, not_negative};
use determinant::determinant_of;
use elimination::{dependent, singular};
use field::{Modulus, modulus_of};
use matrix::leading::leading_matrix;
use matrix::rank::rank_matrix;
use polynomial::is_monomial;
use product::fault::{first_low_fault, first_order_fault};
use verdict::{Fault, Verdict};

// applies: whether a condition is broken. fault: what is found then.
// The fault, where it applies.
fn refuse_if(applies: bool, fault: Fault) -> Result<(), Fault>
    ensures { found result ≡ fault_if applies (meant (Err fault)) }
{
    if applies { Err(fault) } else { Ok(()) }
}

// place: of a fault, its row and its column, or none. fault: what is found in a row and a column.
// The fault at the place, where there is one.
fn refuse_at<F: FnOnce(u16, u32) -> Fault>(
    place: Option<(usize, usize)>,
    fault: F,
) -> Result<(), Fault>
    requires within { IfSome place (λ at. (at.0 < most_rows) × (at.1 < most_rows)) }
    requires callable { F.IsAlwaysCallable fault }
    ensures { MatchOption place (result ≡ Ok tt) (λ at. (refused : _) × (result ≡ Err refused) × F.post fault at.0 at.1 refused) }
{
    match place {
        Some((i, j)) => Err(fault(i as u16, j as u32)),
        None => Ok(()),
    }
}

// problem, answer: of a claim.
// 9: where the leading matrix has determinant 0.
fn check_leading_matrix(problem: &Problem, answer: &Answer) -> Result<(), Fault>
    requires sound { SoundClaim problem.now answer.now }
    ensures { found result ≡ applies 9 (claim_in problem.now answer.now) }
{
    let leading = leading_matrix(&problem.head, &answer.basis);
    let is_singular = singular(leading, problem.head.p, problem.head.m);
    refuse_if(is_singular, Fault::NotReduced)
}

// problem, modulus, answer: of a claim.
// 10: where the determinant is no nonzero constant times a power of X.
fn check_determinant(problem: &Problem, modulus: Modulus, answer: &Answer) -> Result<(), Fault>
    requires sound { SoundClaim problem.now answer.now }
    requires modulus_value { modulus ≡ modulus_of problem.now.head.p }
    ensures { found result ≡ applies 10 (claim_in problem.now answer.now) }
{
    let determinant = determinant_of(&answer.basis, modulus, problem.head.m);
    refuse_if(!is_monomial(determinant), Fault::NotMonomial)
}

// problem, modulus, answer: of a claim.
// 11: the first place where the product has a fault below the orders.
fn check_below_orders(problem: &Problem, modulus: Modulus, answer: &Answer) -> Result<(), Fault>
    requires sound { SoundClaim problem.now answer.now }
    requires modulus_value { modulus ≡ modulus_of problem.now.head.p }
    ensures { found result ≡ applies 11 (claim_in problem.now answer.now) }
{
    let place = first_low_fault(problem, modulus, &answer.basis);
    refuse_at(place, Fault::BelowOrder)
}

// problem, modulus, answer: of a claim.
// 12: the first place where the product has a fault at the orders.
fn check_at_orders(problem: &Problem, modulus: Modulus, answer: &Answer) -> Result<(), Fault>
    requires sound { SoundClaim problem.now answer.now }
    requires modulus_value { modulus ≡ modulus_of problem.now.head.p }
    ensures { found result ≡ applies 12 (claim_in problem.now answer.now) }
{
    let place = first_order_fault(problem, modulus, answer);
    refuse_at(place, Fault::AtOrder)
}

// problem, answer: of a claim.
// 13: where the rank of [P(0) C] is below m.
fn check_rank(problem: &Problem, answer: &Answer) -> Result<(), Fault>
    requires sound { SoundClaim problem.now answer.now }
    ensures { found result ≡ applies 13 (claim_in problem.now answer.now) }
{
    let head = &problem.head;
    let is_dependent = dependent(rank_matrix(head, answer), head.p, head.m, head.m + head.n);
    refuse_if(is_dependent, Fault::LowRank)
}

// problem, answer: a claim that was read.
// Its verdict: "The first that applies is given, … then 9 to 13 by number."
#[tactic(auto, using(crate::proofs::Judged::judged))]
pub fn conditions(problem: &Problem, answer: &Answer) -> Verdict
    requires { SoundClaim problem.now answer.now }
    ensures { meant result ≡ judge_claim (claim_in problem.now answer.now) }
{
    let modulus = modulus_of(problem.head.p);
    check_leading_matrix(problem, answer)?;
    check_determinant(problem, modulus, answer)?;
    check_below_orders(problem, modulus, answer)?;
    check_at_orders(problem, modulus, answer)?;
    check_rank(problem, answer)?;
    let sum = degree_sum(&problem.head, &answer.basis).ok_or(Fault::NotReduced)?;
    Ok(not_negative(sum))
}
