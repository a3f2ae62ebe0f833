// The answer file of document 01, read front to back in one pass.
#![tactic(auto, unfolding(rules::specs::Sizes::most_rows, rules::specs::Sizes::most_length, layout::specs::Flat::square_place, layout::specs::Flat::entry_place))]

ghost use Rattle.std.specs.Prelude.{◌≡◌, ◌≤◌};
ghost use Rattle.rules.specs.Sizes.{most_rows};
ghost use Rattle.layout.specs.Flat.{filled, entry_coefficients};
ghost use Rattle.answer_file.specs.Values.{answer_value, read_answer};

mod records;

use crate::records::read_all;
use claim::{Answer, Head, no_answer};
use layout::SQUARE;
use place::front;
use refusal::narrow;
use verdict::Refusal;

// t: the answer file, of any bytes. head: the problem's. with_evidence: whether the `CE` record is due; without it the file ends after the
// last entry. answer: the entries' coefficients all 0; where the answer goes, with C all 0 where it was not due. Every number is 0 where it is
// refused.
// The refusal, if it is refused.
pub fn read_answer_into(
    t: &[u8],
    head: &Head,
    with_evidence: bool,
    answer: &mut Answer,
) -> Result<(), Refusal>
    requires m_le_most_rows { (head.now.m ≤ most_rows) × (head.now.n ≤ most_rows) }
    requires entries_value { answer.old.basis.entries ≡ filled entry_coefficients 0 }
    ensures { (result, answer.new) ≡ answer_value (read_answer head.now.p head.now.m head.now.n with_evidence t.now) }
{
    answer.basis.lengths = [0; SQUARE];
    answer.c = [0; SQUARE];
    if let Err(stop) = read_all(t, front(1), head, with_evidence, answer) {
        *answer = no_answer();
        return Err(narrow(stop));
    }
    Ok(())
}
