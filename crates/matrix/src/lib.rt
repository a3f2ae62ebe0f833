// The matrices of document 01's conditions 1 and 4: the leading matrix, and [P(0) C].
// Proofs see the sizes of document 01 as numbers, and the places in flat arrays by their rows and columns.
#![tactic(auto, unfolding(rules::specs::Sizes::most_rows, rules::specs::Sizes::most_length, layout::specs::Flat::entry_place, layout::specs::Flat::square_place))]

pub mod leading;
pub mod rank;
