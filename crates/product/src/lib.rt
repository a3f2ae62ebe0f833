// Document 01, condition 3: the coefficients of P·F, and the first fault among them.
// Proofs see the sizes of document 01 as numbers.
#![tactic(auto, unfolding(rules::specs::Sizes::most_rows, rules::specs::Sizes::most_order, rules::specs::Sizes::most_length))]

pub mod coefficient;
pub mod fault;
