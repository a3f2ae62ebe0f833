// Theorems of crates below that no proof cites now, where these crates need not be proved again for them. No code.
#![tactic(auto)]
