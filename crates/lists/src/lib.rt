//! Lemmas on lists and sums that the library lacks, for the crates above. There is no code.
#![tactic(auto)]
