// Matching of any kind as a row of sets: a problem, its row, the last set and the counts, and what they mean. No code:
// see specs/ and proofs/.
#![tactic(auto)]
