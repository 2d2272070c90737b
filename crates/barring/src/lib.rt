// The least of a pattern's links that still says that there is no place around a centre: what is answered, what it
// means, and how it is computed. There is no code here: see specs/ and proofs/.
#![tactic(auto)]
