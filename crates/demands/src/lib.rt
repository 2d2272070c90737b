// The three demands on one page (specs/Demands), each proved of the calls' results, and document 01's examples. There
// is no code here: see specs/ and proofs/.
#![tactic(auto)]
