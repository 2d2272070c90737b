// What it means to match: dual simulation, match graph, perfect subgraph, quotient. There is no code here: see specs/
// and proofs/.
#![tactic(auto)]
