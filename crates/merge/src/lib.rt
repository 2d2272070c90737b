// The merged pattern: the quotient of a pattern by mutual matching.
#![tactic(auto)]
