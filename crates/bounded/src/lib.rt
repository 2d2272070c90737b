// Links that a path of a few board links may meet: definitions and laws alone.
#![tactic(auto)]
