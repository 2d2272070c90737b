// Cutting links while searching: what the session is, and how its tables hold it. No code stands here.
#![tactic(auto)]
