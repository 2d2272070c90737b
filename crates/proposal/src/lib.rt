// What it means to check a place that was proposed elsewhere: definitions in specs/, and in proofs/ what they mean.
#![tactic(auto)]
