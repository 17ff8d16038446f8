// The best layout of a stack over any model of its groups; all of it stands in specs/ and proofs/.
#![tactic(auto)]
