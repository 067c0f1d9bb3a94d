// Calls one after another: no code, but what holds of every sequence of calls, in specs/ and proofs/.
#![tactic(auto)]
