// Demand 3: lists of calls, the exact player and the theorem over both, in specs/ and proofs/. No code.

#![tactic(auto)]
