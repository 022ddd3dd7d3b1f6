// Request (h): how far the tone of another recording can lie from that of the first, in specs/ and proofs/. No code.

#![tactic(auto)]
