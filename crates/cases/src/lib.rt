// The starred bench cases: a table of rows and the theorem that covers it, in specs/. No code.

#![tactic(auto)]
