// Level values: what a level of a store is worth at a position. Nothing here knows a voice.

#![tactic(auto)]

pub mod layout; // where the parts of a lent book and store lie
