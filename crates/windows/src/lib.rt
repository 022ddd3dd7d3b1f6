#![tactic(auto)]

mod parts; // words in 16-bit parts
mod staging; // the words that a run reads
mod places; // where each value's coefficients and words begin
mod runs; // the values of a run, from the words of its window
mod window; // values at a run of positions
pub mod source; // what values are read from, and values however far apart
