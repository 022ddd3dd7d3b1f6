// The level store: a header of S, T and the lengths of its levels, then levels 0..T, as signed words. `check` accepts a store or tells
// what turns it away.

#![tactic(auto)]

ghost use Rattle.std.specs.Prelude.{◌≡◌, ◌&&◌, ◌+◌, ◌≤◌, length};
ghost use Rattle.arith.specs.Lists.{at, part};
ghost use Rattle.refusal.specs.Number.{number_of};
ghost use Rattle.store.specs.Sizes.{samples_in_range, top_in_range};
ghost use Rattle.store.specs.Store.{sample_count, top_level};
ghost use Rattle.store.specs.Check.{lengths_right, store_number};

use arith::words::between;
use octave::half_length;
use refusal::Refusal;

pub mod sizes; // lengths of levels and stores

// S, as a header names it. That there is a header is a clause of these public functions: `check` reads it before it knows what else a store has.
#[tactic(auto, unfolding(crate::specs::Store::sample_count))]
pub fn sample_count(store: &[i32]) -> usize
    requires { 2 ≤ length store.now }
    ensures { result ≡ sample_count store.now }
{
    store[0].unsigned_abs() as usize
}

// T, as a header names it.
#[tactic(auto, unfolding(crate::specs::Store::top_level))]
pub fn top_level(store: &[i32]) -> u32
    requires { 2 ≤ length store.now }
    ensures { result ≡ top_level store.now }
{
    store[1].unsigned_abs()
}

// Number 8: whether S and T, as signed words, are in their ranges.
#[tactic(auto, unfolding(crate::specs::Sizes::samples_in_range, crate::specs::Sizes::top_in_range))]
fn sizes_in_range(store: &[i32]) -> bool
    requires { 2 ≤ length store.now }
    ensures { result ≡ samples_in_range (at store.now 0) && top_in_range (at store.now 1) }
{
    between(store[0], 1, 1048576) && between(store[1], 0, 4)
}

// The lengths of levels 0..T, as a header writes them.
fn written_lengths(store: &[i32]) -> &[i32]
    requires { 3 + top_level store.now ≤ length store.now }
    ensures { result.now ≡ part store.now 2 (1 + top_level store.now) }
{
    &store[2..3 + top_level(store) as usize]
}

// Number 18: whether each written length is the one that S and T give.
fn lengths_right(store: &[i32]) -> bool
    requires { (sample_count store.now ≤ 1048576) × (top_level store.now ≤ 4) × (3 + top_level store.now ≤ length store.now) }
    ensures { result ≡ lengths_right store.now }
{
    let mut length = sample_count(store);
    for word in written_lengths(store) {
        if *word != length as i32 {
            return false;
        }
        length = half_length(length);
    }
    true
}

// Accepts a store, or tells the first of the numbers 9, 8, 9 and 18 whose condition holds.
pub fn check(store: &[i32]) -> Result<(), Refusal>
    ensures { number_of result ≡ store_number store.now }
{
    if store.len() < 2 {
        return Err(Refusal::StoreShort);
    }
    if !sizes_in_range(store) {
        return Err(Refusal::SamplesOrTop);
    }
    if store.len() < sizes::store_length(sample_count(store), top_level(store)) {
        return Err(Refusal::StoreShort);
    }
    if !lengths_right(store) {
        return Err(Refusal::StoreLevelLength);
    }
    Ok(())
}
