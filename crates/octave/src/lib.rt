// An octave level from the one below it: each word is a sum over the level taps, centred on every second word.

#![tactic(auto)]

ghost use Rattle.std.specs.Prelude.{◌≡◌, ℕ, ◌+◌, ◌*◌, ◌^◌, ◌≤◌, ◌<◌, pred, pos, nat_abs, ◌+ℤ◌, ◌-ℤ◌, ◌*ℤ◌, length};
ghost use Rattle.arith.specs.Lists.{at, word_at};
ghost use Rattle.arith.specs.Sum.{sum_around};
ghost use Rattle.octave.specs.Octave.{half_length, level_word, next_level};
ghost use Rattle.octave.specs.Inner.{WordsFrom};

use crate::blocks::{Plan, write_rows};
use crate::taps::Taps;
use pair_sums::samples::only_samples;
use pair_sums::scratch::{Form, Scratch};

pub mod taps; // the taps of a level
mod groups; // sixty-four words of a level at a time
mod half_band; // the same where every second tap is 0
mod blocks; // the way that taps and words allow

// Half of a length, rounded up.
#[tactic(auto, unfolding(crate::specs::Octave::half_length))]
pub fn half_length(n: usize) -> usize
    ensures { result ≡ half_length n }
{
    n.div_ceil(2)
}

// Word `centre` − k, or 0 before the level. `centre` is a loop's number here and below, and its place in the level a test, not a type.
fn word_before(level: &[i32], centre: usize, k: usize) -> i64
    requires { centre < length level.now }
    ensures { result ≡ word_at level.now (pos centre -ℤ pos k) }
{
    if k <= centre {
        level[centre - k] as i64
    } else {
        0
    }
}

// Word `centre` + k, or 0 after the level.
fn word_after(level: &[i32], centre: usize, k: usize) -> i64
    requires { (centre < length level.now) × (k ≤ 41) }
    ensures { result ≡ word_at level.now (pos centre +ℤ pos k) }
{
    if k < level.len() - centre {
        level[centre + k] as i64
    } else {
        0
    }
}

// The centre's product: the sum over the first tap alone.
fn first_product(plan: &Plan<'_>, centre: usize) -> i64
    requires { centre < length plan.now.level.now }
    ensures { result ≡ sum_around 0 (λ k. at plan.now.taps.words.now (nat_abs k) *ℤ word_at plan.now.level.now (pos centre +ℤ k)) }
{
    plan.taps.words[0] as i64 * plan.level[centre] as i64
}

// The sum of taps times words around word `centre`, words outside the level being 0.
fn sum_around(plan: &Plan<'_>, centre: usize) -> i64
    requires { centre < length plan.now.level.now }
    ensures { result ≡ sum_around (pred (length plan.now.taps.words.now))
        (λ k. at plan.now.taps.words.now (nat_abs k) *ℤ word_at plan.now.level.now (pos centre +ℤ k)) }
{
    let level = plan.level;
    let words = plan.taps.words;
    let mut sum = first_product(plan, centre);
    for k in 1..words.len() {
        sum += words[k] as i64 * (word_before(level, centre, k) + word_after(level, centre, k));
    }
    sum
}

// Word n of the level above, wherever it lies.
fn level_word(plan: &Plan<'_>, n: usize) -> i32
    requires { 2 * n < length plan.now.level.now }
    ensures { result ≡ level_word plan.now.taps.words.now plan.now.level.now n }
{
    arith::near(sum_around(plan, 2 * n), 8192) as i32
}

// Writes the words of the level above from word n on, one by one.
#[tactic(auto, unfolding(crate::specs::Octave::half_length))]
fn write_words(plan: &Plan<'_>, n: usize, words: &mut [i32])
    requires { n + length words.old ≤ half_length (length plan.now.level.now) }
    ensures { WordsFrom plan.now.taps.words.now plan.now.level.now n words.new }
{
    for i in 0..words.len() {
        words[i] = level_word(plan, n + i);
    }
}

// Writes the level above: its first words, which reach before the level, one by one, and the others in blocks.
pub fn next_level(taps: &Taps<'_>, level: &[i32], above: &mut [i32])
    requires room { length above.old ≡ half_length (length level.now) }
    requires small { (k : ℕ) → nat_abs (at level.now k) ≤ 2 ^ 26 }
    ensures { above.new ≡ next_level taps.now.words.now level.now }
{
    let mut rows = [0i16; 1312];
    let way = write_rows(taps, &mut rows);
    let form = if only_samples(level) {
        Form::OnePart
    } else {
        Form::TwoParts
    };
    let plan = Plan {
        taps: *taps,
        level,
        way,
        rows: &rows,
        form,
    };
    let front = above.len().min(taps.words.len() / 2);
    write_words(&plan, 0, &mut above[..front]);
    let mut scratch = Scratch::new();
    for i in 0..(above.len() - front).div_ceil(64) {
        let n = front + 64 * i;
        let end = above.len().min(n + 64);
        plan.write(n, &mut scratch, &mut above[n..end]);
    }
}
