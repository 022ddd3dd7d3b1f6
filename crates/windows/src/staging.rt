// The words that a run reads, limited, the last first, so that the taps of a phase go forward along them.

ghost use Rattle.std.specs.Prelude.{true, ◌≡◌, ℕ, suc, ◌+◌, ◌-◌, ◌^◌, ◌≤◌, ◌<◌, pos, nat_abs, ◌-ℤ◌, length};
ghost use Rattle.arith.specs.Lists.{at, word_at};
ghost use Rattle.values.specs.Values.{limited_word};

use arith::words::{between, miss};

// 2^(23 + level): the limit of the level's words. That a level is 4 at most is said by each function that takes one: a type for it would be taken
// apart again at each shift here, and at each place of a level in what is lent.
fn level_bound(level: u32) -> i32
    requires { level ≤ 4 }
    ensures { result ≡ pos (2 ^ (23 + level)) }
{
    8388608 << level
}

// Word `end` − `back`, or 0 outside the level.
fn word_before(words: &[i32], end: usize, back: usize) -> i32
    ensures { result ≡ word_at words.now (pos end -ℤ pos back) }
{
    if end < back {
        return 0;
    }
    let i = end - back;
    if i < words.len() {
        return words[i];
    }
    0
}

// Words into the window, the last first, and whether none lies beyond ±bound. The loop has no exit on the way, so that it takes several words at
// once, and reads them in their order, in which the processor fetches them ahead. A test of all and
// then a copy, measured in Rust, takes 1.4 to 1.7 times as long.
fn copied(window: &mut [i32], words: &[i32], bound: i32) -> bool
    requires room { (length window.old ≡ length words.now) × (length words.now < 2 ^ 32) }
    requires bound { (nat_abs bound ≤ 2 ^ 27) × (bound ≡ pos (nat_abs bound)) }
    ensures copy { (k : ℕ) → k < length words.now → at window.new k ≡ at words.now (length words.now - suc k) }
    ensures within { result ≡ true → (k : ℕ) → k < length words.now → nat_abs (at words.now k) ≤ nat_abs bound }
{
    let count = words.len();
    let low = -bound;
    let mut misses = 0;
    for k in 0..count {
        window[count - 1 - k] = words[k];
        misses += miss(between(words[k], low, bound));
    }
    misses == 0
}

// The words of a level, from word `end` back, limited, 0 outside the level.
fn limited_words(window: &mut [i32], words: &[i32], level: u32, end: usize)
    requires { level ≤ 4 }
    ensures { (k : ℕ) → k < length window.old → at window.new k ≡ limited_word words.now level (pos end -ℤ pos k) }
{
    let bound = level_bound(level);
    for k in 0..window.len() {
        window[k] = word_before(words, end, k).clamp(-bound, bound);
    }
}

// The same, where words that limiting leaves as they are are copied.
pub(crate) fn staged(window: &mut [i32], words: &[i32], level: u32, end: usize)
    requires { (level ≤ 4) × (length window.old < 2 ^ 32) × (end < 2 ^ 62) }
    ensures { (k : ℕ) → k < length window.old → at window.new k ≡ limited_word words.now level (pos end -ℤ pos k) }
{
    let count = window.len();
    let behind = end + 1;
    if count <= behind && behind <= words.len() {
        if copied(window, &words[behind - count..behind], level_bound(level)) {
            return;
        }
    }
    limited_words(window, words, level, end);
}
