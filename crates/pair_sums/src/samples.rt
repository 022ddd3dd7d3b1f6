// Whether words are samples × 256, as those of level 0 are where the builder wrote them.

ghost use Rattle.std.specs.Prelude.{true, ◌≡◌, ℕ, ◌+◌, ◌^◌, ◌≤◌, ◌<◌, nat_abs, length};
ghost use Rattle.arith.specs.Lists.{at};
ghost use Rattle.pair_sums.specs.Pairs.{Samples};

// A word that is lies, 2^23 up, between 0 and 2^24, and has its low 8 bits clear: so must the bits of all such words together.
fn are_samples(words: &[i32]) -> bool
    requires { (k : ℕ) → nat_abs (at words.now k) ≤ 2 ^ 26 }
    ensures { result ≡ true → Samples words.now }
{
    let mut bits = 0;
    for word in words {
        bits |= *word + 8388608;
    }
    if bits < 0 || 16777216 <= bits {
        return false;
    }
    bits as u32 % 256 == 0
}

// Whether all words are, 256 at a time: the first that is none ends the search soon.
pub fn only_samples(level: &[i32]) -> bool
    requires { (k : ℕ) → nat_abs (at level.now k) ≤ 2 ^ 26 }
    ensures { result ≡ true → Samples level.now }
{
    for words in level.chunks(256) {
        if !are_samples(words) {
            return false;
        }
    }
    true
}
