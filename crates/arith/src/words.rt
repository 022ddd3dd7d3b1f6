// Words of a slice: the size of one, and whether one, or each of several, lies in a range.

ghost use Rattle.std.specs.Prelude.{cond, ◌≡◌, ◌^◌, ◌≤◌, ◌<◌, nat_abs, length};
ghost use Rattle.arith.specs.Lists.{at};
ghost use Rattle.arith.specs.Tests.{within, every};

// The absolute value of a word. The cast stands here once for the words of a book's head, and the edit magnitude_off_by_one is about it.
pub fn word_size(words: &[i32], i: usize) -> usize
    requires { i < length words.now }
    ensures { (result ≡ nat_abs (at words.now i)) × (result ≤ 2 ^ 31) }
{
    words[i].unsigned_abs() as usize
}

// Whether lo ≤ x ≤ hi.
pub fn between(x: i32, lo: i32, hi: i32) -> bool
    ensures { result ≡ within lo hi x }
{
    lo <= x && x <= hi
}

// The same of a word. With the index as a parameter the tests of a book's head read alike, and each has one clause.
pub fn word_between(words: &[i32], i: usize, lo: i32, hi: i32) -> bool
    requires { i < length words.now }
    ensures { result ≡ within lo hi (at words.now i) }
{
    between(words[i], lo, hi)
}

// 1 where a test fails. A loop that counts these has no exit on the way, so that it takes several words at once.
pub fn miss(holds: bool) -> u32
    ensures { (result ≡ cond holds 0 1) × (result ≤ 1) }
{
    if holds { 0 } else { 1 }
}

// Whether each word lies in lo..hi. The loop looks at each, with no exit on the way, so that it takes several at once.
pub fn all_between(words: &[i32], lo: i32, hi: i32) -> bool
    ensures { result ≡ every (length words.now) (λ i. within lo hi (at words.now i)) }
{
    let mut all = true;
    for x in words {
        all &= between(*x, lo, hi);
    }
    all
}
