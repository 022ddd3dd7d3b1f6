// Words in 16-bit parts, in their order or every second word by itself.

ghost use Rattle.std.specs.Prelude.{◌≡◌, ℕ, ◌+◌, ◌*◌, ◌/◌, ◌^◌, ◌≤◌, ◌<◌, nat_abs, length};
ghost use Rattle.arith.specs.Lists.{at};
ghost use Rattle.pair_sums.specs.Pairs.{upper_part, lower_part, sample_part};

use arith::narrow;

// The upper part.
pub(crate) fn upper_part(x: i32) -> i16
    requires { nat_abs x ≤ 2 ^ 26 }
    ensures { result ≡ upper_part x }
{
    ((x + 32768) >> 16) as i16
}

// The lower part.
pub(crate) fn lower_part(x: i32) -> i16
    requires { nat_abs x ≤ 2 ^ 26 }
    ensures { result ≡ lower_part x }
{
    (x - ((x + 32768) >> 16) * 65536) as i16
}

// The one part of a sample × 256.
pub(crate) fn sample_part(x: i32) -> i16
    ensures { result ≡ sample_part x }
{
    narrow(x >> 8)
}

// The part of each word.
pub(crate) fn write<F: Fn(i32) -> i16>(words: &[i32], out: &mut [i16; 208], part: F)
    requires room { length words.now ≤ 208 }
    requires callable { (i : ℕ) → F.pre part (at words.now i) }
    ensures { (i : ℕ) → i < length words.now → F.post part (at words.now i) (at out.new i) }
{
    for i in 0..words.len() {
        out[i] = part(words[i]);
    }
}

// The parts of pairs of words: those of the first words, and 104 places on those of the second.
pub(crate) fn split<F: Fn(i32) -> i16>(words: &[i32], out: &mut [i16; 208], part: F)
    requires room { length words.now ≤ 208 }
    requires callable { (i : ℕ) → F.pre part (at words.now i) }
    ensures { (i : ℕ) → i < length words.now / 2
        → F.post part (at words.now (2 * i)) (at out.new i) × F.post part (at words.now (2 * i + 1)) (at out.new (104 + i)) }
{
    for i in 0..words.len() / 2 {
        out[i] = part(words[2 * i]);
        out[104 + i] = part(words[2 * i + 1]);
    }
}
