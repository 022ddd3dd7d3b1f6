// Sixty-four sums at a time of 16-bit words times pairs of 16-bit numbers, and the words that they make. Each sum begins two words after the one before
// it, so that the processor takes the products of four with a pair from eight words in a row, and adds them two by two, in one step.

#![tactic(auto)]

ghost use Rattle.std.specs.Prelude.{◌≡◌, ℕ, ◌+◌, ◌*◌, ◌^◌, ◌≤◌, ◌<◌, pos, nat_abs, ◌+ℤ◌, ◌*ℤ◌, length};
ghost use Rattle.arith.specs.Floor.{near};
ghost use Rattle.arith.specs.Lists.{at};
ghost use Rattle.pair_sums.specs.Pairs.{pair_product, pair_sum, place_of, line_sum, Small};

use crate::places::Places;

pub mod parts; // words in 16-bit parts
pub mod places; // where the words of pairs stand
pub mod samples; // whether all words are samples × 256
pub mod scratch; // words in one part or two, and the words of their sums

// Pair k, sixteen times.
pub fn write_row(first: i16, second: i16, k: usize, rows: &mut [i16; 1312])
    requires { k < 41 }
    ensures pairs { (j : ℕ) → j < 16 → (at rows.new (32 * k + 2 * j) ≡ first) × (at rows.new (32 * k + 2 * j + 1) ≡ second) }
    ensures front_same { (i : ℕ) → i < 32 * k → at rows.new i ≡ at rows.old i }
{
    for j in 0..16 {
        rows[32 * k + 2 * j] = first;
        rows[32 * k + 2 * j + 1] = second;
    }
}

// Rows from `first` on, of `count` pairs: pair k has the taps 2k and 2k + 1.
pub fn write_rows<F: Fn(usize) -> i16>(first: usize, count: usize, tap: F, rows: &mut [i16; 1312])
    requires inside { first + count ≤ 41 }
    requires callable { (c : ℕ) → c < 2 * count → F.pre tap c }
    ensures pairs { (k j : ℕ) → k < count → j < 16
        → F.post tap (2 * k) (at rows.new (32 * (first + k) + 2 * j)) × F.post tap (2 * k + 1) (at rows.new (32 * (first + k) + 2 * j + 1)) }
    ensures front_same { (i : ℕ) → i < 32 * first → at rows.new i ≡ at rows.old i }
{
    for k in 0..count {
        write_row(tap(2 * k), tap(2 * k + 1), first + k, rows);
    }
}

// The sum of two products.
fn pair_product(words: &[i16; 208], rows: &[i16; 1312], i: usize, r: usize) -> i32
    requires inside { (i + 1 < 208) × (r + 1 < 1312) }
    requires small { nat_abs (at rows.now r *ℤ at words.now i +ℤ at rows.now (r + 1) *ℤ at words.now (i + 1)) ≤ 2 ^ 30 }
    ensures { result ≡ at rows.now r *ℤ at words.now i +ℤ at rows.now (r + 1) *ℤ at words.now (i + 1) }
{
    rows[r] as i32 * words[i] as i32 + rows[r + 1] as i32 * words[i + 1] as i32
}

// Adds the products of the pair before to the sums, and makes those of pair k with the words from `place` on. Added a turn later, they stay by
// themselves: were they added at once, the compiler would add each product of a pair by itself. Place and k stay numbers, not two slices: it is by them
// that `pair_product` and all sums over it are stated.
fn add_pair(
    words: &[i16; 208],
    rows: &[i16; 1312],
    place: usize,
    k: usize,
    sums: &mut [i32; 16],
    last: &mut [i32; 16],
)
    requires inside { (place + 32 ≤ 208) × (k < 41) }
    requires small { (j : ℕ) → j < 16 → (nat_abs (at sums.old j +ℤ at last.old j) ≤ 2 ^ 30) × (nat_abs (pair_product rows.now words.now place k j) ≤ 2 ^ 30) }
    ensures { (j : ℕ) → j < 16 → at sums.new j +ℤ at last.new j ≡ at sums.old j +ℤ at last.old j +ℤ pair_product rows.now words.now place k j }
{
    for j in 0..16 {
        sums[j] += last[j];
        last[j] = pair_product(words, rows, place + 2 * j, 32 * k + 2 * j);
    }
}

// Writes sums and products of the last pair together.
fn add_last(sums: &[i32; 16], last: &[i32; 16], out: &mut [i32])
    requires room { length out.old ≡ 16 }
    requires small { (j : ℕ) → j < 16 → nat_abs (at sums.now j +ℤ at last.now j) ≤ 2 ^ 30 }
    ensures { (j : ℕ) → j < 16 → at out.new j ≡ at sums.now j +ℤ at last.now j }
{
    for j in 0..16 {
        out[j] = sums[j] + last[j];
    }
}

// Sixteen sums over all pairs: the words of the first begin at a, those of the next at b, and each further pair's two words on. Not a `Places`, which is
// of four such lines: each has its own a and b.
fn pair_sums(
    words: &[i16; 208],
    rows: &[i16; 1312],
    pairs: usize,
    a: usize,
    b: usize,
    out: &mut [i32],
)
    requires inside { (pairs ≤ 41) × (a + 32 ≤ 208) × (b + 2 * pairs + 28 ≤ 208) × (length out.old ≡ 16) }
    requires sums_small { (k j : ℕ) → k ≤ pairs → j < 16 → nat_abs (pair_sum rows.now words.now a b k j) ≤ 2 ^ 30 }
    requires products_small { (k j : ℕ) → k < pairs → j < 16 → nat_abs (pair_product rows.now words.now (place_of a b k) k j) ≤ 2 ^ 30 }
    ensures { (j : ℕ) → j < 16 → at out.new j ≡ pair_sum rows.now words.now a b pairs j }
{
    let mut sums = [0i32; 16];
    let mut last = [0i32; 16];
    let mut place = a;
    for k in 0..pairs {
        add_pair(words, rows, place, k, &mut sums, &mut last);
        place = b + 2 * k;
    }
    add_last(&sums, &last, out);
}

// Four lines of sixteen sums.
fn all_sums(words: &[i16; 208], rows: &[i16; 1312], places: Places, out: &mut [i32; 64])
    requires { Small rows.now words.now places.first places.others places.far places.pairs (2 ^ 30) }
    ensures { (p j : ℕ) → p < 4 → j < 16 → at out.new (16 * p + j) ≡ line_sum rows.now words.now places.first places.others places.far places.pairs p j }
{
    for p in 0..4 {
        let on = p / 2 * places.far + p % 2 * 32;
        let line = &mut out[16 * p..16 * p + 16];
        pair_sums(
            words,
            rows,
            places.pairs,
            places.first + on,
            places.others + on,
            line,
        );
    }
}

// high × 2^S + low, rounded to a multiple of 2^(S + 1): how many of those it is. This is `arith::near_parts` in 32 bits, of which the processor takes
// twice as many at a time.
fn rounded<const S: u32>(high: i32, low: i32) -> i32
    requires shift { S ≤ 13 }
    requires small { (nat_abs high ≤ 2 ^ 29) × (nat_abs low ≤ 2 ^ 30) }
    ensures { result ≡ near (pos (2 ^ S) *ℤ high +ℤ low) (2 ^ S * 2) }
{
    let nearly_half = (1 << S) - 1;
    let q = (high + (low >> S)) >> 1;
    let odd = q - 2 * (q >> 1);
    (high + ((low + nearly_half + odd) >> S)) >> 1
}

// Words from sums in two parts, in place of the upper ones.
#[tactic(auto, using(crate::proofs::Pairs::part_near))]
fn round_parts(upper: &mut [i32; 64], lower: &[i32; 64])
    requires { (t : ℕ) → t < 64 → (nat_abs (at upper.old t) ≤ 2 ^ 26) × (nat_abs (at lower.now t) ≤ 2 ^ 30) }
    ensures { (t : ℕ) → t < 64 → at upper.new t ≡ near (pos 65536 *ℤ at upper.old t +ℤ at lower.now t) 16384 }
{
    for t in 0..64 {
        upper[t] = rounded::<13>(8 * upper[t], lower[t]);
    }
}

// Words from sums of samples, in place of the sums. Apart from `round_parts`, since there are no lower sums to read.
#[tactic(auto, using(crate::proofs::Pairs::sample_near))]
fn round_samples(sums: &mut [i32; 64])
    requires { (t : ℕ) → t < 64 → nat_abs (at sums.old t) ≤ 2 ^ 30 }
    ensures { (t : ℕ) → t < 64 → at sums.new t ≡ near (pos 256 *ℤ at sums.old t) 16384 }
{
    for t in 0..64 {
        sums[t] = rounded::<5>(0, sums[t]);
    }
}
