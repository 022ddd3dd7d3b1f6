// Sums of 16-bit products, and the values that they make. The width W of a row is a constant, and no two sums of one loop read the same numbers: only
// then does the compiler take eight products at a time.

#![tactic(auto)]

ghost use Rattle.std.specs.Prelude.{◌≡◌, ℕ, suc, ◌-◌, ◌%◌, ◌^◌, ◌≤◌, ◌<◌, pos, ◌*ℤ◌, length, get_or};
ghost use Rattle.arith.specs.Lists.{at, tabulate};
ghost use Rattle.dot_products.specs.Sums.{dot_sum, Summable, Readable, sum_here, sum_next, mixed_value, PartSums, parts_value};

pub mod places; // where coefficients and words begin

use crate::places::Places;
use arith::{near, near_parts};

// The sum of W words times coefficients. In line always: a sum of 32 that is called makes a play of 24 taps 5 % slower.
#[inline(always)]
fn dot<const W: usize>(words: &[i16], coefficients: &[i16]) -> i32
    requires { Summable words.now 0 coefficients.now 0 W }
    ensures { result ≡ dot_sum words.now 0 coefficients.now 0 W }
{
    let mut sum: i32 = 0;
    for k in 0..W {
        sum += words[k] as i32 * coefficients[k] as i32;
    }
    sum
}

// The value of words that are samples × 256, from the sums of the samples over a phase and over the next one. Positions of level 0 are 2^-28
// words apart, so that of their offsets, which are in 2^-32, only the upper 28 bits count: near((2^28 × base + offset / 16 × (next − base)) / 2^34).
fn sample_value(base: i32, next: i32, offset: u64) -> i64
    requires { (offset < 2 ^ 32) × (offset % 16 ≡ 0) }
    ensures { result ≡ mixed_value (base *ℤ pos 256) (next *ℤ pos 256) offset }
{
    let b = base as i64;
    near(
        b * 268435456 + (offset / 16) as i64 * (next as i64 - b),
        8589934592,
    )
}

// The value of words in two parts: of the sums of the high and the low parts over a phase, and of those over the next one. It is
// near((2^14 × (2^32 × high1 + 2^18 × low1 + offset × (high2 − high1)) + offset × (low2 − low1)) / (2^14 × 2^32)).
fn part_value(high1: i32, low1: i32, high2: i32, low2: i32, offset: u64) -> i64
    requires { PartSums high1 low1 high2 low2 offset }
    ensures { result ≡ parts_value high1 low1 high2 low2 offset }
{
    let e = offset as i64;
    let h = high1 as i64;
    let l = low1 as i64;
    near_parts(
        h * 4294967296 + l * 262144 + e * (high2 as i64 - h),
        e * (low2 as i64 - l),
        16384,
        2147483648,
    )
}

// The sums of x over the rows, and of y over the rows behind them. Words and table stand in no struct: high and low parts go with the table in this order
// here and in the other one below, so that a struct of them would be made for each call alone.
pub fn first_sums<const W: usize>(
    one: &mut [i32],
    two: &mut [i32],
    x: &[i16],
    y: &[i16],
    table: &[i16],
    places: &Places,
)
    requires room { (length places.now.rows.now ≤ length one.old) × (length places.now.rows.now ≤ length two.old) }
    requires readable { Readable x.now y.now table.now W places.now.rows.now places.now.firsts.now }
    ensures { (k : ℕ) → k < length places.now.rows.now
        → (at one.new k ≡ sum_here x.now table.now W places.now.rows.now places.now.firsts.now k)
        × (at two.new k ≡ sum_next y.now table.now W places.now.rows.now places.now.firsts.now k) }
{
    for k in 0..places.rows.len() {
        let first = places.firsts[k] as usize;
        let row = places.rows[k] as usize;
        one[k] = dot::<W>(&x[first..], &table[row..]);
        two[k] = dot::<W>(&y[first..], &table[row + W..]);
    }
}

// The values of words in two parts, newest first. `one` has the sums of the high parts over the rows, `two` those of the low parts over the rows behind
// them.
pub fn part_values<const W: usize>(
    line: &mut [i64],
    one: &[i32],
    two: &[i32],
    low: &[i16],
    high: &[i16],
    table: &[i16],
    places: &Places,
)
    requires room { (length line.old ≡ length places.now.rows.now)
        × (length places.now.rows.now ≤ length one.now)
        × (length places.now.rows.now ≤ length two.now) }
    requires readable { Readable low.now high.now table.now W places.now.rows.now places.now.firsts.now }
    requires sums { (k : ℕ) → k < length places.now.rows.now
        → PartSums
        (at one.now k)
        (sum_here low.now table.now W places.now.rows.now places.now.firsts.now k)
        (sum_next high.now table.now W places.now.rows.now places.now.firsts.now k)
        (at two.now k)
        (get_or places.now.offsets.now k 0) }
    ensures { let n = length places.now.rows.now in
        line.new ≡ tabulate n (λ j.
        parts_value
        (at one.now (n - suc j))
        (sum_here low.now table.now W places.now.rows.now places.now.firsts.now (n - suc j))
        (sum_next high.now table.now W places.now.rows.now places.now.firsts.now (n - suc j))
        (at two.now (n - suc j))
        (get_or places.now.offsets.now (n - suc j) 0)) }
{
    let count = places.rows.len();
    for k in 0..count {
        let first = places.firsts[k] as usize;
        let row = places.rows[k] as usize;
        let base = dot::<W>(&low[first..], &table[row..]);
        let next = dot::<W>(&high[first..], &table[row + W..]);
        let value = part_value(one[k], base, next, two[k], places.offsets[k] as u64);
        line[count - 1 - k] = value;
    }
}

// The values of words that are samples × 256, given twice, newest first. The loop is that of part_values, whose values need two sums more: one loop with
// a closure for the value would say in its contract, of any closure, what stands here plainly, beside both of these.
pub fn sample_values<const W: usize>(
    line: &mut [i64],
    x: &[i16],
    y: &[i16],
    table: &[i16],
    places: &Places,
)
    requires room { length line.old ≡ length places.now.rows.now }
    requires readable { Readable x.now y.now table.now W places.now.rows.now places.now.firsts.now }
    requires offsets { (k : ℕ) → k < length places.now.rows.now → (get_or places.now.offsets.now k 0 < 2 ^ 32) × (get_or places.now.offsets.now k 0 % 16 ≡ 0) }
    ensures { let n = length places.now.rows.now in
        line.new ≡ tabulate n (λ j.
        mixed_value
        (sum_here x.now table.now W places.now.rows.now places.now.firsts.now (n - suc j) *ℤ pos 256)
        (sum_next y.now table.now W places.now.rows.now places.now.firsts.now (n - suc j) *ℤ pos 256)
        (get_or places.now.offsets.now (n - suc j) 0)) }
{
    let count = places.rows.len();
    for k in 0..count {
        let first = places.firsts[k] as usize;
        let row = places.rows[k] as usize;
        let base = dot::<W>(&x[first..], &table[row..]);
        let next = dot::<W>(&y[first..], &table[row + W..]);
        let value = sample_value(base, next, places.offsets[k] as u64);
        line[count - 1 - k] = value;
    }
}
