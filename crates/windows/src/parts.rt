// Words in 16-bit parts.

ghost use Rattle.std.specs.Prelude.{true, ◌≡◌, ℕ, ◌^◌, ◌≤◌, ◌<◌, nat_abs, length};
ghost use Rattle.arith.specs.Lists.{at};
ghost use Rattle.windows.specs.Parts.{Within, PartsOf, Samples, SamplesOf};

use arith::narrow;
use arith::words::miss;

// The words as 2^14 × high + low.
pub(crate) fn split(high: &mut [i16], low: &mut [i16], window: &[i32])
    requires room { (length window.now ≤ length high.old) × (length window.now ≤ length low.old) }
    requires words { (k : ℕ) → k < length window.now → nat_abs (at window.now k) ≤ 2 ^ 27 }
    requires parts { Within 8192 high.old × Within 16383 low.old }
    ensures { PartsOf window.now (length window.now) high.new low.new }
{
    for k in 0..window.len() {
        let x = window[k];
        let y = x >> 14;
        high[k] = narrow(y);
        low[k] = (x - y * 16384) as i16;
    }
}

// The words / 256, twice, and whether all of them are such multiples: the words of level 0 are, where the builder wrote them. The caller lends what is
// filled, and a flag says whether it counts: an Option of two arrays, measured in Rust, takes 1.7 to 2.7 times as long, for 160 to 24 words:
// they are copied out.
pub(crate) fn samples_of(first: &mut [i16], second: &mut [i16], window: &[i32]) -> bool
    requires room { (length window.now ≤ length first.old) × (length window.now ≤ length second.old) × (length window.now < 2 ^ 31) }
    requires samples { Samples first.old × Samples second.old }
    ensures { result ≡ true → SamplesOf window.now (length window.now) first.new second.new }
{
    let mut misses = 0;
    for k in 0..window.len() {
        let x = window[k];
        let s = narrow(x >> 8);
        first[k] = s;
        second[k] = s;
        misses += miss(x == s as i32 * 256);
    }
    misses == 0
}
