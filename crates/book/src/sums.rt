// Number 7: sums of absolute values.

ghost use Rattle.std.specs.Prelude.{◌≡◌, ◌≤◌, true, ◌&&◌, leb, length, nat_le};
ghost use Rattle.arith.specs.Tests.{every};
ghost use Rattle.book.specs.Book.{level_taps, decimation_taps};
ghost use Rattle.book.specs.Check.{coefficients_in_range, phase_sum, tap_sum, sums_in_range};

use crate::places::Parts;

// The largest sum of a phase.
const PHASE_SUM: u32 = 65536;

// Whether every phase's sum is at most that. The check stops at the first phase whose sum is too large: docs/DECISIONS.md names the loops and the label.
// Impulses in range have sums that 32 bits hold.
fn phases_in_range(book: &Parts) -> bool
    requires { coefficients_in_range book.now.words.now ≡ true }
    ensures { result ≡ every book.now.sizes.phases (λ q. leb (phase_sum book.now.words.now q) 65536) }
{
    let taps = book.sizes.taps;
    let impulses = book.impulses();
    let mut right = true;
    'phases: for q in 0..book.sizes.phases {
        let mut sum = 0;
        for k in 0..taps {
            sum += impulses[q * taps + k].unsigned_abs();
        }
        if PHASE_SUM < sum {
            right = false;
            break 'phases;
        }
    }
    right
}

// |h[0]| + 2 × (|h[1]| + .. + |h[A]|)
fn tap_sum(taps: &[i32]) -> usize
    requires { (1 ≤ length taps.now) × (length taps.now ≤ 41) }
    ensures { result ≡ tap_sum taps.now }
{
    let mut sum = 0;
    for tap in &taps[1..] {
        sum += tap.unsigned_abs() as usize;
    }
    taps[0].unsigned_abs() as usize + 2 * sum
}

// Whether both sums of taps are at most `most`.
pub(crate) fn tap_sums_within(book: &Parts, most: usize) -> bool
    ensures { result ≡ nat_le (tap_sum (level_taps book.now.words.now)) most && nat_le (tap_sum (decimation_taps book.now.words.now)) most }
{
    tap_sum(book.level_taps()) <= most && tap_sum(book.decimation_taps()) <= most
}

// Number 7.
pub(crate) fn sums_in_range(book: &Parts) -> bool
    requires { coefficients_in_range book.now.words.now ≡ true }
    ensures { result ≡ sums_in_range book.now.words.now }
{
    phases_in_range(book) && tap_sums_within(book, 32768)
}
