// Numbers 4, 6 and 7 of the usual book in one pass: 16 bits bound the impulses of each tap over all phases, and no phase's sum is above the sum
// of these bounds. A difference that is wrong takes the bound away. Where the bounds settle nothing, the exact tests decide.

ghost use Rattle.std.specs.Prelude.{◌≡◌, ℕ, ◌+◌, ◌-◌, ◌*◌, ◌<◌, ◌≤◌, true, length, pos, negsuc, ◌-ℤ◌, ◌≤ℤ◌, if◌then◌else◌, nat_le};
ghost use Rattle.arith.specs.Lists.{at};
ghost use Rattle.arith.specs.Sum.{total};
ghost use Rattle.arith.specs.Tests.{every};
ghost use Rattle.book.specs.Check.{coefficients_in_range, differences_right, words_in_range, phase_sum, sums_in_range};
ghost use Rattle.book.specs.Columns.{Bounds, Tested, Passed, Raised, tap_bound};
ghost use Rattle.book.specs.Inner.{first_right};

use crate::differences::{differences_right, follows};
use crate::places::Parts;
use crate::sums::tap_sums_within;
use arith::narrow;

// x, or −1 − x below 0: 16 bits hold it, and the size of x is at most 1 above it.
fn folded(x: i16) -> i16
    ensures { (x ≤ℤ result) × ((negsuc 0 -ℤ x) ≤ℤ result) }
{
    x.max(-1 - x)
}

// Raises the bounds, from the first on, to those of the words. The counts of its two callers differ: if both were the literal, the compiler would
// unroll it here, and then find it too long to put it into their loops.
fn raise(bounds: &mut [i16], words: &[i32])
    requires { length words.now ≤ length bounds.old }
    ensures raised { Raised bounds.old bounds.new }
    ensures bounded { (k : ℕ) → k < length words.now → Bounds (at bounds.new k) (at words.now k) }
{
    for (k, word) in words.iter().enumerate() {
        bounds[k] = bounds[k].max(folded(narrow(*word)));
    }
}

// A bound, or where a test failed the one that bounds nothing. One line, but with a contract that the invariant of its loop goes by.
fn kept(bound: i16, right: bool) -> i16
    ensures { result ≡ (if right then bound else pos 32767) }
{
    if right { bound } else { 32767 }
}

// Takes away each bound whose difference is wrong.
fn mark(bounds: &mut [i16], differences: &[i32], next: &[i32], from: &[i32])
    requires inside { (length differences.now ≤ length bounds.old) × (length differences.now ≤ length next.now) × (length differences.now ≤ length from.now) }
    ensures raised { Raised bounds.old bounds.new }
    ensures tested { (k : ℕ) → k < length differences.now → Tested (at bounds.new k) (at differences.now k) (at next.now k) (at from.now k) }
{
    for (k, difference) in differences.iter().enumerate() {
        bounds[k] = kept(bounds[k], follows(*difference, next[k], from[k]));
    }
}

// Raises the bounds of eight columns by `rows` rows of four phases, and tests their differences. For a literal count the compiler keeps the bounds in
// one vector and takes eight words at once; it does so as long as a word is narrowed before it is folded, and by a function of its own. Its caller has
// what it takes as locals, read from the parts once: so there are six parameters.
fn test_eight(
    bounds: &mut [i16],
    impulses: &[i32],
    differences: &[i32],
    column: usize,
    taps: usize,
    rows: usize,
)
    requires eight { (length bounds.old ≡ 8) × (column + 8 ≤ 4 * taps) }
    requires room { (rows * (4 * taps) + 4 * taps ≤ length impulses.now) × (length differences.now ≡ length impulses.now) }
    ensures raised { Raised bounds.old bounds.new }
    ensures passed { (q k : ℕ) → q < rows → k < 8 → Passed (at bounds.new k) (at differences.now (q * (4 * taps) + column + k))
        (at impulses.now (q * (4 * taps) + column + taps + k)) (at impulses.now (q * (4 * taps) + column + k)) }
{
    for q in 0..rows {
        let place = q * (4 * taps) + column;
        let words = &impulses[place..place + 8];
        let next = place + taps;
        raise(bounds, words);
        mark(
            bounds,
            &differences[place..place + 8],
            &impulses[next..next + 8],
            words,
        );
    }
}

// The largest size that the bounds of tap k allow in any phase. They lie `taps` apart in the bounds of a row, so that no slice holds them.
fn tap_bound(bounds: &[i16], taps: usize, k: usize) -> u32
    requires { (4 * taps ≤ length bounds.now) × (k < taps) × (taps ≤ 24) × (pos 0 ≤ℤ at bounds.now k) }
    ensures { (result ≡ tap_bound bounds.now taps k) × (result ≤ 65537) }
{
    let first = bounds[k].max(bounds[taps + k]);
    let second = bounds[2 * taps + k].max(bounds[3 * taps + k]);
    let bound = first.max(second);
    if bound < 32767 {
        return bound as u32 + 1;
    }
    65537
}

// The largest sum that the bounds allow a phase.
fn sum_bound(bounds: &[i16], taps: usize) -> u32
    requires { (4 * taps ≤ length bounds.now) × (taps ≤ 24) × ((k : ℕ) → pos 0 ≤ℤ at bounds.now k) }
    ensures { result ≡ total taps (tap_bound bounds.now taps) }
{
    let mut sum = 0;
    for k in 0..taps {
        sum += tap_bound(bounds, taps, k);
    }
    sum
}

// Whether the bounds show that the impulses and each phase's sum are in range, and the differences right but for the last four phases. Four phases
// make a row, whose length is a multiple of eight.
fn impulses_settled(book: &Parts) -> bool
    ensures ranges { result ≡ true → (words_in_range book.now.words.now 5 (book.now.sizes.phases * book.now.sizes.taps) ≡ true)
        × (every book.now.sizes.phases (λ q. nat_le (phase_sum book.now.words.now q) 65536) ≡ true) }
    ensures room { result ≡ true → 4 * book.now.sizes.taps ≤ book.now.sizes.phases * book.now.sizes.taps }
    ensures right { result ≡ true
        → first_right book.now.words.now book.now.sizes.taps (book.now.sizes.phases * book.now.sizes.taps - 4 * book.now.sizes.taps) ≡ true }
{
    let taps = book.sizes.taps;
    if book.sizes.phases % 4 != 0 {
        return false;
    }
    let rows = book.sizes.phases / 4 - 1;
    let impulses = book.impulses();
    let differences = book.differences();
    let mut bounds = [0; 96];
    // Counted in eights: so each column ends inside the row for any `taps`, and with step_by(8) only for an even one.
    for eight in 0..taps / 2 {
        let column = 8 * eight;
        test_eight(
            &mut bounds[column..column + 8],
            impulses,
            differences,
            column,
            taps,
            rows,
        );
    }
    raise(&mut bounds, &impulses[rows * (4 * taps)..]);
    sum_bound(&bounds, taps) <= 65536
}

// Whether the bounds, and the sums of taps, show that none of the numbers 4, 6 and 7 is given: a tap's size is at most the sum.
pub(crate) fn settled(book: &Parts) -> bool
    ensures { result ≡ true → (coefficients_in_range book.now.words.now ≡ true) × (sums_in_range book.now.words.now ≡ true)
        × (differences_right book.now.words.now ≡ true) }
{
    impulses_settled(book)
        && tap_sums_within(book, 32767)
        && differences_right(book, book.array() - 4 * book.sizes.taps)
}
