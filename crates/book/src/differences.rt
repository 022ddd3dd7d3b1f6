// Numbers 5 and 6: the first impulse is 0; the difference at (q, k) is G_(q+1)[k] − G_q[k].

ghost use Rattle.std.specs.Prelude.{not, ◌≡◌, ℕ, ◌+◌, ◌*◌, ◌<◌, ◌≤◌, true, length, pos, ◌-ℤ◌, unsigned_abs};
ghost use Rattle.arith.specs.Lists.{at};
ghost use Rattle.arith.specs.Tests.{eq_z, every};
ghost use Rattle.refusal.specs.Number.{number_of, refuse, ◌otherwise◌};
ghost use Rattle.book.specs.Book.{impulse};
ghost use Rattle.book.specs.Check.{coefficients_in_range, differences_right};
ghost use Rattle.book.specs.Inner.{first_right};

use crate::places::Parts;
use refusal::Refusal;

// Whether a difference is `next` less `from`, modulo 2^32. It asks for no range, so that it can be tested before the range is known; of impulses in
// range it then tells that the difference is right.
pub(crate) fn follows(difference: i32, next: i32, from: i32) -> bool
    ensures { unsigned_abs next ≤ 32768 → unsigned_abs from ≤ 32768 → result ≡ eq_z difference (next -ℤ from) }
{
    difference == next.wrapping_sub(from)
}

// Whether each difference is the impulse of `next` less that of `from`. The loop looks at each, with no exit on the way, so that it takes several at
// once.
fn run_right(differences: &[i32], next: &[i32], from: &[i32]) -> bool
    requires long { (length next.now ≡ length differences.now) × (length from.now ≡ length differences.now) }
    requires next_small { (i : ℕ) → i < length next.now → unsigned_abs (at next.now i) ≤ 32768 }
    requires from_small { (i : ℕ) → i < length from.now → unsigned_abs (at from.now i) ≤ 32768 }
    ensures { result ≡ every (length differences.now) (λ i. eq_z (at differences.now i) (at next.now i -ℤ at from.now i)) }
{
    let mut right = true;
    for (i, difference) in differences.iter().enumerate() {
        right &= follows(*difference, next[i], from[i]);
    }
    right
}

// Number 6, where the first `start` differences are right. The next phase's impulses lie N words on; after the last phase they are
// G_0[1], .., G_0[N−1] and 0.
pub(crate) fn differences_right(book: &Parts, start: usize) -> bool
    requires in_range { coefficients_in_range book.now.words.now ≡ true }
    requires start_inside { start + book.now.sizes.taps ≤ book.now.sizes.phases * book.now.sizes.taps }
    requires start_right { first_right book.now.words.now book.now.sizes.taps start ≡ true }
    ensures { result ≡ differences_right book.now.words.now }
{
    let taps = book.sizes.taps;
    let impulses = book.impulses();
    let differences = book.differences();
    let end = impulses.len() - 1;
    let last = impulses.len() - taps;
    run_right(
        &differences[start..last],
        &impulses[start + taps..],
        &impulses[start..last],
    ) && run_right(
        &differences[last..end],
        &impulses[1..taps],
        &impulses[last..end],
    ) && follows(differences[end], 0, impulses[end])
}

// Number 5.
pub(crate) fn check_first_impulse(book: &Parts) -> Result<(), Refusal>
    ensures { number_of result ≡ refuse 5 (not (eq_z (impulse book.now.words.now 0 0) (pos 0))) }
{
    if book.impulses()[0] != 0 {
        Err(Refusal::BookFirstImpulse)
    } else {
        Ok(())
    }
}

// Numbers 5 and 6, of a book without number 4.
pub(crate) fn check_impulses(book: &Parts) -> Result<(), Refusal>
    requires { coefficients_in_range book.now.words.now ≡ true }
    ensures { number_of result ≡ (refuse 5 (not (eq_z (impulse book.now.words.now 0 0) (pos 0)))
        otherwise refuse 6 (not (differences_right book.now.words.now))) }
{
    check_first_impulse(book)?;
    if differences_right(book, 0) {
        return Ok(());
    }
    Err(Refusal::BookDifference)
}
