// Number 2, sizes outside their ranges; 4, impulses and taps outside theirs.

ghost use Rattle.std.specs.Prelude.{◌≡◌, ◌≤◌, length, pos, negsuc};
ghost use Rattle.arith.specs.Lists.{at};
ghost use Rattle.arith.specs.Tests.{within, every};
ghost use Rattle.book.specs.Check.{power_of_two, sizes_in_range, coefficients_in_range};

use crate::places::Parts;
use arith::words::{all_between, word_between, word_size};

#[tactic(auto, unfolding(crate::specs::Check::power_of_two))]
fn power_of_two(m: usize) -> bool
    ensures { result ≡ power_of_two m }
{
    matches!(m, 1 | 2 | 4 | 8 | 16 | 32 | 64 | 128)
}

// Number 2.
pub(crate) fn sizes_in_range(book: &[i32]) -> bool
    requires { 5 ≤ length book.now }
    ensures { result ≡ sizes_in_range book.now }
{
    word_between(book, 0, 2, 24)
        && word_size(book, 0) % 2 == 0
        && word_between(book, 1, 1, 128)
        && power_of_two(word_size(book, 1))
        && word_between(book, 2, 0, 40)
        && word_between(book, 3, 0, 40)
        && word_between(book, 4, 1, 256)
}

// Whether words lie in −32768..32767.
fn words_in_range(words: &[i32]) -> bool
    ensures { result ≡ every (length words.now) (λ i. within (negsuc 32767) (pos 32767) (at words.now i)) }
{
    all_between(words, -32768, 32767)
}

// Number 4: the array of impulses, and the taps, which are all behind the array of differences. That it holds is a clause of the tests behind it, and
// no ghost field: `Parts` are read before it is known, and a second struct around them would say no more than the clause.
pub(crate) fn coefficients_in_range(book: &Parts) -> bool
    ensures { result ≡ coefficients_in_range book.now.words.now }
{
    words_in_range(book.impulses()) && words_in_range(book.taps())
}
