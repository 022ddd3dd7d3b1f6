// The filter book: five sizes, impulses and differences by phase, level taps and decimation taps, as signed words.
// `check` accepts a book or tells what turns it away.

#![tactic(auto)]

ghost use Rattle.std.specs.Prelude.{◌≡◌, ◌≤◌, true, length};
ghost use Rattle.book.specs.Book.{sizes_of, level_taps, decimation_taps};
ghost use Rattle.book.specs.Check.{book_number};
ghost use Rattle.book.specs.Inner.{HalfBand};
ghost use Rattle.refusal.specs.Number.{number_of};

use crate::places::Parts;
use arith::words::word_size;
use refusal::Refusal;

mod places; // numbers 1 to 3, and where the parts lie
mod columns; // numbers 4, 6 and 7 of the usual book
mod differences; // numbers 5 and 6
mod ranges; // numbers 2 and 4
mod sums; // number 7

// The sizes at a book's head, by document 01's letters: N, M, A, B and F.
#[derive(Clone, Copy)]
pub struct Sizes {
    // N: taps per phase
    pub taps: usize,
    // M: phases
    pub phases: usize,
    // A: level taps beside the centre
    pub reach: usize,
    // B: decimation taps beside the centre
    pub decimation: usize,
    // F: points of a fade
    pub fade: usize,
}

// The sizes of a book that has them.
pub fn read_sizes(book: &[i32]) -> Sizes
    requires { 5 ≤ length book.now }
    ensures { result ≡ sizes_of book.now }
{
    Sizes {
        taps: word_size(book, 0),
        phases: word_size(book, 1),
        reach: word_size(book, 2),
        decimation: word_size(book, 3),
        fade: word_size(book, 4),
    }
}

// Accepts a book, or tells the first of the numbers 1 to 7 whose condition holds.
pub fn check(book: &[i32]) -> Result<(), Refusal>
    ensures { number_of result ≡ book_number book.now }
{
    let parts = Parts::of(book)?;
    if columns::settled(&parts) {
        return differences::check_first_impulse(&parts);
    }
    if !ranges::coefficients_in_range(&parts) {
        return Err(Refusal::BookCoefficient);
    }
    differences::check_impulses(&parts)?;
    if !sums::sums_in_range(&parts) {
        return Err(Refusal::BookSum);
    }
    Ok(())
}

// The parts of an accepted book.
fn parts_of(book: &[i32]) -> Parts<'_>
    requires { book_number book.now ≡ 0 }
    ensures { result.words.now ≡ book.now }
{
    Parts {
        words: book,
        sizes: read_sizes(book),
    }
}

// The level taps h[0] .. h[A] of an accepted book. That it is accepted is a clause, as public promises have it: callers hold a book as words.
pub fn level_taps(book: &[i32]) -> &[i32]
    requires { book_number book.now ≡ 0 }
    ensures { result.now ≡ level_taps book.now }
{
    parts_of(book).level_taps()
}

// The decimation taps g[0] .. g[B] of an accepted book: all that lies behind the level taps.
pub fn decimation_taps(book: &[i32]) -> &[i32]
    requires { book_number book.now ≡ 0 }
    ensures { result.now ≡ decimation_taps book.now }
{
    parts_of(book).decimation_taps()
}

// Whether taps are half-band: those at an even distance from the centre are 0.
pub fn half_band(taps: &[i32]) -> bool
    ensures { (result ≡ true → HalfBand taps.now) × (HalfBand taps.now → result ≡ true) }
{
    taps.iter().skip(2).step_by(2).all(|tap| *tap == 0)
}
