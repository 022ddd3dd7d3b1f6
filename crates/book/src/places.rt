// A book's parts: where they lie, once its sizes are in range and its length is theirs.

ghost use Rattle.std.specs.Prelude.{◌≡◌, true, length};
ghost use Rattle.book.specs.Book.{sizes_of, book_length};
ghost use Rattle.book.specs.Check.{sizes_in_range};

use crate::ranges::sizes_in_range;
use crate::{Sizes, read_sizes};
use refusal::Refusal;

// A book without the numbers 1 to 3.
#[derive(Clone, Copy)]
pub(crate) struct Parts<'a> {
    pub(crate) words: &'a [i32],
    pub(crate) sizes: Sizes,
    ghost read: { sizes ≡ sizes_of words.now },
    ghost in_range: { sizes_in_range words.now ≡ true },
    ghost long: { length words.now ≡ book_length (sizes_of words.now) },
}

impl<'a> Parts<'a> {
    ghost use Rattle.std.specs.Prelude.{◌+◌, ◌*◌, ◌≤◌, ◌==◌, not, nat_lt, IfOk};
    ghost use Rattle.refusal.specs.Number.{number_of, refuse, ◌otherwise◌};
    ghost use Rattle.book.specs.Book.{level_taps, decimation_taps};
    ghost use Rattle.book.specs.Inner.{impulses, differences, taps};

    // Numbers 1 to 3.
    pub(crate) fn of(words: &'a [i32]) -> Result<Parts<'a>, Refusal>
        ensures number { number_of result ≡ (refuse 1 (nat_lt (length words.now) 5) otherwise refuse 2 (not (sizes_in_range words.now))
            otherwise refuse 3 (not (length words.now == book_length (sizes_of words.now)))) }
        ensures words { IfOk result (λ parts. parts.words.now ≡ words.now) }
    {
        if words.len() < 5 {
            return Err(Refusal::BookShort);
        }
        if !sizes_in_range(words) {
            return Err(Refusal::BookSize);
        }
        let sizes = read_sizes(words);
        let array = sizes.phases * sizes.taps;
        if words.len() != 5 + array + array + (sizes.reach + 1) + (sizes.decimation + 1) {
            return Err(Refusal::BookLength);
        }
        Ok(Parts { words, sizes })
    }

    // The length of each array.
    pub(crate) fn array(&self) -> usize
        ensures { (result ≡ self.now.sizes.phases * self.now.sizes.taps) × (result ≤ 3072) }
    {
        self.sizes.phases * self.sizes.taps
    }

    // By phase and tap.
    pub(crate) fn impulses(&self) -> &'a [i32]
        ensures words { result.now ≡ impulses self.now.words.now }
        ensures long { length result.now ≡ self.now.sizes.phases * self.now.sizes.taps }
        ensures room { (length result.now ≤ 3072) × (2 ≤ self.now.sizes.taps) × (self.now.sizes.taps ≤ length result.now) }
    {
        &self.words[5..5 + self.array()]
    }

    pub(crate) fn differences(&self) -> &'a [i32]
        ensures words { result.now ≡ differences self.now.words.now }
        ensures long { length result.now ≡ self.now.sizes.phases * self.now.sizes.taps }
    {
        let start = 5 + self.array();
        &self.words[start..start + self.array()]
    }

    // The level taps and the decimation taps.
    pub(crate) fn taps(&self) -> &'a [i32]
        ensures { result.now ≡ taps self.now.words.now }
    {
        &self.words[5 + 2 * self.array()..]
    }

    pub(crate) fn level_taps(&self) -> &'a [i32]
        ensures words { result.now ≡ level_taps self.now.words.now }
        ensures few { (1 ≤ length result.now) × (length result.now ≤ 41) }
    {
        &self.taps()[..self.sizes.reach + 1]
    }

    pub(crate) fn decimation_taps(&self) -> &'a [i32]
        ensures words { result.now ≡ decimation_taps self.now.words.now }
        ensures few { (1 ≤ length result.now) × (length result.now ≤ 41) }
    {
        &self.taps()[self.sizes.reach + 1..]
    }
}
