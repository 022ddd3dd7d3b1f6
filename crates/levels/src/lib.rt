// The octave levels of a recording, and the builder that writes them into a store. Nothing here knows a voice.

#![tactic(auto)]

ghost use Rattle.std.specs.Prelude.{◌≡◌};
ghost use Rattle.refusal.specs.Number.{number_of};
ghost use Rattle.levels.specs.Build.{built, build_number, build_answer};

use crate::writer::{write_header, write_levels};
use octave::taps::Taps;
use refusal::Refusal;
use store::sizes::{in_range, store_length};

mod writer; // the header, and all levels, one after another

// Whether a store of `words` words can hold header and levels 0..top of `recorded` samples by this book: else the first of the numbers 1 to 9
// whose condition holds.
fn check_build(book: &[i32], recorded: usize, top: u32, words: usize) -> Result<(), Refusal>
    ensures { number_of result ≡ build_number book.now recorded top words }
{
    book::check(book)?;
    Refusal::SamplesOrTop.when(!in_range(recorded, top))?;
    Refusal::StoreShort.when(words < store_length(recorded, top))
}

// Writes header and levels 0..top of the samples to the front of the store and leaves the words after them. A refusal writes no word.
pub fn build(book: &[i32], samples: &[i16], top: u32, store: &mut [i32]) -> Result<(), Refusal>
    ensures { built (number_of result) store.new ≡ build_answer book.now samples.now top store.old }
{
    check_build(book, samples.len(), top, store.len())?;
    write_header(samples.len(), top, store);
    let levels = 3 + top as usize;
    let taps = Taps {
        words: book::level_taps(book),
    };
    write_levels(&taps, samples, top, &mut store[levels..]);
    Ok(())
}
