// The level builder's archive, for C and Rust: what a studio needs to test a book and to build the levels of a recording, and the test hum.
// Nothing here knows a voice.

#![tactic(auto)]

ghost use Rattle.std.specs.Prelude.{◌≡◌, length};
ghost use Rattle.book.specs.Check.{book_number};
ghost use Rattle.levels.specs.Build.{built, build_answer};
ghost use Rattle.test_hum.specs.Hum.{drawn, draw_answer};
ghost use Rattle.tone_builder.specs.Store.{store_words};

use refusal::number_of;
use store::sizes::{in_range, store_length};

// 0 for an accepted book, else the first of the numbers 1 to 7.
#[unsafe(no_mangle)]
pub extern "C" fn tone_check(book: &[i32]) -> u32
    ensures { result ≡ book_number book.now }
{
    number_of(&book::check(book))
}

// The words of a store for `sample_count` samples and levels 0..top, its header among them; 0 where one of the two is outside its range.
#[unsafe(no_mangle)]
pub extern "C" fn tone_store_words(sample_count: usize, top: u32) -> usize
    ensures { result ≡ store_words sample_count top }
{
    if !in_range(sample_count, top) {
        return 0;
    }
    store_length(sample_count, top)
}

// Writes the header and the levels of the samples to the front of the store.
#[unsafe(no_mangle)]
pub extern "C" fn tone_build(book: &[i32], samples: &[i16], top: u32, store: &mut [i32]) -> u32
    ensures { built result store.new ≡ build_answer book.now samples.now top store.old }
{
    number_of(&levels::build(book, samples, top, store))
}

// Fills the samples with the test hum from a state on, and hands back the last state.
#[unsafe(no_mangle)]
pub extern "C" fn tone_test_hum(state: u32, samples: &mut [i16]) -> u32
    ensures { drawn result samples.new ≡ draw_answer state (length samples.old) }
{
    test_hum::draw(state, samples)
}
