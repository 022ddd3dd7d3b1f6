// The words of a store: its header, and all levels of a recording, one after another.

ghost use Rattle.std.specs.Prelude.{◌≡◌, ℕ, ◌+◌, ◌^◌, ◌≤◌, nat_abs, length};
ghost use Rattle.arith.specs.Lists.{at, part, overwrite};
ghost use Rattle.octave.specs.Octave.{half_length, next_level};
ghost use Rattle.store.specs.Sizes.{levels_below};
ghost use Rattle.store.specs.Store.{header_of};
ghost use Rattle.levels.specs.Levels.{first_level, levels_of};

use octave::taps::Taps;
use octave::{half_length, next_level};

// The header: S, T and the lengths of levels 0..top.
pub(crate) fn write_header(recorded: usize, top: u32, store: &mut [i32])
    requires { (recorded ≤ 1048576) × (top ≤ 4) × (3 + top ≤ length store.old) }
    ensures { store.new ≡ overwrite store.old 0 (header_of recorded top) }
{
    let lengths = top as usize + 1;
    let mut length = recorded;
    for level in 0..lengths {
        store[2 + level] = length as i32;
        length = half_length(length);
    }
    store[1] = top as i32;
    store[0] = recorded as i32;
}

// Level 0: sample × 256. Each sample that it reads lies in the range of an i16, which bounds the words of the levels above.
fn first_level(samples: &[i16], store: &mut [i32])
    requires { length samples.now ≤ length store.old }
    ensures written { store.new ≡ overwrite store.old 0 (first_level samples.now) }
    ensures small { (k : ℕ) → nat_abs (at samples.now k) ≤ 2 ^ 15 }
{
    for i in 0..samples.len() {
        store[i] = samples[i] as i32 * 256;
    }
}

// Writes the level above the `words` words from place `start` on behind them. Two numbers, not a slice: the store is lent whole from turn to turn, and
// becomes two slices here.
fn write_next(taps: &Taps<'_>, store: &mut [i32], start: usize, words: usize)
    requires room { start + words + half_length words ≤ length store.old }
    requires small { (k : ℕ) → nat_abs (at (part store.old start words) k) ≤ 2 ^ 26 }
    ensures { store.new ≡ overwrite store.old (start + words) (next_level taps.now.words.now (part store.old start words)) }
{
    let half = half_length(words);
    let (levels, rest) = store.split_at_mut(start + words);
    next_level(taps, &levels[start..], &mut rest[..half]);
}

// Levels 0..top, from the first word on.
pub(crate) fn write_levels(taps: &Taps<'_>, samples: &[i16], top: u32, store: &mut [i32])
    requires room { (length samples.now ≤ 1048576) × (top ≤ 4) × (levels_below (length samples.now) (top + 1) ≤ length store.old) }
    ensures { store.new ≡ overwrite store.old 0 (levels_of taps.now.words.now samples.now top) }
{
    first_level(samples, store);
    let mut start = 0;
    let mut length = samples.len();
    for _level in 0..top {
        write_next(taps, store, start, length);
        start += length;
        length = half_length(length);
    }
}
