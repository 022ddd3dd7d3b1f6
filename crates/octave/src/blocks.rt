// Words of the level above a level, sixty-four at a time where taps and words allow.

ghost use Rattle.std.specs.Prelude.{◌≡◌, ℕ, ◌+◌, ◌*◌, ◌^◌, ◌≤◌, nat_abs, length};
ghost use Rattle.arith.specs.Lists.{at};
ghost use Rattle.book.specs.Inner.{HalfBand};
ghost use Rattle.pair_sums.specs.Pairs.{Samples};
ghost use Rattle.pair_sums.specs.declared.scratch.Form.TheVariants.{OnePart};
ghost use Rattle.octave.specs.Octave.{half_length};
ghost use Rattle.octave.specs.Inner.{Rows, BandRows, WordsFrom};
ghost use Rattle.octave.specs.declared.blocks.Way.TheVariants.{EveryTap, OddTaps};

use crate::taps::Taps;
use crate::{groups, half_band, write_words};
use pair_sums::scratch::{Form, Scratch};

// Which taps stand in the rows.
#[derive(Clone, Copy)]
pub(crate) enum Way {
    // all, in the order of time
    EveryTap,
    // the centre, and those at an odd distance: half-band taps have no others
    OddTaps,
}

// A level, its taps, and how blocks of words come from them.
#[derive(Drop)]
pub(crate) struct Plan<'a> {
    pub taps: Taps<'a>,
    pub level: &'a [i32],
    pub way: Way,
    pub rows: &'a [i16; 1312],
    pub form: Form,
    ghost small: { (k : ℕ) → nat_abs (at level.now k) ≤ 2 ^ 26 },
    ghost every_tap: { way ≡ EveryTap → Rows taps.words.now rows.now },
    ghost odd_taps: { way ≡ OddTaps → (2 ≤ length taps.words.now) × HalfBand taps.words.now × BandRows taps.words.now rows.now },
    ghost samples: { form ≡ OnePart → Samples level.now },
}

// Writes the rows of the taps. Fewer than seven go by every tap, which is as fast for them.
pub(crate) fn write_rows(taps: &Taps<'_>, rows: &mut [i16; 1312]) -> Way
    ensures every_tap { result ≡ EveryTap → Rows taps.now.words.now rows.new }
    ensures odd_taps { result ≡ OddTaps → (2 ≤ length taps.now.words.now) × HalfBand taps.now.words.now × BandRows taps.now.words.now rows.new }
{
    if taps.words.len() < 7 || !book::half_band(taps.words) {
        groups::write_rows(taps, rows);
        return Way::EveryTap;
    }
    half_band::write_rows(taps, rows);
    Way::OddTaps
}

impl Plan<'_> {
    // Writes the words of the level above from word n on, at most sixty-four. A centre tap of 32768 has no 16-bit number, so that its words are
    // written one by one too.
    #[tactic(auto, unfolding(crate::specs::Octave::half_length))]
    pub(crate) fn write(&self, n: usize, scratch: &mut Scratch, words: &mut [i32])
        requires inside { n + length words.old ≤ half_length (length self.now.level.now) }
        requires count { length words.old ≤ 64 }
        requires reach { length self.now.taps.words.now ≤ 2 * n + 1 }
        ensures { WordsFrom self.now.taps.words.now self.now.level.now n words.new }
    {
        let taps = self.taps.words;
        if words.len() < 64 || 32768 <= taps[0] || self.level.len() < 2 * n + taps.len() + 135 {
            write_words(self, n, words);
            return;
        }
        match self.way {
            Way::EveryTap => groups::write_block(self, n, scratch, words),
            Way::OddTaps => half_band::write_block(self, n, scratch, words),
        }
    }
}
