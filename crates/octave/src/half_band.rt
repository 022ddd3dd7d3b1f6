// Half-band taps: those at an even distance from the centre are 0, so that half as many pairs do, and the centre by itself. Every second word stands
// in front, and the words between 104 places on. Neighbours there lie two words apart in the level, so that sixteen sums are those of every second
// word of the level above.

ghost use Rattle.std.specs.Prelude.{◌≡◌, ℕ, ◌+◌, ◌*◌, ◌/◌, ◌%◌, ◌≤◌, ◌<◌, pos, length, ◌<ℤ◌};
ghost use Rattle.arith.specs.Lists.{at};
ghost use Rattle.octave.specs.Inner.{odd_tap, BandRows, WordsFrom};
ghost use Rattle.octave.specs.declared.blocks.Way.TheVariants.{OddTaps};

use crate::blocks::Plan;
use crate::taps::Taps;
use pair_sums::places::Places;
use pair_sums::scratch::Scratch;

// Tap c of those at an odd distance, in the order of time.
fn odd_tap(taps: &Taps<'_>, c: usize) -> i16
    requires { c < 2 * (length taps.now.words.now / 2) }
    ensures { result ≡ odd_tap taps.now.words.now c }
{
    let most = taps.words.len() / 2 * 2;
    arith::limit16(taps.words[most.abs_diff(2 * c + 1)])
}

// The pairs of those taps, behind the centre's.
pub(crate) fn write_rows(taps: &Taps<'_>, rows: &mut [i16; 1312])
    ensures { BandRows taps.now.words.now rows.new }
{
    let centre = arith::limit16(taps.words[0]);
    pair_sums::write_row(centre, 0, 0, rows);
    pair_sums::write_rows(1, taps.words.len() / 2, |c| odd_tap(taps, c), rows);
}

// Writes words: one of the first half, one of the second, and so on. 64 of them, in a slice: an array made of it would take its length as a test.
fn mix_words(sums: &[i32; 64], words: &mut [i32])
    requires { length words.old ≡ 64 }
    ensures { (i : ℕ) → i < 64 → at words.new i ≡ at sums.now (i % 2 * 32 + i / 2) }
{
    for j in 0..32 {
        words[2 * j] = sums[j];
        words[2 * j + 1] = sums[32 + j];
    }
}

// Writes words n to n + 63 of the level above, which lie inside. What it does as `groups::write_block` does is in `Scratch` and `Places`; what is left
// differs in each step.
pub(crate) fn write_block(plan: &Plan<'_>, n: usize, scratch: &mut Scratch, words: &mut [i32])
    requires way { plan.now.way ≡ OddTaps }
    requires narrow { at plan.now.taps.words.now 0 <ℤ pos 32768 }
    requires inside { (length plan.now.taps.words.now ≤ 2 * n + 1) × (2 * n + length plan.now.taps.words.now + 135 ≤ length plan.now.level.now) }
    requires room { length words.old ≡ 64 }
    ensures { WordsFrom plan.now.taps.words.now plan.now.level.now n words.new }
{
    let half = plan.taps.words.len() / 2;
    let first = 2 * n + 1 - 2 * half;
    let count = (2 * half + 67) / 4 * 4;
    scratch.split(plan.form, &plan.level[first..first + 2 * count]);
    let places = Places {
        pairs: half + 1,
        first: half + 103,
        others: 0,
        far: 1,
    };
    scratch.sum(plan.form, plan.rows, places);
    mix_words(&scratch.sums, words);
}
