// Sixty-four words of the level above at a time, in 16-bit numbers: words in one part or two, and taps in pairs.

ghost use Rattle.std.specs.Prelude.{◌≡◌, ℕ, ◌+◌, ◌*◌, ◌≤◌, ◌<◌, pos, ◌<ℤ◌, length};
ghost use Rattle.arith.specs.Lists.{at};
ghost use Rattle.octave.specs.Inner.{time_tap, Rows, WordsFrom};
ghost use Rattle.octave.specs.declared.blocks.Way.TheVariants.{EveryTap};

use crate::blocks::Plan;
use crate::taps::Taps;
use pair_sums::places::Places;
use pair_sums::scratch::Scratch;

// Tap c in the order of time, 0 behind the last.
fn time_tap(taps: &Taps<'_>, c: usize) -> i16
    requires { c < 2 * length taps.now.words.now }
    ensures { result ≡ time_tap taps.now.words.now c }
{
    let words = taps.words;
    let reach = words.len() - 1;
    if c <= 2 * reach {
        return arith::limit16(words[c.abs_diff(reach)]);
    }
    0
}

// All pairs of taps.
pub(crate) fn write_rows(taps: &Taps<'_>, rows: &mut [i16; 1312])
    ensures { Rows taps.now.words.now rows.new }
{
    pair_sums::write_rows(0, taps.words.len(), |c| time_tap(taps, c), rows);
}

// Writes words n to n + 63 of the level above, which lie inside.
pub(crate) fn write_block(plan: &Plan<'_>, n: usize, scratch: &mut Scratch, words: &mut [i32])
    requires way { plan.now.way ≡ EveryTap }
    requires narrow { at plan.now.taps.words.now 0 <ℤ pos 32768 }
    requires inside { (length plan.now.taps.words.now ≤ 2 * n + 1) × (2 * n + length plan.now.taps.words.now + 135 ≤ length plan.now.level.now) }
    requires room { length words.old ≡ 64 }
    ensures { WordsFrom plan.now.taps.words.now plan.now.level.now n words.new }
{
    let pairs = plan.taps.words.len();
    let first = 2 * n + 1 - pairs;
    let count = (2 * pairs + 133) / 8 * 8;
    scratch.write(plan.form, &plan.level[first..first + count]);
    let places = Places {
        pairs,
        first: 0,
        others: 2,
        far: 64,
    };
    scratch.sum(plan.form, plan.rows, places);
    words.copy_from_slice(&scratch.sums);
}
