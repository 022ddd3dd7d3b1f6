// Level values at a run of positions that lie a window apart at most.

ghost use Rattle.std.specs.Prelude.{◌≡◌, ℕ, suc, ◌+◌, ◌-◌, ◌/◌, ◌^◌, ◌≤◌, ◌<◌, length, get_or};
ghost use Rattle.arith.specs.Lists.{tabulate};
ghost use Rattle.values.specs.Values.{level_value};
ghost use Rattle.windows.specs.Runs.{Together};

use crate::places::places;
use crate::runs::run;
use crate::source::Source;
use crate::staging::staged;
use dot_products::places::Places;
use rows::row_width;

// How many of some positions a window has room for, one at least: half of them while they lie too far apart. No search for the most that have room is
// plainer, and this one ends at once where all have.
pub(crate) fn room(positions: &[u64], shift: u32) -> usize
    requires { (1 ≤ length positions.now) × (length positions.now ≤ 128) × (shift < 64) × (get_or positions.now 0 0 ≤ 2 ^ 60) }
    ensures { (1 ≤ result) × (result ≤ length positions.now) × (get_or positions.now (result - 1) 0 / 2 ^ shift ≤ get_or positions.now 0 0 / 2 ^ shift + 127) }
{
    let base = positions[0] >> shift;
    let mut count = positions.len();
    // a `for` would need the number of halvings, and leave by a break where this test ends the loop
    while base + 127 < positions[count - 1] >> shift {
        count = (count + 1) / 2;
    }
    count
}

// The values of a level, whose words are given, at positions that a window has room for, newest first. Words are staged by eights: so they are taken
// apart as they were written, eight at a time.
pub(crate) fn level_values(
    line: &mut [i64],
    positions: &[u64],
    source: &Source,
    words: &[i32],
    level: u32,
)
    requires together { Together positions.now level }
    requires room { length line.old ≡ length positions.now }
    ensures { let n = length positions.now in
        line.new ≡ tabulate n (λ j. level_value source.now.book.now words.now level (get_or positions.now (n - suc j) 0)) }
{
    let count = positions.len();
    let taps = source.layout.taps;
    let width = row_width(taps);
    let shift = 28 + level;
    let base = positions[0] >> shift;
    let last = positions[count - 1] >> shift;
    let spread = (last - base) as usize;
    let mut rows = [0u32; 128];
    let rows = &mut rows[..count];
    let mut firsts = [0u32; 128];
    let firsts = &mut firsts[..count];
    let mut offsets = [0u32; 128];
    let offsets = &mut offsets[..count];
    places(
        rows,
        firsts,
        offsets,
        positions,
        base << shift,
        4 - level,
        source.layout.phases,
        width,
        spread,
    );
    let places = &Places {
        rows,
        firsts,
        offsets,
    };
    let mut window = [0i32; 192];
    let window = &mut window[..(spread + taps + 7) / 8 * 8];
    staged(window, words, level, last as usize + taps / 2);
    run(line, window, level, source, width, places);
}
