// The values of a run, from the words of its window, taken apart into 16-bit parts.

ghost use Rattle.std.specs.Prelude.{◌⊎◌, ◌≡◌, ℕ, suc, ◌-◌, ◌%◌, ◌≤◌, ◌<◌, length, get_or};
ghost use Rattle.arith.specs.Lists.{tabulate};
ghost use Rattle.windows.specs.Runs.{RunOf, run_value};

use crate::parts::{samples_of, split};
use crate::source::Source;
use dot_products::places::Places;
use dot_products::{first_sums, part_values, sample_values};

// From words in two parts. The line and the places have one length, said here and below: the line is written and the places are shared by all, so that
// a struct of both would be made for one call and taken apart in it. The two sums of a value lie in two arrays: one array of pairs doubles the time,
// since the compiler then takes no eight products at a time.
fn part_run<const W: usize>(line: &mut [i64], window: &[i32], source: &Source, places: &Places)
    requires room { length line.old ≡ length places.now.rows.now }
    requires run { RunOf window.now source.now.table.now source.now.positive W places.now.rows.now places.now.firsts.now places.now.offsets.now }
    ensures { let n = length places.now.rows.now in
        line.new ≡ tabulate n (λ j.
        run_value window.now source.now.table.now W places.now.rows.now places.now.firsts.now places.now.offsets.now (n - suc j)) }
{
    let mut high = [0i16; 192];
    let mut low = [0i16; 192];
    split(&mut high, &mut low, window);
    let mut one = [0i32; 128];
    let mut two = [0i32; 128];
    first_sums::<W>(&mut one, &mut two, &high, &low, source.table, places);
    part_values::<W>(line, &one, &two, &low, &high, source.table, places);
}

// From words of a level. Those of level 0 that are samples × 256, as the builder writes them, are summed as samples, if their sums are known to fit; the
// offsets of level 0 are multiples of 16.
fn width_run<const W: usize>(
    line: &mut [i64],
    window: &[i32],
    level: u32,
    source: &Source,
    places: &Places,
)
    requires room { length line.old ≡ length places.now.rows.now }
    requires run { RunOf window.now source.now.table.now source.now.positive W places.now.rows.now places.now.firsts.now places.now.offsets.now }
    requires offsets { level ≡ 0 → (k : ℕ) → k < length places.now.rows.now → get_or places.now.offsets.now k 0 % 16 ≡ 0 }
    ensures { let n = length places.now.rows.now in
        line.new ≡ tabulate n (λ j.
        run_value window.now source.now.table.now W places.now.rows.now places.now.firsts.now places.now.offsets.now (n - suc j)) }
{
    if level == 0 && source.positive {
        let mut first = [0i16; 192];
        let mut second = [0i16; 192];
        if samples_of(&mut first, &mut second, window) {
            sample_values::<W>(line, &first, &second, source.table, places);
            return;
        }
    }
    part_run::<W>(line, window, source, places);
}

// The values of a run, newest first. Here the width of the rows becomes a constant: so there is an arm for each.
pub(crate) fn run(
    line: &mut [i64],
    window: &[i32],
    level: u32,
    source: &Source,
    width: usize,
    places: &Places,
)
    requires room { length line.old ≡ length places.now.rows.now }
    requires width { (width ≡ 8) ⊎ (width ≡ 16) ⊎ (width ≡ 32) }
    requires run { RunOf window.now source.now.table.now source.now.positive width places.now.rows.now places.now.firsts.now places.now.offsets.now }
    requires offsets { level ≡ 0 → (k : ℕ) → k < length places.now.rows.now → get_or places.now.offsets.now k 0 % 16 ≡ 0 }
    ensures { let n = length places.now.rows.now in
        line.new ≡ tabulate n (λ j.
        run_value window.now source.now.table.now width places.now.rows.now places.now.firsts.now places.now.offsets.now (n - suc j)) }
{
    match width {
        8 => width_run::<8>(line, window, level, source, places),
        16 => width_run::<16>(line, window, level, source, places),
        _ => width_run::<32>(line, window, level, source, places),
    }
}
