// What level values are read from.

ghost use Rattle.std.specs.Prelude.{◌≤◌};
ghost use Rattle.values.specs.Layout.{LayoutOf};
ghost use Rattle.rows.specs.Rows.{RowsOf};

use crate::window::{level_values, room};
use values::layout::{Layout, level_words};

// An accepted book and an accepted store, where their parts lie, and the book's rows: made once per call, and lent to all that makes values of them.
#[derive(Clone, Copy)]
pub struct Source<'a> {
    // read by nothing here: it is what the values are said of
    pub book: &'a [i32],
    pub store: &'a [i32],
    pub layout: Layout,
    // the highest level that is read: the store may have no room for those above it
    pub top: u32,
    // the book's impulses in rows
    pub table: &'a [i16],
    // whether each row is known to have a positive coefficient
    pub positive: bool,
    pub ghost laid_out: { LayoutOf book.now store.now top layout },
    pub ghost tops: { top ≤ 4 },
    pub ghost staged: { RowsOf book.now table.now positive },
}

impl Source<'_> {
    ghost use Rattle.std.specs.Prelude.{◌≡◌, ℕ, suc, ◌-◌, ◌^◌, ◌<◌, length, get_or};
    ghost use Rattle.arith.specs.Lists.{tabulate, overwrite};
    ghost use Rattle.values.specs.Values.{value};

    // The values of a level at positions that do not fall, written to a line of points, newest first, before place 128.
    pub fn values_along(&self, line: &mut [i64], positions: &[u64], level: u32)
        requires level { level ≤ self.now.top }
        requires line_room { 128 ≤ length line.old }
        requires few { length positions.now ≤ 128 }
        requires rising { (i k : ℕ) → i ≤ k → k < length positions.now → get_or positions.now i 0 ≤ get_or positions.now k 0 }
        requires early { (k : ℕ) → k < length positions.now → get_or positions.now k 0 ≤ 2 ^ 60 }
        ensures { line.new ≡ overwrite line.old (128 - length positions.now) (tabulate (length positions.now) (λ j.
            value self.now.book.now self.now.store.now level (get_or positions.now (length positions.now - suc j) 0))) }
    {
        let words = level_words(self.store, self.layout, level);
        let mut rest = positions;
        let mut end = 128;
        // a `for` would need the number of runs, which is known only when each run's end is
        while !rest.is_empty() {
            let (run, later) = rest.split_at(room(rest, 28 + level));
            let start = end - run.len();
            level_values(&mut line[start..end], run, self, words, level);
            rest = later;
            end = start;
        }
    }
}
