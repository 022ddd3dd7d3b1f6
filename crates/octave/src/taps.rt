// The taps of a level.

ghost use Rattle.std.specs.Prelude.{◌≤◌, length};
ghost use Rattle.book.specs.Check.{tap_sum};

// Level taps, as an accepted book has them: one to 41, whose sizes on both sides of the centre come to 32768 at most.
#[derive(Clone, Copy)]
pub struct Taps<'a> {
    pub words: &'a [i32],
    ghost some: { 1 ≤ length words.now },
    ghost few: { length words.now ≤ 41 },
    ghost bounded: { tap_sum words.now ≤ 32768 },
}
