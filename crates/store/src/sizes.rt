// Lengths of levels and stores.

ghost use Rattle.std.specs.Prelude.{◌≡◌, ◌&&◌, ℕ, ◌≤◌, ◌<◌, pos, get_or};
ghost use Rattle.store.specs.Sizes.{samples_in_range, top_in_range, level_start, store_length};

use octave::half_length;

// Whether there are levels 0..top of so many samples: number 8 is for those outside.
#[tactic(auto, unfolding(crate::specs::Sizes::samples_in_range, crate::specs::Sizes::top_in_range))]
pub fn in_range(recorded: usize, top: u32) -> bool
    ensures { result ≡ samples_in_range (pos recorded) && top_in_range (pos top) }
{
    1 <= recorded && recorded <= 1048576 && top <= 4
}

// Where levels 0..4 begin in a store for levels 0..top, and in the last place where level 4 ends.
pub fn level_starts(recorded: usize, top: u32) -> [usize; 6]
    requires { (recorded ≤ 1048576) × (top ≤ 4) }
    ensures { (j : ℕ) → j < 6 → get_or result j 0 ≡ level_start recorded top j }
{
    let mut starts = [0usize; 6];
    let mut start = 3 + top as usize;
    let mut length = recorded;
    for place in &mut starts {
        *place = start;
        start += length;
        length = half_length(length);
    }
    starts
}

// The words of a store for levels 0..top.
pub fn store_length(recorded: usize, top: u32) -> usize
    requires { (recorded ≤ 1048576) × (top ≤ 4) }
    ensures { result ≡ store_length recorded top }
{
    let mut words = 3 + top as usize + recorded;
    let mut length = recorded;
    for _ in 0..top {
        length = half_length(length);
        words += length;
    }
    words
}
