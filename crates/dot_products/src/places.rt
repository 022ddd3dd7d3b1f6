// Where the coefficients and the words of each value of a run begin, and its offset.

ghost use Rattle.std.specs.Prelude.{◌≡◌, ◌≤◌, length};

// Three slices of one length, a number of each for a value, and no slice of structs: these are written four at a time and structs are not, which makes
// the places of a run 2.5 times and its values of 8 taps 1.15 times as long.
#[derive(Clone, Copy)]
pub struct Places<'a> {
    // the first coefficient
    pub rows: &'a [u32],
    // the first word
    pub firsts: &'a [u32],
    // e × 2^32
    pub offsets: &'a [u32],
    pub ghost as_many_firsts: { length firsts.now ≡ length rows.now },
    pub ghost as_many_offsets: { length offsets.now ≡ length rows.now },
    // the values of one run
    pub ghost few: { length rows.now ≤ 128 },
}
