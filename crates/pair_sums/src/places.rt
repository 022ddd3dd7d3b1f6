// Where the words of pairs stand.

ghost use Rattle.std.specs.Prelude.{◌+◌, ◌*◌, ◌≤◌};

// Four lines of sixteen sums over pairs: the second and the fourth line begin 32 words on, the last two `far` words on.
#[derive(Clone, Copy)]
pub struct Places {
    pub pairs: usize,
    // where the words of the first pair begin
    pub first: usize,
    // where those of the second do: each further pair's begin two words on
    pub others: usize,
    pub far: usize,
    ghost few: { pairs ≤ 41 },
    ghost first_inside: { first + far + 64 ≤ 208 },
    ghost others_inside: { others + far + 2 * pairs + 60 ≤ 208 },
}
