// Outputs from a line of points, newest first.

#![tactic(auto)]

ghost use Rattle.std.specs.Prelude.{◌≡◌, ℕ, ◌+◌, ◌-◌, ◌*◌, ◌/◌, ◌^◌, ◌≤◌, ◌<◌, nat_abs, ◌+ℤ◌, ◌*ℤ◌, length};
ghost use Rattle.std.specs.Int.{div_ceil};
ghost use Rattle.arith.specs.Lists.{at, part, tabulate};
ghost use Rattle.book.specs.Book.{decimation_taps};
ghost use Rattle.book.specs.Check.{book_number};
ghost use Rattle.decimation.specs.Decimation.{output};
ghost use Rattle.decimation.specs.Inner.{TapStep, centred_sum, sample_of, line_output, first_outputs};

// A book's decimation taps, the step of the sums, half-band taps being passed by twos, and how many of them a sum passes behind the first.
#[derive(Clone, Copy)]
pub struct Taps<'a> {
    pub book: &'a [i32],
    pub taps: &'a [i32],
    step: usize,
    passed: usize,
    pub ghost accepted: { book_number book.now ≡ 0 },
    pub ghost of_book: { taps.now ≡ decimation_taps book.now },
    pub ghost stepped: { TapStep taps.now step },
    pub ghost counted: { passed ≡ div_ceil (length taps.now - 1) step },
}

// A line of points, small enough for the sums over them.
#[derive(Clone, Copy)]
struct Line<'a> {
    points: &'a [i64; 209],
    ghost small: { (k : ℕ) → nat_abs (at points.now k) ≤ 2 ^ 29 },
}

// The first tap times the points at `centre` and at the places 2, 4, .. before it.
fn first_sums<const LANES: usize>(tap: i64, line: Line<'_>, centre: usize) -> [i64; LANES]
    requires in_line { (2 * LANES ≤ centre + 2) × (centre < 209) }
    requires small { nat_abs tap ≤ 32768 }
    ensures { (j : ℕ) → j < LANES → at result j ≡ tap *ℤ at line.entry.points.now (centre - 2 * j) }
{
    let mut sums = [0i64; LANES];
    for j in 0..LANES {
        sums[j] = tap * line.points[centre - 2 * j];
    }
    sums
}

// A sum, and a tap times the points k before and k after place `centre`. A tap's bound stays a clause: it is read anew in each turn, so that a struct
// would be built of one number, with the same to prove.
fn tap_added(sum: i64, tap: i64, line: Line<'_>, centre: usize, k: usize) -> i64
    requires in_line { (k ≤ centre) × (centre + k < 209) }
    requires small { (nat_abs sum ≤ 2 ^ 44) × (nat_abs tap ≤ 32768) }
    ensures { result ≡ sum +ℤ tap *ℤ (at line.entry.points.now (centre - k) +ℤ at line.entry.points.now (centre + k)) }
{
    sum + tap * (line.points[centre - k] + line.points[centre + k])
}

// Adds a tap times the points k before and k after the place of each sum.
fn add_tap<const LANES: usize>(
    sums: &mut [i64; LANES],
    tap: i64,
    line: Line<'_>,
    centre: usize,
    k: usize,
)
    requires in_line { (2 * LANES + k ≤ centre + 2) × (centre + k < 209) }
    requires small { nat_abs tap ≤ 32768 }
    requires sums_small { (j : ℕ) → j < LANES → nat_abs (at sums.old j) ≤ 2 ^ 44 }
    ensures { (j : ℕ) → j < LANES
        → at sums.new j ≡ at sums.old j +ℤ tap *ℤ (at line.entry.points.now (centre - 2 * j - k) +ℤ at line.entry.points.now (centre - 2 * j + k)) }
{
    for j in 0..LANES {
        sums[j] = tap_added(sums[j], tap, line, centre - 2 * j, k);
    }
}

// The output of a sum: rounded, and limited to 16 bits.
fn sample(sum: i64) -> i16
    requires { nat_abs sum ≤ 2 ^ 44 }
    ensures { result ≡ sample_of sum }
{
    arith::limit16(arith::near(sum, 2097152) as i32)
}

// Writes the outputs of sums.
fn write_samples<const LANES: usize>(sums: &[i64; LANES], out: &mut [i16])
    requires long { LANES ≤ length out.old }
    requires small { (j : ℕ) → j < LANES → nat_abs (at sums.now j) ≤ 2 ^ 44 }
    ensures { out.new ≡ first_outputs out.old LANES (λ j. sample_of (at sums.now j)) }
{
    for j in 0..LANES {
        out[j] = sample(sums[j]);
    }
}

impl<'a> Taps<'a> {
    // Those of an accepted book.
    pub fn of(book: &'a [i32]) -> Taps<'a>
        requires { book_number book.now ≡ 0 }
        ensures { result.book.now ≡ book.now }
    {
        let taps = book::decimation_taps(book);
        if book::half_band(taps) {
            return Taps {
                book,
                taps,
                step: 2,
                passed: taps.len() / 2,
            };
        }
        Taps {
            book,
            taps,
            step: 1,
            passed: taps.len() - 1,
        }
    }

    // The sums of LANES outputs, the first around place `centre` and each two before the last: every tap is read once for all.
    fn sums<const LANES: usize>(self, line: Line<'_>, centre: usize) -> [i64; LANES]
        requires in_line { (2 * LANES + length self.taps.now ≤ centre + 3) × (centre + length self.taps.now ≤ 209) }
        ensures { (j : ℕ) → j < LANES → at result j ≡ centred_sum self.entry.taps.now line.entry.points.now (centre - 2 * j) }
    {
        let taps = self.taps;
        let mut sums = first_sums::<LANES>(taps[0] as i64, line, centre);
        // counted, since step_by makes two tests a turn and saves four numbers: 1.05 of the player's time at B = 10
        for i in 0..self.passed {
            let k = 1 + self.step * i;
            add_tap(&mut sums, taps[k] as i64, line, centre, k);
        }
        sums
    }

    // Writes the outputs of a run from its output `first` on, LANES at a time, as often as there is room for them.
    fn write_lanes<const LANES: usize>(self, line: Line<'_>, first: usize, out: &mut [i16])
        requires few { (1 ≤ LANES) × (LANES ≤ 64) × (first + length out.old ≤ 64) }
        ensures { out.new ≡ first_outputs out.old (LANES * (length out.old / LANES))
            (λ i. line_output self.entry.taps.now line.entry.points.now (first + i)) }
    {
        let newest = 126 + self.taps.len() - 1;
        for turn in 0..out.len() / LANES {
            let i = LANES * turn;
            let sums = self.sums::<LANES>(line, newest - 2 * (first + i));
            write_samples(&sums, &mut out[i..i + LANES]);
        }
    }

    // Writes the outputs of a run of points: four at a time, and then those that are left.
    pub fn write_outputs(self, line: &[i64; 209], out: &mut [i16])
        requires few { length out.old ≤ 64 }
        requires small { (k : ℕ) → nat_abs (at line.now k) ≤ 2 ^ 29 }
        ensures { out.new ≡ tabulate (length out.old) (λ i. output self.entry.book.now (part line.now (126 - 2 * i) 81)) }
    {
        let line = Line { points: line };
        let fours = 4 * (out.len() / 4);
        self.write_lanes::<4>(line, 0, out);
        self.write_lanes::<1>(line, fours, &mut out[fours..]);
    }
}
