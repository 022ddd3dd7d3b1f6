// Where the coefficients and the words of each value begin.

ghost use Rattle.std.specs.Prelude.{◌≡◌, ℕ, ◌-◌, ◌*◌, ◌/◌, ◌^◌, ◌≤◌, ◌<◌, length, get_or};
ghost use Rattle.windows.specs.Places.{PlacesOf};

// The places of a run's values: the window begins at position `start` and ends `spread` words on, `up` shifts a distance to 2^-32 words, and rows are
// `width` words wide.
pub(crate) fn places(
    rows: &mut [u32],
    firsts: &mut [u32],
    offsets: &mut [u32],
    positions: &[u64],
    start: u64,
    up: u32,
    phases: usize,
    width: usize,
    spread: usize,
)
    requires room { (length rows.old ≡ length positions.now) × (length firsts.old ≡ length positions.now) × (length offsets.old ≡ length positions.now) }
    requires sizes { (up ≤ 4) × (phases ≤ 128) × (width ≤ 32) × (spread ≤ 127) }
    requires near_by { (k : ℕ) → k < length positions.now
        → (start ≤ get_or positions.now k 0)
        × ((get_or positions.now k 0 - start) * 2 ^ up / 2 ^ 32 ≤ spread) }
    ensures { PlacesOf phases width spread (length positions.now) (λ k. (get_or positions.now k 0 - start) * 2 ^ up) rows.new firsts.new offsets.new }
{
    // both factors cut to 32 bits, which is all that they have: else the compiler multiplies 64 bits, and this takes 1.2 times as long
    for k in 0..positions.len() {
        let distance = (positions[k] - start) << up;
        let scaled = distance % 4294967296 * (phases as u64 % 4294967296);
        rows[k] = (scaled / 4294967296) as u32 * width as u32;
        firsts[k] = spread as u32 - (distance / 4294967296) as u32;
        offsets[k] = (scaled % 4294967296) as u32;
    }
}
