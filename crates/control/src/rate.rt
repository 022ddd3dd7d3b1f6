// Rates: an f32 from 1/16 up to below 2^(T+1), and its whole number R of 2^-27 steps; the asked level and its band; the position's advance.

ghost use Rattle.std.specs.Prelude.{true, false, ◌≡◌, ◌+◌, ◌≤◌, pos};
ghost use Rattle.std.specs.Float.{fin};
ghost use Rattle.control.specs.Rate.{rate_in_range, rate_of, octave_level, asked_level, advance};
ghost use Rattle.control.specs.Inner.{band_of, in_band};

// 2^(top + 1). A table: f32::from(2u16 << top) says no more.
fn rate_end(top: u32) -> f32
    requires { top ≤ 4 }
    ensures { result ≡ fin false 1 (pos (top + 1)) }
{
    match top {
        0 => 2.0,
        1 => 4.0,
        2 => 8.0,
        3 => 16.0,
        _ => 32.0,
    }
}

// Whether r is a rate for top level `top`: false for a NaN, an infinity and what is not above zero.
pub fn rate_in_range(r: f32, top: u32) -> bool
    requires { top ≤ 4 }
    ensures { result ≡ rate_in_range r top }
{
    0.0625 <= r && r < rate_end(top)
}

// R = r × 2^27: in an f64 the product is exact, and the cast loses nothing.
pub fn scaled_rate(r: f32) -> u64
    requires { rate_in_range r 4 ≡ true }
    ensures { result ≡ rate_of r }
{
    let x = r as f64 * 134217728.0;
    x as u64
}

// max(0, floor(log2 r)), of R = r × 2^27
pub fn octave_level(rate: u64) -> u32
    ensures { result ≡ octave_level rate }
{
    (rate / 134217728).max(1).ilog2().min(4)
}

// The rates at which a level stays: from `low` up to below `high`. No Range, which is not Copy and whose test takes references.
#[derive(Clone, Copy)]
pub struct Band {
    pub low: u64,
    pub high: u64,
}

// From 15/16 of the octave's start, and from 0 at level 0, up to below the next octave.
pub fn band_of(level: u32) -> Band
    requires { level ≤ 4 }
    ensures { result ≡ band_of level }
{
    let low = if level == 0 { 0 } else { 15 << (23 + level) };
    Band {
        low,
        high: 1 << (28 + level),
    }
}

// Whether a level stays at a rate.
pub fn in_band(b: Band, rate: u64) -> bool
    ensures { result ≡ in_band b rate }
{
    b.low <= rate && rate < b.high
}

// The level that a rate asks for from the current one: that one inside its band, else that of the rate's octave.
pub fn asked_level(current: u32, rate: u64) -> u32
    requires { current ≤ 4 }
    ensures { result ≡ asked_level current rate }
{
    if in_band(band_of(current), rate) {
        return current;
    }
    octave_level(rate)
}

// One point on, stopping at 2^60.
pub(crate) fn advanced(position: u64, rate: u64) -> u64
    ensures { result ≡ advance position rate }
{
    position.saturating_add(rate).min(1152921504606846976)
}
