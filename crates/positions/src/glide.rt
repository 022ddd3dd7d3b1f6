// Rates along a run of outputs, without a division for each: in 2^-23 of a unit the rates of a glide go up by a fixed slope. A run has at most 64
// outputs, so that a slope that is rounded up is never above the next rate. An output's number i stays a usize with i ≤ 64 in the contracts: it is a loop's
// number and a slice's length, and a type of its own would be made of it at each call.

ghost use Rattle.std.specs.Prelude.{◌≡◌, ℕ, ◌+◌, ◌*◌, ◌^◌, ◌≤◌, ◌<◌, pos, nat_abs, ◌+ℤ◌, ◌*ℤ◌, ◌≤ℤ◌, ◌<ℤ◌};
ghost use Rattle.positions.specs.Inner.{GlideFits, ControlFits, RatesOf, quotient, glide_sum, rate_at, glide_at, left_of};

use control::moves::glide_after;
use control::{Control, Glide};

// A number divided by c: the floor, and the rest in 0..c−1.
#[derive(Clone, Copy)]
pub(crate) struct Quotient {
    pub floor: i64,
    pub rest: u32,
}

// The rates of a control's next outputs in 2^-23: that of output i is the floor of start + slope × i.
#[derive(Clone, Copy)]
pub(crate) struct Rates {
    pub control: Control,
    pub start: i64,
    pub slope: i64,
    pub ghost fit: { ControlFits control },
    pub ghost along: { RatesOf control start slope },
}

// z / c.
fn divided(z: i64, c: u32) -> Quotient
    requires { (nat_abs z ≤ 2 ^ 50) × (1 ≤ c) × (c ≤ 65536) }
    ensures { result ≡ quotient z c }
{
    let count = c as i64;
    let floor = arith::floor_div(z, count);
    // from the floor, since rem_euclid would divide again
    let rest = z - count * floor;
    Quotient {
        floor,
        rest: rest as u32,
    }
}

// z × 2^23 / c, rounded up.
fn scaled(z: i64, c: u32) -> i64
    requires { (nat_abs z ≤ 2 ^ 32) × (1 ≤ c) × (c ≤ 65536) }
    ensures { ((pos (2 ^ 23) *ℤ z) ≤ℤ (pos c *ℤ result)) × ((pos c *ℤ result) <ℤ (pos (2 ^ 23) *ℤ z +ℤ pos c)) }
{
    let count = c as i64;
    arith::floor_div(8388608 * z + count - 1, count)
}

// R0 + (R1 − R0) × j / c, of the output j that a glide has done.
fn rate_quotient(g: Glide) -> Quotient
    requires { GlideFits g }
    ensures { result ≡ quotient (glide_sum g g.done) g.count }
{
    let c = g.count;
    let start = g.start as i64;
    let way = g.target as i64 - start;
    divided(start * c as i64 + way * g.done as i64, c)
}

// The rates of the next outputs: along the glide, or R.
pub(crate) fn rates_of(c: Control) -> Rates
    requires { ControlFits c }
    ensures { result.control ≡ c }
{
    let g = c.glide;
    let count = g.count;
    if count == 0 {
        return Rates {
            control: c,
            start: 8388608 * c.rate as i64,
            slope: 0,
        };
    }
    let place = rate_quotient(g);
    let part = scaled(place.rest as i64, count);
    let slope = scaled(g.target as i64 - g.start as i64, count);
    Rates {
        control: c,
        start: 8388608 * place.floor + part,
        slope,
    }
}

// The rate of output i from now.
pub(crate) fn rate_at(r: Rates, i: usize) -> u64
    requires { (i ≤ 64) × left_of r.control.glide i }
    ensures { result ≡ rate_at r.control i }
{
    (r.start + r.slope * i as i64) as u64 / 8388608
}

// How many of `count` outputs come before the end of the glide: all where there is none.
pub(crate) fn outputs_left(g: Glide, count: usize) -> usize
    requires { (g.count ≡ 0 → ⊥) → GlideFits g }
    ensures { (result ≤ count) × left_of g result }
{
    if g.count == 0 {
        return count;
    }
    count.min((g.count - g.done) as usize)
}

// The glide after i outputs more.
pub(crate) fn glide_at(g: Glide, i: usize) -> Glide
    requires { (i ≤ 64) × ((g.count ≡ 0 → ⊥) → GlideFits g) }
    ensures { result ≡ glide_at g i }
{
    if g.count == 0 {
        return g;
    }
    glide_after(g, g.done + i as u32)
}
