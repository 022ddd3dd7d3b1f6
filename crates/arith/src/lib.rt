// Signed fixed-point arithmetic: floor division, rounding to the nearest integer, and the limit to 16 bits.

#![tactic(auto)]

ghost use Rattle.std.specs.Prelude.{◌≡◌, cond, ◌+◌, ◌*◌, ◌/◌, ◌^◌, ◌≤◌, pos, negsuc, nat_abs, ◌+ℤ◌, ◌-ℤ◌, ◌*ℤ◌, ◌<ℤ◌, ◌≤ℤ◌};
ghost use Rattle.std.specs.Int.Signed.{lt_z};
ghost use Rattle.arith.specs.Floor.{floor_div, near};
ghost use Rattle.arith.specs.Limit.{limit};

pub mod words; // words of a slice, by their size and range

// A divisor above 0 is a clause here and below, and not its type's: a NonZero may lie below 0.
// The floor of a / b, from the division that truncates: one less where that left a negative remainder. Document 01 names this form, so it is not
// the library's div_euclid.
pub fn floor_div(a: i64, b: i64) -> i64
    requires { pos 0 <ℤ b }
    ensures { result ≡ floor_div a (nat_abs b) }
{
    let q = a / b;
    if a % b < 0 { q - 1 } else { q }
}

// The same, where a lies that far from the ends of 64 bits. By a constant power of two this form is one shift, and div_euclid five instructions.
#[tactic(auto, using(crate::proofs::Rounding::shift_fits))]
fn floor_shift(a: i64, b: i64) -> i64
    requires far_from_ends { nat_abs a + 2 ^ 34 ≤ 2 ^ 63 }
    requires divisor_low { pos 0 <ℤ b }
    requires divisor_high { b ≤ℤ pos (2 ^ 34) }
    ensures { result ≡ floor_div a (nat_abs b) }
{
    (a - a.rem_euclid(b)) / b
}

// high × unit + low, divided by unit × 2 × half and rounded to the nearest integer. One less than the half is added, and 1 more where a half goes up,
// from an odd quotient. That goes to the lower part, which is kept whole: it tells a half from what lies just above one. For constant powers of
// two the compiler makes a few steps of it, and no branch, so that the time does not go with the number.
pub fn near_parts(high: i64, low: i64, unit: i64, half: i64) -> i64
    requires parts_far_from_ends { (nat_abs high + nat_abs low / nat_abs unit + 2 ^ 35 ≤ 2 ^ 63) × (nat_abs low + 2 ^ 49 ≤ 2 ^ 63) }
    requires divisor_bound { nat_abs half * nat_abs unit ≤ 2 ^ 48 }
    requires unit_low { pos 0 <ℤ unit }
    requires unit_high { unit ≤ℤ pos 65536 }
    requires half_low { pos 0 <ℤ half }
    requires half_high { half ≤ℤ pos (2 ^ 33) }
    ensures { result ≡ near (pos (nat_abs unit) *ℤ high +ℤ low) (nat_abs unit * (2 * nat_abs half)) }
{
    let odd = floor_shift(high + floor_shift(low, unit), 2 * half).rem_euclid(2);
    let raised = odd + (low + (half * unit - 1));
    floor_shift(floor_shift(raised, unit) + high, 2 * half)
}

// The same of a number in one part: a / (2 × half).
pub fn near(a: i64, half: i64) -> i64
    requires far_from_ends { nat_abs a ≤ 2 ^ 62 }
    requires half_low { pos 0 <ℤ half }
    requires half_high { half ≤ℤ pos (2 ^ 33) }
    ensures { result ≡ near a (2 * nat_abs half) }
{
    near_parts(a, 0, 1, half)
}

// The same by any divisor: a half is rounded up, and then down to the even number. A divisor that is no constant costs one division.
pub fn near_by(a: i64, b: i64) -> i64
    requires far_from_ends { nat_abs a ≤ 2 ^ 60 }
    requires divisor_low { pos 0 <ℤ b }
    requires divisor_high { b ≤ℤ pos (2 ^ 32) }
    ensures { result ≡ near a (nat_abs b) }
{
    let x = 2 * a + b;
    let up = floor_div(x, 2 * b);
    if up * (2 * b) == x {
        up - up.rem_euclid(2)
    } else {
        up
    }
}

// The larger of x and 0. The shift gives -1 below 0 and else 0, so that the product is x below 0 and else 0.
fn positive_part(x: i32) -> i32
    ensures { result ≡ cond (lt_z x (pos 0)) (pos 0) x }
{
    x - x * (0 - (x >> 31))
}

// x, limited to -32768..32767: the last step of an output. It has no branch, nor has what it calls, so that a loud hum takes the time of a
// quiet one. How far x lies above the lower end, 0 if below; then how far that lies below the upper end, 0 if above.
pub fn limit16(x: i32) -> i16
    requires { nat_abs x ≤ 2 ^ 30 }
    ensures { result ≡ limit (negsuc 32767) (pos 32767) x }
{
    let risen = positive_part(x + 32768);
    let left = positive_part(65535 - risen);
    (32767 - left) as i16
}

// The same of any x: the library's form, of which the compiler makes one instruction for eight numbers in a loop.
pub fn narrow(x: i32) -> i16
    ensures { result ≡ limit (negsuc 32767) (pos 32767) x }
{
    x.clamp(-32768, 32767) as i16
}
