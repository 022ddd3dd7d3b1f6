// Rates by the bits of their f32.

ghost use Rattle.std.specs.Prelude.{◌≡◌};
ghost use Rattle.std.specs.Float.{binary32};
ghost use Rattle.std.specs.Float.Ieee.{of_bits};

// The rate that has these bits. Every NaN is one rate, whatever its bits.
pub fn rate_of(bits: u32) -> f32
    ensures { result ≡ of_bits binary32 bits }
{
    if bits % 2147483648 <= 2139095040 {
        return f32::from_bits(bits);
    }
    let zero = 0.0f32;
    zero / zero
}
