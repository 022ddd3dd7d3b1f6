// Decimal numbers, written behind a text of fixed room.

#![tactic(auto)]

ghost use Rattle.std.specs.Prelude.{◌≡◌, ◌++◌, ◌∷◌, ◌+◌, ◌≤◌};
ghost use Rattle.arrayvec.specs.ArrayString.{array_string_len};
ghost use Rattle.text.specs.Decimal.{decimal};

use arrayvec::ArrayString;
use itoa::Buffer;

// Appends a number.
#[tactic(auto, using(crate::proofs::Decimals::decimal_std))]
pub fn append_decimal<const N: usize>(text: &mut ArrayString<N>, n: u64)
    requires { array_string_len text.old + 20 ≤ N }
    ensures bytes { text.new.bytes ≡ text.old.bytes ++ decimal n }
    ensures len { array_string_len text.new ≤ array_string_len text.old + 20 }
{
    let mut digits = Buffer::new();
    text.push_str(digits.format(n));
}

// Appends a blank and a number.
pub fn append_next<const N: usize>(text: &mut ArrayString<N>, n: u64)
    requires { array_string_len text.old + 21 ≤ N }
    ensures bytes { text.new.bytes ≡ text.old.bytes ++ 32 ∷ decimal n }
    ensures len { array_string_len text.new ≤ array_string_len text.old + 21 }
{
    text.push_str(" ");
    append_decimal(text, n);
}
