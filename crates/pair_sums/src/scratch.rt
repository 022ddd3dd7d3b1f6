// Sixty-four words at a time from words in one part or in two.

ghost use Rattle.std.specs.Prelude.{◌≡◌, ℕ, ◌+◌, ◌*◌, ◌^◌, ◌≤◌, ◌<◌, pos, nat_abs, length, replicate};
ghost use Rattle.arith.specs.Floor.{near};
ghost use Rattle.arith.specs.Lists.{at};
ghost use Rattle.pair_sums.specs.Pairs.{line_sum, Written, Split};
ghost use Rattle.pair_sums.specs.Forms.{InForm, SmallIn, sum_in};
ghost use Rattle.pair_sums.specs.declared.scratch.Form.TheVariants.{TwoParts, OnePart};

use crate::parts::{lower_part, sample_part, split, upper_part, write};
use crate::places::Places;
use crate::{all_sums, round_parts, round_samples};

// How words are taken apart: in an upper and a lower part, or in one part where they are samples × 256.
#[derive(Clone, Copy)]
pub enum Form {
    TwoParts,
    OnePart,
}

// The places of parts and sums, lent from block to block, so that they are not cleared each time.
#[derive(Drop)]
pub struct Scratch {
    high: [i16; 208],
    low: [i16; 208],
    pub sums: [i32; 64],
    lower: [i32; 64],
}

impl Scratch {
    // All 0.
    pub fn new() -> Self
        ensures parts { (result.high ≡ replicate 208 (pos 0)) × (result.low ≡ replicate 208 (pos 0)) }
        ensures sums { result.sums ≡ replicate 64 (pos 0) }
    {
        Scratch {
            high: [0; 208],
            low: [0; 208],
            sums: [0; 64],
            lower: [0; 64],
        }
    }

    // Takes words apart, in their order.
    pub fn write(&mut self, form: Form, words: &[i32])
        requires room { length words.now ≤ 208 }
        requires small { form ≡ TwoParts → (i : ℕ) → nat_abs (at words.now i) ≤ 2 ^ 26 }
        ensures taken { InForm form (Written words.now) self.new.high self.new.low }
        ensures low_stays { form ≡ OnePart → self.new.low ≡ self.old.low }
        ensures sums_stay { self.new.sums ≡ self.old.sums }
    {
        match form {
            Form::TwoParts => {
                write(words, &mut self.high, upper_part);
                write(words, &mut self.low, lower_part);
            }
            Form::OnePart => write(words, &mut self.high, sample_part),
        }
    }

    // Takes words apart, every second one by itself. Apart from `write`: an order handed in would have to be generic over the part, which no parameter
    // can be.
    pub fn split(&mut self, form: Form, words: &[i32])
        requires room { length words.now ≤ 208 }
        requires small { form ≡ TwoParts → (i : ℕ) → nat_abs (at words.now i) ≤ 2 ^ 26 }
        ensures taken { InForm form (Split words.now) self.new.high self.new.low }
        ensures low_stays { form ≡ OnePart → self.new.low ≡ self.old.low }
        ensures sums_stay { self.new.sums ≡ self.old.sums }
    {
        match form {
            Form::TwoParts => {
                split(words, &mut self.high, upper_part);
                split(words, &mut self.low, lower_part);
            }
            Form::OnePart => split(words, &mut self.high, sample_part),
        }
    }

    // Sixty-four words, from sums over the words taken apart: in `sums`.
    pub fn sum(&mut self, form: Form, rows: &[i16; 1312], places: Places)
        requires { SmallIn form rows.now places self.old.high self.old.low }
        ensures sums { (p j : ℕ) → p < 4 → j < 16
            → at self.new.sums (16 * p + j) ≡ near (sum_in form rows.now places self.old.high self.old.low p j) 16384 }
        ensures parts_stay { (self.new.high ≡ self.old.high) × (self.new.low ≡ self.old.low) }
    {
        all_sums(&self.high, rows, places, &mut self.sums);
        match form {
            Form::TwoParts => {
                all_sums(&self.low, rows, places, &mut self.lower);
                round_parts(&mut self.sums, &self.lower);
            }
            Form::OnePart => round_samples(&mut self.sums),
        }
    }
}
