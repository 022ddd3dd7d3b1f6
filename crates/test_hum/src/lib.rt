// The test hum: a recording that anyone can make again, drawn from a linear congruential generator of 32 bits.

#![tactic(auto)]

ghost use Rattle.std.specs.Prelude.{◌≡◌, ◌*◌, ◌%◌, ◌^◌, length};
ghost use Rattle.test_hum.specs.Hum.{next_state, sample_of, drawn, draw_answer};

// The product, modulo 2^32. Document 01 names this form for request (b), so it is not the library's wrapping_mul.
fn wrapping_mul(a: u32, b: u32) -> u32
    ensures { result ≡ a * b % 2 ^ 32 }
{
    (a as u64 * b as u64 % 4294967296) as u32
}

// The state that follows.
#[tactic(auto, unfolding(crate::specs::Hum::next_state))]
pub fn next_state(state: u32) -> u32
    ensures { result ≡ next_state state }
{
    wrapping_mul(1664525, state).wrapping_add(1013904223)
}

// The sample of a new state: its upper half, moved to the range of an i16.
#[tactic(auto, unfolding(crate::specs::Hum::sample_of))]
fn sample_of(state: u32) -> i16
    ensures { result ≡ sample_of state }
{
    ((state / 65536) as i32 - 32768) as i16
}

// Fills the slice with the next samples from a state, and hands back the last state.
pub fn draw(state: u32, samples: &mut [i16]) -> u32
    ensures { drawn result samples.new ≡ draw_answer state (length samples.old) }
{
    let mut last = state;
    for sample in samples.iter_mut() {
        last = next_state(last);
        *sample = sample_of(last);
    }
    last
}
