// The fade along a run of outputs: the step of its point k is that of its first point + k, and without a fade 0.

ghost use Rattle.std.specs.Prelude.{◌≡◌, ◌+◌, ◌-◌, ◌*◌, ◌≤◌};
ghost use Rattle.control.specs.Moves.{fade_after};
ghost use Rattle.control.specs.Inner.{band_of};
ghost use Rattle.positions.specs.Runs.{run_plan};
ghost use Rattle.positions.specs.Inner.{left_of_fade};

use control::moves::fade_after;
use control::rate::{Band, band_of};
use control::{Fade, Plan};

// The rates that a run may have, whose first point's plan is p: without a fade those at which the level stays, in one every rate.
pub(crate) fn run_band(p: Plan) -> Band
    requires { p.old ≤ 4 }
    ensures { p.step ≡ 0 → result ≡ band_of p.old }
{
    if p.step == 0 {
        return band_of(p.old);
    }
    // above every rate, which is below 2^32
    Band {
        low: 0,
        high: 4294967296,
    }
}

// How many of `count` outputs have both points in the fade: all where there is none. Step and F stay two numbers with their bound beside them, here and
// below: a step belongs to a voice and F to a book, and a struct of both would be built for each call.
pub(crate) fn outputs_in(p: Plan, fade: u32, count: usize) -> usize
    requires { (p.step ≤ fade) × (fade ≤ 256) }
    ensures { (result ≤ count) × left_of_fade fade p result }
{
    if p.step == 0 {
        return count;
    }
    count.min(((fade - p.step + 1) / 2) as usize)
}

// The fade after i outputs.
pub(crate) fn fade_at(p: Plan, fade: u32, i: usize) -> Fade
    requires { (p.step ≤ fade) × (fade ≤ 256) × (1 ≤ i) × (i ≤ 64) }
    ensures { result ≡ fade_after fade (run_plan p (2 * i - 1) 0) }
{
    let step = if p.step == 0 {
        0
    } else {
        p.step + 2 * i as u32 - 1
    };
    fade_after(
        Plan {
            step,
            position: 0,
            ..p
        },
        fade,
    )
}
