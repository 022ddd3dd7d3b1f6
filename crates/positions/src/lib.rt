// The positions of a run of outputs, all without a fade or all inside one: P, the rate and the fade's step move along it.

#![tactic(auto)]

ghost use Rattle.std.specs.Prelude.{◌≡◌, ℕ, ◌+◌, ◌-◌, ◌*◌, ◌^◌, ◌≤◌, ◌<◌, get_or};
ghost use Rattle.control.specs.Valid.{Valid};
ghost use Rattle.control.specs.Moves.{move_glide, point_plan};
ghost use Rattle.positions.specs.Runs.{control_after, first_plan, second_plan, run_plan};
ghost use Rattle.positions.specs.Inner.{GlideFits, left_of, left_of_fade, control_at};

use crate::fades::{fade_at, outputs_in, run_band};
use crate::glide::{Rates, glide_at, outputs_left, rate_at, rates_of};
use control::moves::point_plan;
use control::rate::in_band;
use control::{Control, Fade, Plan};

mod fades; // the fade along a run
mod glide; // rates along a run

// What a run leaves: the plan of its first point, the control, and how many outputs it made the positions of.
#[derive(Clone, Copy)]
pub struct Run {
    pub plan: Plan,
    pub control: Control,
    pub made: usize,
}

// What the next point is made from. Its rate comes from the run's, without a division.
fn first_plan(rates: Rates) -> Plan
    requires { (rates.control.fade.from ≤ 4) × (rates.control.fade.step < 2 ^ 31) }
    ensures { result ≡ point_plan (move_glide rates.control) }
{
    point_plan(Control {
        rate: rate_at(rates, 1),
        ..rates.control
    })
}

// How many of `count` outputs a run may have: those inside the fade and before the end of the glide, and none beyond 2^60 − 2^40, where P may reach
// its end.
fn run_limit(c: Control, plan: Plan, fade: u32, count: usize) -> usize
    requires fade { (plan.step ≤ fade) × (fade ≤ 256) }
    requires glide { (c.glide.count ≡ 0 → ⊥) → GlideFits c.glide }
    ensures count { result ≤ count }
    ensures left { left_of c.glide result × left_of_fade fade plan result }
    ensures inside { 1 ≤ result → c.position ≤ 2 ^ 60 - 2 ^ 40 }
{
    if 1152920405095219200 < c.position {
        return 0;
    }
    outputs_left(c.glide, outputs_in(plan, fade, count))
}

// The control after some outputs, i of them, whose points left the fade f.
fn control_at(rates: Rates, f: Fade, i: usize, position: u64) -> Control
    requires { (1 ≤ i) × (i ≤ 64) × left_of rates.control.glide i }
    ensures { result ≡ control_at rates.control f i position }
{
    Control {
        fade: f,
        rate: rate_at(rates, i),
        glide: glide_at(rates.control.glide, i),
        position,
        ..rates.control
    }
}

// Moves the control along up to `count` outputs and writes the positions of their points. Where the first point belongs to a fade, these are
// outputs whose two points do; else outputs at whose rates the level stays.
pub fn run_positions(c: Control, fade: u32, count: usize, positions: &mut [u64; 128]) -> Run
    requires control { Valid fade c }
    requires in_range { (count ≤ 64) × (1 ≤ fade) × (fade ≤ 256) }
    ensures made { result.made ≤ count }
    ensures control { result.control ≡ control_after fade c result.made }
    ensures plan { (result.plan ≡ first_plan fade c 0) × left_of_fade fade result.plan result.made }
    ensures plans { (k : ℕ) → k < result.made →
        (first_plan fade c k ≡ run_plan result.plan (2 * k) (get_or positions.new (2 * k) 0))
        × (second_plan fade c k ≡ run_plan result.plan (2 * k + 1) (get_or positions.new (2 * k + 1) 0)) }
    ensures rising { (i k : ℕ) → i ≤ k → k < 2 * result.made → get_or positions.new i 0 ≤ get_or positions.new k 0 }
    ensures early { (k : ℕ) → k < 2 * result.made → get_or positions.new k 0 ≤ 2 ^ 60 }
{
    let rates = rates_of(c);
    let plan = first_plan(rates);
    let stays = run_band(plan);
    let limit = run_limit(c, plan, fade, count);
    let mut position = c.position;
    let mut made = limit;
    for i in 0..limit {
        let next = rate_at(rates, i + 1);
        if !in_band(stays, next) {
            made = i;
            break;
        }
        positions[2 * i] = position;
        positions[2 * i + 1] = position + next;
        position += 2 * next;
    }
    if made == 0 {
        return Run {
            plan,
            control: c,
            made,
        };
    }
    let left = fade_at(plan, fade, made);
    Run {
        plan,
        control: control_at(rates, left, made, position),
        made,
    }
}
