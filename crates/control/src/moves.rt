// What moves a voice: the glide before an output, the fade and the position at each point.

ghost use Rattle.std.specs.Prelude.{◌≡◌, ◌^◌, ◌≤◌, ◌<◌};
ghost use Rattle.control.specs.Moves.{glide_rate, glide_after, move_glide, fade_target, point_plan, fade_after, move_point};
ghost use Rattle.control.specs.Valid.{GlideValid};

use crate::rate::{advanced, asked_level};
use crate::{Control, Fade, Glide, Plan};

// The rate of output j of a glide: R0 + floor((R1 − R0) × j / c).
fn glide_rate(g: Glide, j: u32) -> u64
    requires { (g.start < 2 ^ 32) × (g.target < 2 ^ 32) × (j ≤ g.count) × (1 ≤ g.count) × (g.count ≤ 65536) }
    ensures { result ≡ glide_rate g j }
{
    let start = g.start as i64;
    let way = (g.target as i64 - start) * j as i64;
    let count = g.count as i64;
    (start + arith::floor_div(way, count)) as u64
}

// A glide after its output j: at rest after the last.
pub fn glide_after(g: Glide, j: u32) -> Glide
    ensures { result ≡ glide_after g j }
{
    if j == g.count {
        return Glide::NONE;
    }
    Glide { done: j, ..g }
}

// One output more of the glide.
pub fn glide_moved(c: Control) -> Control
    requires { (c.top ≤ 4) × ((c.glide.count ≡ 0 → ⊥) → GlideValid c.top c.glide) }
    ensures { result ≡ move_glide c }
{
    let g = c.glide;
    if g.count == 0 {
        return c;
    }
    let j = g.done + 1;
    Control {
        rate: glide_rate(g, j),
        glide: glide_after(g, j),
        ..c
    }
}

// The level that a point's fade goes to: on to its own where one runs, else to the one asked from the current level. Here and below only the numbers that
// are read are bounded, not `Valid` whole: that would ask more of callers.
fn fade_target(c: Control) -> u32
    requires { c.fade.from ≤ 4 }
    ensures { result ≡ fade_target c }
{
    if c.fade.step == 0 {
        return asked_level(c.fade.from, c.rate);
    }
    c.fade.to
}

// What the next point is made from.
pub fn point_plan(c: Control) -> Plan
    requires { (c.fade.from ≤ 4) × (c.fade.step < 2 ^ 31) }
    ensures { result ≡ point_plan c }
{
    let old = c.fade.from;
    let new = fade_target(c);
    let step = if old == new { 0 } else { c.fade.step + 1 };
    Plan {
        old,
        new,
        step,
        position: c.position,
    }
}

// The fade after a point: over when i reaches F.
pub fn fade_after(p: Plan, fade: u32) -> Fade
    ensures { result ≡ fade_after fade p }
{
    if p.step == fade {
        return Fade {
            from: p.new,
            to: p.new,
            step: 0,
        };
    }
    Fade {
        from: p.old,
        to: p.new,
        step: p.step,
    }
}

// After a point: the fade moved on, and P advanced.
pub fn point_moved(c: Control, fade: u32) -> Control
    requires { (c.fade.from ≤ 4) × (c.fade.step < 2 ^ 31) }
    ensures { result ≡ move_point fade c }
{
    Control {
        fade: fade_after(point_plan(c), fade),
        position: advanced(c.position, c.rate),
        ..c
    }
}
