// Points of a run of outputs, written to a line of points, newest first. The history stands at place 128 of the line; the points of a run come
// before it.

#![tactic(auto)]

ghost use Rattle.std.specs.Prelude.{◌≡◌, ◌-◌, ◌*◌, ◌≤◌};
ghost use Rattle.arith.specs.Lists.{overwrite};
ghost use Rattle.control.specs.Valid.{Valid};
ghost use Rattle.positions.specs.Runs.{control_after};
ghost use Rattle.multiplies.specs.Inner.{run_values};
ghost use Rattle.points.specs.Points.{point};
ghost use Rattle.points.specs.Runs.{run_points};

use crate::planned::{one_point, planned_points};
use control::Control;
use control::moves::{glide_moved, point_moved, point_plan};
use multiplies::values_made;
use positions::run_positions;
use windows::source::Source;

mod planned; // points from their plans

// What the points of some outputs leave: the control, how many outputs they are of, and how many level values they took.
#[derive(Clone, Copy)]
pub struct PointRun {
    pub control: Control,
    pub made: usize,
    pub values: usize,
}

// Writes the two points of one output, whatever they need.
fn one_output(line: &mut [i64; 209], c: Control, source: &Source) -> PointRun
    requires { (c.top ≤ source.now.top) × Valid source.now.layout.fade c }
    ensures made { (result.made ≡ 1) × (result.control ≡ control_after source.now.layout.fade c 1)
        × (result.values ≡ run_values source.now.layout.fade c 1) }
    ensures points { line.new ≡ overwrite line.old 126 (run_points (point source.now.book.now source.now.store.now) source.now.layout.fade c 1) }
{
    let fade = source.layout.fade;
    let one = glide_moved(c);
    let p = point_plan(one);
    let first = one_point(p, source);
    let two = point_moved(one, fade);
    let q = point_plan(two);
    let second = one_point(q, source);
    line[126] = second;
    line[127] = first;
    PointRun {
        control: point_moved(two, fade),
        made: 1,
        values: values_made(p.step) + values_made(q.step),
    }
}

// Writes the points of the next outputs, up to `count` of them: a run without a fade, a run inside one, or one output.
pub fn next_points(line: &mut [i64; 209], c: Control, count: usize, source: &Source) -> PointRun
    requires control { (c.top ≤ source.now.top) × Valid source.now.layout.fade c }
    requires count { (1 ≤ count) × (count ≤ 64) }
    ensures made { (1 ≤ result.made) × (result.made ≤ count)
        × (result.control ≡ control_after source.now.layout.fade c result.made)
        × (result.values ≡ run_values source.now.layout.fade c result.made) }
    ensures points { line.new ≡ overwrite line.old (128 - 2 * result.made)
        (run_points (point source.now.book.now source.now.store.now) source.now.layout.fade c result.made) }
{
    let mut positions = [0u64; 128];
    let run = run_positions(c, source.layout.fade, count, &mut positions);
    if run.made == 0 {
        return one_output(line, c, source);
    }
    let points = 2 * run.made;
    planned_points(line, &positions[..points], run.plan, source);
    PointRun {
        control: run.control,
        made: run.made,
        values: points * values_made(run.plan.step),
    }
}
