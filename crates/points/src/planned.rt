// Points from their plans: values, or in a fade means of two.

ghost use Rattle.std.specs.Prelude.{◌≡◌, ℕ, suc, ◌+◌, ◌-◌, ◌^◌, ◌≤◌, ◌<◌, pos, nat_abs, ◌+ℤ◌, ◌*ℤ◌, length, get_or};
ghost use Rattle.arith.specs.Floor.{near};
ghost use Rattle.arith.specs.Lists.{at, tabulate, overwrite};
ghost use Rattle.positions.specs.Runs.{run_plan};
ghost use Rattle.points.specs.Points.{point};
ghost use Rattle.points.specs.Inner.{faded};

use control::Plan;
use windows::source::Source;

// A weighted mean of two values, rounded: near(((F − i) × old + i × new) / F).
fn mean(old: i64, new: i64, step: usize, fade: usize) -> i64
    requires { (nat_abs old ≤ 2 ^ 29) × (nat_abs new ≤ 2 ^ 29) × (step ≤ fade) × (1 ≤ fade) × (fade ≤ 256) }
    ensures { result ≡ near (pos (fade - step) *ℤ old +ℤ pos step *ℤ new) fade }
{
    let sum = (fade - step) as i64 * old + step as i64 * new;
    arith::near_by(sum, fade as i64)
}

// Writes the means of the values of two levels, newest first: the first is at step `last` of the fade, and each other one step before.
fn fade_values(line: &mut [i64], old: &[i64], new: &[i64], last: usize, fade: usize)
    requires lengths { (length old.now ≡ length line.old) × (length new.now ≡ length line.old) }
    requires steps { (length line.old ≤ last + 1) × (last ≤ fade) × (1 ≤ fade) × (fade ≤ 256) }
    requires small { (k : ℕ) → k < length line.old → (nat_abs (at old.now k) ≤ 2 ^ 29) × (nat_abs (at new.now k) ≤ 2 ^ 29) }
    ensures { line.new ≡ tabulate (length line.old) (λ k. faded fade (last - k) (at old.now k) (at new.now k)) }
{
    for (k, point) in line.iter_mut().enumerate() {
        *point = mean(old[k], new[k], last - k, fade);
    }
}

// Writes the points of a run whose first point's plan is given, newest first, before place 128: the values of one level, or in a fade the means of two.
pub(crate) fn planned_points(line: &mut [i64], positions: &[u64], p: Plan, source: &Source)
    requires levels { (p.old ≤ source.now.top) × (p.new ≤ source.now.top) }
    requires line_room { 128 ≤ length line.old }
    requires count { (1 ≤ length positions.now) × (length positions.now ≤ 128) }
    requires rising { (i k : ℕ) → i ≤ k → k < length positions.now → get_or positions.now i 0 ≤ get_or positions.now k 0 }
    requires early { (k : ℕ) → k < length positions.now → get_or positions.now k 0 ≤ 2 ^ 60 }
    requires in_fade { (p.step ≡ 0 → ⊥) → p.step + length positions.now ≤ source.now.layout.fade + 1 }
    ensures { line.new ≡ overwrite line.old (128 - length positions.now) (tabulate (length positions.now) (λ j.
        point source.now.book.now source.now.store.now (run_plan p (length positions.now - suc j) (get_or positions.now (length positions.now - suc j) 0)))) }
{
    if p.step == 0 {
        source.values_along(line, positions, p.old);
        return;
    }
    let mut old = [0i64; 128];
    let mut new = [0i64; 128];
    source.values_along(&mut old, positions, p.old);
    source.values_along(&mut new, positions, p.new);
    let count = positions.len();
    let newest = 128 - count;
    fade_values(
        &mut line[newest..128],
        &old[newest..],
        &new[newest..],
        p.step as usize + count - 1,
        source.layout.fade as usize,
    );
}

// The point of a plan.
pub(crate) fn one_point(p: Plan, source: &Source) -> i64
    requires levels { (p.old ≤ source.now.top) × (p.new ≤ source.now.top) }
    requires in_range { (p.step ≤ source.now.layout.fade) × (p.position ≤ 2 ^ 60) }
    ensures { result ≡ point source.now.book.now source.now.store.now p }
{
    let mut line = [0i64; 128];
    planned_points(&mut line, &[p.position], p, source);
    line[127]
}
