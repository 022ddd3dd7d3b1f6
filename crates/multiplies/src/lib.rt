// The multiply count of a block of outputs: its level values are counted along its runs, and taken times their multiplies at its end.

#![tactic(auto)]

ghost use Rattle.std.specs.Prelude.{◌≡◌, ◌+◌, ◌*◌, ◌≤◌};
ghost use Rattle.multiplies.specs.Multiplies.{values_made};

// The level values that a point makes, by the step of its fade: both levels' to the last step, and one where none runs.
pub fn values_made(step: u32) -> usize
    ensures { result ≡ values_made step }
{
    if step == 0 { 1 } else { 2 }
}

// The multiplies of a block: 2N for each of its level values, and 2B + 1 for each output.
pub fn block_multiplies(taps: usize, values: usize, decimation: usize, outputs: usize) -> u64
    requires { (taps ≤ 24) × (values ≤ 4 * outputs) × (decimation ≤ 40) × (outputs ≤ 1048576) }
    ensures { result ≡ values * (2 * taps) + outputs * (2 * decimation + 1) }
{
    (values * (2 * taps) + outputs * (2 * decimation + 1)) as u64
}
