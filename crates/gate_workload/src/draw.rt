// The draw: a linear congruential generator of 64 bits.
ghost use Rattle.std.specs.Prelude.{◌≡◌, ◌<◌};
ghost use Rattle.gate_workload.specs.Draws.{next_random, drawn};

/// The factor of the generator.
pub const FACTOR: u64 = 6_364_136_223_846_793_005;

/// The addend of the generator.
pub const ADDEND: u64 = 1_442_695_040_888_963_407;

/// The state that follows a state.
pub(crate) fn next_random(state: u64) -> u64
    ensures { result ≡ next_random state }
{
    state.wrapping_mul(FACTOR).wrapping_add(ADDEND)
}

/// The number below `bound` that a state gives. Only its high bits count, since the low ones repeat soon.
pub(crate) fn drawn(state: u64, bound: u64) -> u64
    requires { 0 < bound }
    ensures value { result ≡ drawn state bound }
    ensures below { result < bound }
{
    state / 8_589_934_592 % bound
}
