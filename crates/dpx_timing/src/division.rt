ghost use Rattle.std.specs.Prelude.{◌≡◌, ◌≤◌, ◌<◌, ◌+◌, ◌*◌, ◌^◌};
ghost use Rattle.dpx_base.specs.Timing.{floor_div, ceil_div};

/// a / d, rounded up.
#[tactic(auto, unfolding(dpx_base::specs::Timing::ceil_div))]
pub(crate) fn ceil(a: u128, d: u128) -> u128
    requires divisor { 0 < d }
    requires room { a + d ≤ 2 ^ 96 }
    ensures value { result ≡ ceil_div a d }
    ensures least { d * result < a + d }
    ensures reached { a ≤ d * result }
    ensures small { result ≤ a }
{
    (a + d - 1) / d
}

/// a / d, rounded down.
#[tactic(auto, unfolding(dpx_base::specs::Timing::floor_div))]
pub(crate) fn floor(a: u128, d: u128) -> u128
    requires { 0 < d }
    ensures value { result ≡ floor_div a d }
    ensures within { d * result ≤ a }
    ensures greatest { a < d * result + d }
    ensures small { result ≤ a }
{
    a / d
}
