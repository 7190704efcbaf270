ghost use Rattle.std.specs.Prelude.{◌≡◌, ◌<◌};
ghost use Rattle.dpx_base.specs.Code.{disparity_after, next_disparity};
ghost use Rattle.dpx_code.specs.Disparity.{rd_of};

/// A running disparity, as far as it is known.
#[derive(Clone, Copy, Debug, PartialEq, Eq)]
pub enum Rd {
    Minus,
    Plus,
    Unknown,
}

pub(crate) fn rd_of(plus: bool) -> Rd
    ensures { result ≡ rd_of plus }
{
    if plus { Rd::Plus } else { Rd::Minus }
}

#[tactic(auto, unfolding(dpx_base::specs::Code::disparity_after))]
pub(crate) fn disparity_after(half: u32, block: u8, plus: bool) -> bool
    ensures { result ≡ disparity_after half block plus }
{
    let ones = block.count_ones();
    if ones > half {
        true
    } else if ones < half {
        false
    } else {
        plus
    }
}

#[tactic(auto, unfolding(dpx_base::specs::Code::next_disparity))]
pub(crate) fn next_disparity(word: u16, plus: bool) -> bool
    requires { word < 1024 }
    ensures { result ≡ next_disparity word plus }
{
    let middle = disparity_after(3, (word / 16) as u8, plus);
    disparity_after(2, (word % 16) as u8, middle)
}
