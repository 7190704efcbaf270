ghost use Rattle.std.specs.Prelude.{◌≡◌};
ghost use Rattle.dpx_link.specs.Fallback.{slower_than, half_of, after_failed_recovery, after_failed_equalisation};
ghost use Rattle.dpx_link.specs.Fallback.{next_of};
ghost use Rattle.dpx_link.specs.Fallback.{fall_back, Falls};

use crate::attempt::AttemptEnd;
use crate::train_end::Verdict;
use dpx_base::{Lanes, Link, Rate};
use dpx_dpcd::Status6;

/// What follows an attempt.
#[derive(Clone, Copy, Debug, PartialEq, Eq)]
pub enum Next {
    /// An attempt on this configuration.
    Try(Link),
    Stop(Verdict),
}

/// What follows an attempt on `link` that ended so, in a training that began with `first`.
pub fn next_of(first: Link, link: Link, end: AttemptEnd) -> Next
    ensures value { result ≡ next_of first link end }
    ensures falls { Falls link result }
{
    match end {
        AttemptEnd::Done { drive, last } => Next::Stop(Verdict::Trained { link, drive, last }),
        AttemptEnd::Unrecovered { last } => fall_back(after_failed_recovery(first, link), last),
        AttemptEnd::Unequalised { last } => fall_back(after_failed_equalisation(link), last),
    }
}

fn fall_back(next: Option<Link>, last: Status6) -> Next
    ensures { result ≡ fall_back last next }
{
    match next {
        Some(link) => Next::Try(link),
        None => Next::Stop(Verdict::NotTrained { last }),
    }
}

/// What is tried after an attempt on `link` that failed to recover its clock, or lost it again.
fn after_failed_recovery(first: Link, link: Link) -> Option<Link>
    ensures { result ≡ after_failed_recovery first link }
{
    match slower_than(link.rate) {
        Some(rate) => Some(Link { rate, ..link }),
        None => {
            let lanes = half_of(link.lanes)?;
            Some(Link {
                rate: first.rate,
                lanes,
                enhanced: link.enhanced,
            })
        }
    }
}

/// What is tried after an attempt on `link` that failed to equalise.
fn after_failed_equalisation(link: Link) -> Option<Link>
    ensures { result ≡ after_failed_equalisation link }
{
    match half_of(link.lanes) {
        Some(lanes) => Some(Link { lanes, ..link }),
        None => {
            let rate = slower_than(link.rate)?;
            Some(Link { rate, ..link })
        }
    }
}

fn slower_than(rate: Rate) -> Option<Rate>
    ensures { result ≡ slower_than rate }
{
    match rate {
        Rate::Rbr => None,
        Rate::Hbr => Some(Rate::Rbr),
        Rate::Hbr2 => Some(Rate::Hbr),
        Rate::Hbr3 => Some(Rate::Hbr2),
    }
}

fn half_of(lanes: Lanes) -> Option<Lanes>
    ensures { result ≡ half_of lanes }
{
    match lanes {
        Lanes::One => None,
        Lanes::Two => Some(Lanes::One),
        Lanes::Four => Some(Lanes::Two),
    }
}
