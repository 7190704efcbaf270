ghost use Rattle.std.specs.Prelude.{◌≡◌};
ghost use Rattle.dpx_judge.specs.Transcript.{IsVerdict, ending_at};

use crate::judge::{Judge, JudgeStep};
use dpx_aux::AuxEnd;
use dpx_base::{Entry, Link};
use dpx_link::Verdict as Outcome;

/// How a training ended, as its history alone shows it.
#[derive(Clone, Copy, Debug, PartialEq, Eq)]
pub enum Ending {
    Trained(Link),
    NotTrained,
    CapsRefused,
    AuxEnded,
}

/// What a recorded history is.
#[derive(Clone, Copy, Debug, PartialEq, Eq)]
pub enum Verdict {
    /// That of a training, which ended so.
    Yes(Ending),
    /// A front of one, and not the whole.
    Short,
    /// It differs from every one of them, from the entry at this place on, counted from 0.
    Differs(u64),
}

/// What the list of entries is, for trainings of `top`.
pub fn judge_all(top: Link, entries: &[Entry]) -> Verdict
    ensures { IsVerdict top entries.now result }
{
    let mut judge = Judge::new(top);
    let mut verdict = Verdict::Short;
    for (place, entry) in entries.iter().enumerate() {
        verdict = match judge.feed(entry) {
            JudgeStep::More => Verdict::Short,
            JudgeStep::Ended(ending) => Verdict::Yes(ending),
            JudgeStep::Differs => return Verdict::Differs(place as u64),
        };
    }
    verdict
}

/// What a training's outcome shows of its end.
pub(crate) fn ending_at(outcome: Result<Outcome, AuxEnd>) -> Ending
    ensures { result ≡ ending_at outcome }
{
    match outcome {
        Ok(Outcome::Trained { link, .. }) => Ending::Trained(link),
        Ok(Outcome::NotTrained { .. }) => Ending::NotTrained,
        Ok(Outcome::CapsRefused { .. }) => Ending::CapsRefused,
        Err(_) => Ending::AuxEnded,
    }
}
