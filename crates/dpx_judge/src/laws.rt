//! Laws of the definitions that the judge is proved against. Each function's contract is the law.
ghost use Rattle.std.specs.Prelude.{◌≡◌, List, [], ◌++◌};
ghost use Rattle.dpx_base.specs.declared.aux_port.Entry.{Entry};
ghost use Rattle.dpx_judge.specs.declared.verdict.Ending.{Ending};
ghost use Rattle.dpx_judge.specs.declared.verdict.Ending.TheVariants.{Trained};
ghost use Rattle.dpx_judge.specs.declared.verdict.Verdict.{Verdict};
ghost use Rattle.dpx_judge.specs.Transcript.{IsFront, IsVerdict, IsWhole, ShowsGood};

use dpx_base::Link;

/// Each front of a front of a training's history is one itself.
pub fn fronts_are_live(top: Link)
    ensures { (front back : List Entry) → IsFront top (front ++ back) → IsFront top front }
{}

/// A whole history is a front of no other one, and it has one ending.
pub fn one_ending(top: Link)
    ensures { (a b : Ending) (front back : List Entry) → IsWhole top a front → IsWhole top b (front ++ back)
        → (back ≡ []) × (a ≡ b) }
{}

/// A list has one verdict.
pub fn one_verdict(top: Link)
    ensures { (entries : List Entry) (a b : Verdict) → IsVerdict top entries a → IsVerdict top entries b → a ≡ b }
{}

/// A list is the history of a training that ended as trained only where the last status in it shows every lane of
/// that link done.
pub fn trained_is_good(top: Link)
    ensures { (link : Link) (entries : List Entry) → IsWhole top (Trained link) entries → ShowsGood link entries }
{}
