use crate::step::Step;
use crate::taking::{Taken, take};
use crate::turn::Turn;
use crate::verdict::{Ending, ending_at};
use dpx_base::{Entry, Link};

/// Reads a recorded history of an AUX channel, entry by entry. It keeps no list.
#[derive(Drop)]
pub struct Judge {
    top: Link,
    /// Where the training stands; none where the list has ended or differed.
    turn: Option<Turn>,
}

/// What the entries so far are.
#[derive(Clone, Copy, Debug, PartialEq, Eq)]
pub enum JudgeStep {
    /// A front of a training's history, and not the whole of one.
    More,
    /// The whole history of a training, which ended so.
    Ended(Ending),
    /// A front of no training's history.
    Differs,
}

impl Judge {
    ghost use Rattle.std.specs.Prelude.{◌≡◌, List, [], ◌∷◌, ◌++◌};
    ghost use Rattle.dpx_base.specs.declared.aux_port.Entry.{Entry};
    ghost use Rattle.dpx_base.specs.declared.link.Link.{Link};
    ghost use Rattle.dpx_judge.specs.declared.judge.JudgeStep.{JudgeStep};
    ghost use Rattle.dpx_judge.specs.Judge.{StandsFor, IsJudged, IsOver};

    /// A judge of trainings of `top` that has read no entry.
    pub fn new(top: Link) -> Judge
        ensures { StandsFor top [] result }
    {
        Judge {
            top,
            turn: Some(Turn {
                step: Step::BaseBlock,
                in_vain: 0,
            }),
        }
    }

    /// Takes the next entry, and says what the entries so far are. Once they have ended or differed, each
    /// further entry differs.
    pub fn feed(&mut self, entry: &Entry) -> JudgeStep
        ensures judged { (top : Link) (entries : List Entry) → StandsFor top entries self.old
            → IsJudged top (entries ++ entry.now ∷ []) result self.new }
        ensures again { IsOver self.old → (result ≡ JudgeStep.Differs) × IsOver self.new }
    {
        let Some(turn) = self.turn else {
            return JudgeStep::Differs;
        };
        match take(self.top, turn, entry) {
            Taken::More(turn) => {
                self.turn = Some(turn);
                JudgeStep::More
            }
            Taken::Stop(outcome) => {
                self.turn = None;
                JudgeStep::Ended(ending_at(outcome))
            }
            Taken::Differs => {
                self.turn = None;
                JudgeStep::Differs
            }
        }
    }
}
