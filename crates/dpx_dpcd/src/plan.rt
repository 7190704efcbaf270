ghost use Rattle.std.specs.Prelude.{◌≡◌};

use crate::Channel;
use dpx_base::Answer;
use std::marker::Model;

/// Answers, seen as their list.
#[derive(Drop)]
pub struct AnswerList {
    answers: Vec<Answer>,
}

impl Model for AnswerList {
    ghost use Rattle.std.specs.Prelude.{List};
    ghost use Rattle.dpx_base.specs.declared.aux_port.Answer.{Answer};

    ghost Value = { List Answer };

    ghost view = { λ a. a.answers.items };
}

impl AnswerList {
    /// Takes the answers, first to last.
    pub fn from_vec(answers: Vec<Answer>) -> AnswerList
        ensures { result ≡ answers.items }
    {
        AnswerList { answers }
    }

    /// The answers, first to last.
    pub fn as_slice(&self) -> &[Answer]
        ensures { result.now ≡ self.now }
    {
        self.answers.as_slice()
    }
}

/// What a sink answers.
#[derive(Drop)]
pub enum SinkPlan {
    /// The answers in order, then silence.
    Script(AnswerList),
    /// A sink with registers: its capabilities and their extended field, how often it defers before it
    /// answers, and its channel.
    Model {
        caps: [u8; 16],
        extended: [u8; 16],
        defers: u8,
        channel: Channel,
    },
}
