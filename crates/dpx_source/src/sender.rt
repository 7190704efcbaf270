ghost use Rattle.std.specs.Prelude.{◌≡◌, IfOk};
ghost use Rattle.dpx_source.specs.Sender.{IsNew};

use crate::Ticker;
use crate::word_writer::WordWriter;
use dpx_base::Memory;
use dpx_timing::Plan;
use std::alloc::Global;
use std::marker::Model;

/// What sends a plan: its ticker, and the lanes that make words of the ticker's sets.
#[derive(Drop)]
pub struct Sender {
    pub(crate) ticker: Ticker,
    pub(crate) writer: WordWriter,
}

impl Model for Sender {
    ghost use Rattle.dpx_source.specs.Sender.{SenderState};
    ghost use Rattle.dpx_source.specs.SenderFields.{sender_state, IsSender};

    ghost Value = { SenderState };

    ghost view = { sender_state };

    ghost invariant = { IsSender };
}

impl Sender {
    /// Before clock 0. It takes all the memory that sending needs.
    pub fn new(alloc: Global, plan: &Plan) -> Result<Sender, Memory>
        ensures new { IfOk result IsNew }
        ensures plan { IfOk result (λ sender. sender.ticker.plan ≡ plan.now) }
    {
        let ticker = Ticker::new(alloc, plan)?;
        let writer = WordWriter::new(alloc, plan.link().lanes)?;
        Ok(Sender { ticker, writer })
    }

    pub fn ticker(&self) -> &Ticker
        ensures { result.now ≡ self.now.ticker }
    {
        &self.ticker
    }
}
