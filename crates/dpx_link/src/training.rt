ghost use Rattle.std.specs.Prelude.{◌≡◌, ◌+◌, ◌*◌, ◌≤◌, IfOk};
ghost use Rattle.dpx_base.specs.Asks.{CanAsk, AsksAtMost};
ghost use Rattle.dpx_aux.specs.Conversation.{Converses};
ghost use Rattle.dpx_aux.specs.Asking.{asks_at_most};
ghost use Rattle.dpx_link.specs.Attempt.{attempt_transactions};
ghost use Rattle.dpx_link.specs.Training.{Capabilities, Attempts, TrainsWith, TrainOutcome, Training};
ghost use Rattle.dpx_link.specs.Training.{requests_told, TrainedIsDone, VerdictIsDone, attempts_at_most, training_asks};

use crate::attempt::attempt;
use crate::fallback::{Next, next_of};
use crate::train_end::{TrainEnd, Verdict, end_of};
use dpx_aux::AuxEnd;
use dpx_base::{AuxPort, Link};
use dpx_dpcd::register_map::{DP13_DPCD_REV, DPCD_REV, SET_POWER, TRAINING_PATTERN_SET};
use dpx_dpcd::{Caps, has_extended, read_block, write_registers};

/// So many configurations there are: four rates on 4, 2 and 1 lanes.
const ATTEMPTS: u32 = 12;

/// Trains the link, from `top` downwards.
pub fn train<P: AuxPort>(port: &mut P, top: Link) -> TrainEnd
    requires { CanAsk training_asks (P.state port.old) }
    ensures training { Converses (Training top) (P.state port.old) (P.state port.new) result }
    ensures few { AsksAtMost training_asks (P.state port.old) (P.state port.new) }
    ensures counted { (P.state port.new).asked ≡ (P.state port.old).asked + requests_told result }
    ensures good { TrainedIsDone result }
{
    let before = port.asked();
    let outcome = converse(port, top);
    end_of(outcome, (port.asked() - before) as u32)
}

/// The whole conversation. A transaction that fails is its last.
#[tactic(auto, unfolding(crate::specs::Training::TrainOutcome))]
fn converse<P: AuxPort>(port: &mut P, top: Link) -> Result<Verdict, AuxEnd>
    requires { CanAsk training_asks (P.state port.old) }
    ensures trains { Converses (TrainOutcome top) (P.state port.old) (P.state port.new) result }
    ensures few { AsksAtMost training_asks (P.state port.old) (P.state port.new) }
    ensures good { IfOk result VerdictIsDone }
{
    let block = capabilities(port)?;
    match Caps::read(&block) {
        Ok(caps) => train_with(port, &caps, caps.start(top)),
        Err(why) => Ok(Verdict::CapsRefused { why }),
    }
}

/// The block of capabilities in force.
#[tactic(auto, unfolding(crate::specs::Training::Capabilities))]
fn capabilities<P: AuxPort>(port: &mut P) -> Result<[u8; 16], AuxEnd>
    requires { CanAsk (asks_at_most * 2) (P.state port.old) }
    ensures capabilities { Converses Capabilities (P.state port.old) (P.state port.new) result }
    ensures few { AsksAtMost (asks_at_most * 2) (P.state port.old) (P.state port.new) }
{
    let block = read_block(port, DPCD_REV)?;
    if has_extended(&block) {
        read_block(port, DP13_DPCD_REV)
    } else {
        Ok(block)
    }
}

/// Power, the attempts, and the closing write.
#[tactic(auto, unfolding(crate::specs::Training::TrainsWith))]
fn train_with<P: AuxPort>(port: &mut P, caps: &Caps, first: Link) -> Result<Verdict, AuxEnd>
    requires interval { caps.now.interval ≤ 127 }
    requires countable { CanAsk (asks_at_most * (2 + attempts_at_most * attempt_transactions)) (P.state port.old) }
    ensures trains { Converses (TrainsWith caps.now first) (P.state port.old) (P.state port.new) result }
    ensures few { AsksAtMost (asks_at_most * (2 + attempts_at_most * attempt_transactions))
        (P.state port.old) (P.state port.new) }
    ensures good { IfOk result VerdictIsDone }
{
    write_registers(port, SET_POWER, &[0x01])?;
    let verdict = attempts(port, caps, first)?;
    write_registers(port, TRAINING_PATTERN_SET, &[0x00])?;
    Ok(verdict)
}

/// Attempts from `first` on, along the fallback order, until one succeeds or none is left.
fn attempts<P: AuxPort>(port: &mut P, caps: &Caps, first: Link) -> Result<Verdict, AuxEnd>
    requires interval { caps.now.interval ≤ 127 }
    requires countable { CanAsk (asks_at_most * (attempts_at_most * attempt_transactions)) (P.state port.old) }
    ensures attempts { Converses (Attempts attempts_at_most caps.now first first)
        (P.state port.old) (P.state port.new) result }
    ensures few { AsksAtMost (asks_at_most * (attempts_at_most * attempt_transactions))
        (P.state port.old) (P.state port.new) }
    ensures good { IfOk result VerdictIsDone }
{
    let mut link = first;
    for _ in 0..ATTEMPTS {
        let end = attempt(port, caps, link)?;
        match next_of(first, link, end) {
            Next::Try(lower) => link = lower,
            Next::Stop(verdict) => return Ok(verdict),
        }
    }
    // Each step falls, and there are no more configurations than attempts.
    unreachable!()
}
