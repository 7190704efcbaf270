ghost use Rattle.std.specs.Prelude.{◌≡◌, ◌+◌, IfOk};
ghost use Rattle.dpx_base.specs.declared.lanes.Lanes.{Lanes};
ghost use Rattle.dpx_base.specs.Asks.{CanAsk, AsksAtMost};
ghost use Rattle.dpx_aux.specs.Conversation.{Converses};
ghost use Rattle.dpx_aux.specs.Asking.{asks_at_most};
ghost use Rattle.dpx_link.specs.Training.{training_asks};
ghost use Rattle.dpx_watch.specs.declared.state.WatchState.{WatchState};
ghost use Rattle.dpx_watch.specs.State.{state_after, is_up, last_of, all_lanes_done, IsGoodState, IsGoodOutcome};
ghost use Rattle.dpx_watch.specs.Step.{Trains, Checks, Resumes, OnEvent, WatchStep, step_asks, settled};

use crate::outcome::{Outcome, Stepped, outcome_of, settled};
use crate::state::{WatchState, state_after};
use dpx_aux::AuxEnd;
use dpx_base::{AuxPort, Lanes, Link, PortEvent};
use dpx_dpcd::register_map::SET_POWER;
use dpx_dpcd::{Status6, read_status, write_registers};
use dpx_link::train;
use std::marker::Model;

/// The supervisor of a link. It is told what happens at the port; it trains, looks at the status, and trains again.
#[derive(Drop)]
pub struct Watch {
    top: Link,
    state: WatchState,
}

impl Model for Watch {
    ghost use Rattle.dpx_watch.specs.State.{WatchSeen};

    ghost Value = { WatchSeen };

    ghost view = { λ w. record { top = w.top; state = w.state } };
}

impl Watch {
    /// The link is down. It is trained from `top` downwards.
    pub fn new(top: Link) -> Watch
        ensures { result ≡ record { top = top; state = WatchState.Down } }
    {
        Watch {
            top,
            state: WatchState::Down,
        }
    }

    /// Whether frames are allowed.
    pub fn allows(&self) -> bool
        ensures { result ≡ is_up self.now.state }
    {
        matches!(self.state, WatchState::Up { .. })
    }

    /// The status that was read last, where frames are allowed.
    pub fn last(&self) -> Option<Status6>
        ensures { result ≡ last_of self.now.state }
    {
        match self.state {
            WatchState::Down => None,
            WatchState::Up { last, .. } => Some(last),
        }
    }

    /// Takes an event, and asks what it calls for: at most 3,120 requests.
    pub fn step<P: AuxPort>(&mut self, port: &mut P, event: PortEvent) -> Stepped
        requires { CanAsk step_asks (P.state port.old) }
        ensures step { Converses (WatchStep self.old.top self.old.state event)
            (P.state port.old) (P.state port.new) result.outcome }
        ensures state { self.new ≡ record {
          top = self.old.top;
          state = state_after self.old.state result.outcome;
        } }
        ensures good { IsGoodState self.new.state }
        ensures few { AsksAtMost step_asks (P.state port.old) (P.state port.new) }
        ensures counted { (P.state port.new).asked ≡ (P.state port.old).asked + result.requests }
    {
        let before = port.asked();
        let outcome = settled(on_event(port, self.top, self.state, event));
        self.state = state_after(self.state, outcome);
        Stepped {
            outcome,
            requests: (port.asked() - before) as u32,
        }
    }
}

/// What an event leads to.
fn on_event<P: AuxPort>(
    port: &mut P,
    top: Link,
    state: WatchState,
    event: PortEvent,
) -> Result<Outcome, AuxEnd>
    requires { CanAsk step_asks (P.state port.old) }
    ensures done { Converses (OnEvent top state event) (P.state port.old) (P.state port.new) result }
    ensures few { AsksAtMost step_asks (P.state port.old) (P.state port.new) }
    ensures good { IsGoodState (state_after state (settled result)) }
{
    match (event, state) {
        (PortEvent::Interrupt, WatchState::Up { link, .. }) => check(port, top, link),
        (PortEvent::Resume, WatchState::Up { link, .. }) => resume(port, top, link),
        (PortEvent::Interrupt, WatchState::Down) => Ok(Outcome::Nothing),
        (PortEvent::Loss, _) => Ok(Outcome::Unplugged),
        (PortEvent::Plug | PortEvent::Resume, _) => retrain(port, top),
    }
}

/// Looks at the status. Where it does not show every lane in use done, the link is trained anew.
#[tactic(auto, unfolding(crate::specs::Step::Checks))]
fn check<P: AuxPort>(port: &mut P, top: Link, link: Link) -> Result<Outcome, AuxEnd>
    requires { CanAsk (asks_at_most + training_asks) (P.state port.old) }
    ensures done { Converses (Checks top link) (P.state port.old) (P.state port.new) result }
    ensures few { AsksAtMost (asks_at_most + training_asks) (P.state port.old) (P.state port.new) }
    ensures good { IfOk result (IsGoodOutcome link.lanes) }
{
    let last = read_status(port)?;
    if all_lanes_done(link.lanes, &last) {
        Ok(Outcome::Kept { last })
    } else {
        retrain(port, top)
    }
}

/// Whether the status shows every lane in use done.
fn all_lanes_done(lanes: Lanes, status: &Status6) -> bool
    ensures { result ≡ all_lanes_done lanes status.now }
{
    status.cr_done(lanes) && status.eq_done(lanes)
}

/// Puts the sink to full power, and looks at the status.
#[tactic(auto, unfolding(crate::specs::Step::Resumes))]
fn resume<P: AuxPort>(port: &mut P, top: Link, link: Link) -> Result<Outcome, AuxEnd>
    requires { CanAsk step_asks (P.state port.old) }
    ensures done { Converses (Resumes top link) (P.state port.old) (P.state port.new) result }
    ensures few { AsksAtMost step_asks (P.state port.old) (P.state port.new) }
    ensures good { IfOk result (IsGoodOutcome link.lanes) }
{
    write_registers(port, SET_POWER, &[0x01])?;
    check(port, top, link)
}

/// Trains the link from `top` downwards.
fn retrain<P: AuxPort>(port: &mut P, top: Link) -> Result<Outcome, AuxEnd>
    requires { CanAsk training_asks (P.state port.old) }
    ensures done { Converses (Trains top) (P.state port.old) (P.state port.new) result }
    ensures few { AsksAtMost training_asks (P.state port.old) (P.state port.new) }
    ensures good { (lanes : Lanes) → IfOk result (IsGoodOutcome lanes) }
{
    Ok(outcome_of(train(port, top)))
}
