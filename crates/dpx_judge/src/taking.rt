ghost use Rattle.std.specs.Prelude.{◌≡◌};
ghost use Rattle.dpx_aux.specs.Request.{IsValid};
ghost use Rattle.dpx_judge.specs.Machine.{awaits, IsReached};
ghost use Rattle.dpx_judge.specs.Remainder.{BringsEnough, Heeds, Left, Leaves, LeftBehind};
ghost use Rattle.dpx_judge.specs.declared.awaited.Awaited.{Awaited};

use crate::awaited::{Awaited, awaits};
use crate::behind::{Behind, what_follows};
use crate::turn::Turn;
use dpx_aux::{AuxEnd, AuxRequest, Heard, Request, encode_request};
use dpx_base::{Entry, Link};
use dpx_link::Verdict;

/// How often a request is asked at most.
const ASKS: u8 = 8;

/// What an entry makes of a training that stood somewhere.
#[derive(Clone, Copy)]
pub(crate) enum Taken {
    More(Turn),
    /// The training has ended so.
    Stop(Result<Verdict, AuxEnd>),
    /// No training goes on with this entry.
    Differs,
}

/// Takes the next entry of a training of `top`.
pub(crate) fn take(top: Link, turn: Turn, entry: &Entry) -> Taken
    ensures { Leaves top (Left top turn.step turn.in_vain entry.now) result }
{
    match awaits(&turn.step) {
        Awaited::Wait(micros) => take_wait(top, turn, micros, entry),
        Awaited::Ask(request) => take_ask(top, turn, &request, entry),
    }
}

fn take_wait(top: Link, turn: Turn, micros: u32, entry: &Entry) -> Taken
    requires { awaits turn.step ≡ Awaited.Wait micros }
    ensures { Leaves top (Left top turn.step turn.in_vain entry.now) result }
{
    let Entry::Waited(waited) = entry else {
        return Taken::Differs;
    };
    if *waited == micros {
        passed(top, what_follows(top, &turn.step, &[]))
    } else {
        Taken::Differs
    }
}

fn take_ask(top: Link, turn: Turn, request: &Request, entry: &Entry) -> Taken
    requires asks { awaits turn.step ≡ Awaited.Ask request.now }
    requires valid { IsValid request.now }
    ensures { Leaves top (Left top turn.step turn.in_vain entry.now) result }
{
    let Entry::Asked {
        request: bytes,
        answer,
    } = entry
    else {
        return Taken::Differs;
    };
    if bytes.as_slice() == encode_request(request).as_slice() {
        hear(top, turn, request, request.heard_from(answer))
    } else {
        Taken::Differs
    }
}

/// Takes what was heard from the sink.
fn hear(top: Link, turn: Turn, request: &Request, heard: Heard<AuxEnd>) -> Taken
    requires asks { awaits turn.step ≡ Awaited.Ask request.now }
    requires valid { IsValid request.now }
    requires brings { BringsEnough request.now heard }
    ensures { Leaves top (Heeds top turn.step turn.in_vain request.now heard) result }
{
    match heard {
        Heard::End(Ok(bytes)) => passed(top, what_follows(top, &turn.step, bytes.as_slice())),
        Heard::End(Err(why)) => Taken::Stop(Err(why)),
        Heard::InVain(last) => {
            if turn.in_vain + 1 < ASKS {
                Taken::More(Turn {
                    step: turn.step,
                    in_vain: turn.in_vain + 1,
                })
            } else {
                Taken::Stop(Err(request.spent(last)))
            }
        }
    }
}

/// A step was made.
fn passed(top: Link, behind: Behind) -> Taken
    requires { IsReached behind }
    ensures { Leaves top (LeftBehind top behind) result }
{
    match behind {
        Behind::Go(step) => Taken::More(Turn { step, in_vain: 0 }),
        Behind::Stop(outcome) => Taken::Stop(outcome),
    }
}
