ghost use Rattle.std.specs.Prelude.{◌≡◌, ◌<◌, ◌≤◌, length};
ghost use Rattle.dpx_base.specs.Asks.{CanAsk, AsksAtMost};
ghost use Rattle.dpx_aux.specs.Conversation.{Converses};
ghost use Rattle.dpx_aux.specs.Asking.{AsksInTurn, Hears, asks_at_most};

use crate::request::Data16;
use dpx_base::{Answer, AuxPort, Bytes20};

/// An answer that ended nothing.
#[derive(Clone, Copy, Debug, PartialEq, Eq)]
pub enum LastAnswer {
    Defer,
    Malformed,
    Silent,
}

/// What one answer means for what was asked; `E` says how asking fails.
#[derive(Drop)]
pub enum Heard<E: Copy + Drop> {
    End(Result<Data16, E>),
    InVain(LastAnswer),
}

/// A request of any kind, as it is asked on the AUX channel.
pub trait AuxRequest {
    ghost use Rattle.std.specs.Prelude.{ℕ, List};
    ghost use Rattle.dpx_base.specs.declared.aux_port.Answer.{Answer};
    ghost use Rattle.dpx_aux.specs.declared.asking.Heard.{Heard};
    ghost use Rattle.dpx_aux.specs.declared.asking.LastAnswer.{LastAnswer};

    /// How asking for it fails.
    type Failure: Copy + Drop;

    /// Holds of the requests that can be asked.
    ghost is_valid: { Self → Type 0 };

    /// The bytes of the request.
    ghost encode: { Self → List ℕ };

    /// What an answer means for it.
    ghost heard_from: { Self → Answer → Heard Self.Failure };

    /// How it failed where every ask was in vain.
    ghost spent: { Self → LastAnswer → Self.Failure };

    /// The bytes of the request.
    fn encode(&self) -> Bytes20
        requires { is_valid self.now }
        ensures { result ≡ encode self.now };

    /// What an answer means for it.
    fn heard_from(&self, answer: &Answer) -> Heard<Self::Failure>
        requires { is_valid self.now }
        ensures { result ≡ heard_from self.now answer.now };

    /// How it failed where every ask was in vain; `last` says how the last one was.
    fn spent(&self, last: LastAnswer) -> Self::Failure
        ensures { result ≡ spent self.now last };
}

/// How often a request is asked at most: this project's own number.
const ASKS: u64 = 8;

/// Asks for the request until an answer ends it, at most eight times, and gives what was brought.
pub fn ask_in_turn<P: AuxPort, Q: AuxRequest>(
    port: &mut P,
    request: &Q,
) -> Result<Data16, Q::Failure>
    requires valid { Q.is_valid request.now }
    requires countable { CanAsk asks_at_most (P.state port.old) }
    ensures asks { Converses
        (AsksInTurn (Q.encode request.now) (Q.heard_from request.now) (Q.spent request.now))
        (P.state port.old) (P.state port.new) result }
    ensures some { (P.state port.old).asked < (P.state port.new).asked }
    ensures few { AsksAtMost asks_at_most (P.state port.old) (P.state port.new) }
{
    let bytes = request.encode();
    for _ in 1..ASKS {
        match ask(port, request, bytes.as_slice()) {
            Heard::End(end) => return end,
            Heard::InVain(_) => {}
        }
    }
    match ask(port, request, bytes.as_slice()) {
        Heard::End(end) => end,
        Heard::InVain(last) => Err(request.spent(last)),
    }
}

fn ask<P: AuxPort, Q: AuxRequest>(port: &mut P, request: &Q, bytes: &[u8]) -> Heard<Q::Failure>
    requires valid { Q.is_valid request.now }
    requires encoded { bytes.now ≡ Q.encode request.now }
    requires short { length bytes.now ≤ 20 }
    requires countable { CanAsk 1 (P.state port.old) }
    ensures { Hears (Q.encode request.now) (Q.heard_from request.now) (P.state port.old) (P.state port.new) result }
{
    let answer = port.ask(bytes);
    request.heard_from(&answer)
}
