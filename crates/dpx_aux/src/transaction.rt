ghost use Rattle.std.specs.Prelude.{◌≡◌, ◌<◌, length, IfOk};
ghost use Rattle.dpx_base.specs.Asks.{CanAsk, AsksAtMost};
ghost use Rattle.dpx_aux.specs.Asking.{asks_at_most};
ghost use Rattle.dpx_aux.specs.Request.{IsValid, encode_request, answered_length, address_of};
ghost use Rattle.dpx_aux.specs.Conversation.{Converses};
ghost use Rattle.dpx_aux.specs.Transaction.{Transaction, heard_from, spent};

use crate::asking::{AuxRequest, Heard, LastAnswer, ask_in_turn};
use crate::reply::{Reply, read_reply};
use crate::request::{Data16, Request, address_of, encode_request};
use dpx_base::{Answer, AuxPort, Bytes20};

/// How a transaction failed. `address` is its request's.
#[derive(Clone, Copy, Debug, PartialEq, Eq)]
pub enum AuxEnd {
    /// The sink refused, after so many bytes of a write.
    Refused { address: u32, taken: u8 },
    /// Every ask was in vain; `last` says how the last one was.
    Spent { address: u32, last: LastAnswer },
}

/// Asks for the request until an answer acknowledges or refuses it, at most eight times, and gives what an
/// acknowledged read brought.
#[tactic(auto, unfolding(crate::specs::Transaction::Transaction))]
pub fn transact<P: AuxPort>(port: &mut P, request: &Request) -> Result<Data16, AuxEnd>
    requires valid { IsValid request.now }
    requires countable { CanAsk asks_at_most (P.state port.old) }
    ensures transaction { Converses (Transaction request.now) (P.state port.old) (P.state port.new) result }
    ensures some { (P.state port.old).asked < (P.state port.new).asked }
    ensures few { AsksAtMost asks_at_most (P.state port.old) (P.state port.new) }
    ensures length { IfOk result (λ bytes. length bytes ≡ answered_length request.now) }
{
    ask_in_turn(port, request)
}

impl AuxRequest for Request {
    type Failure = AuxEnd;

    ghost is_valid = { IsValid };

    ghost encode = { encode_request };

    ghost heard_from = { heard_from };

    ghost spent = { λ request. spent (address_of request) };

    fn encode(&self) -> Bytes20 {
        encode_request(self)
    }

    fn heard_from(&self, answer: &Answer) -> Heard<AuxEnd> {
        let Answer::Bytes(bytes) = answer else {
            return Heard::InVain(LastAnswer::Silent);
        };
        match read_reply(self, bytes.as_slice()) {
            Reply::Ack(payload) => Heard::End(Ok(payload)),
            Reply::Nack(taken) => Heard::End(Err(AuxEnd::Refused {
                address: address_of(self),
                taken,
            })),
            Reply::Defer => Heard::InVain(LastAnswer::Defer),
            Reply::Malformed => Heard::InVain(LastAnswer::Malformed),
        }
    }

    fn spent(&self, last: LastAnswer) -> AuxEnd {
        AuxEnd::Spent {
            address: address_of(self),
            last,
        }
    }
}
