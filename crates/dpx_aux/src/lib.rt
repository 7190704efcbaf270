//! The AUX channel: the bytes of native requests and replies, and transactions.
//!
//! * `request`: a request and its bytes
//! * `reply`: what the bytes of an answer say to a request
//! * `asking`: a request that is asked until an answer ends it
//! * `transaction`: one native transaction, and how it ends
//! * `laws`: what the definitions obey
//!
//! `specs/Conversation.antt` has the parts that histories are made of, for this crate and those above it.
#![tactic(auto)]

mod asking;
mod laws;
mod reply;
mod request;
mod transaction;

pub use asking::{AuxRequest, Heard, LastAnswer, ask_in_turn};
pub use laws::{one_transaction, some_transaction};
pub use reply::{Reply, read_reply};
pub use request::{AuxBad, Data16, Request, encode_request, read_request};
pub use transaction::{AuxEnd, transact};
