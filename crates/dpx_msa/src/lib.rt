//! Main stream attributes: what a source tells of its mode, and how a sink reads it.
//!
//! * `attributes`: the numbers that a sink has read
//! * `msa_bad`: why bytes have no reading
//! * `spelling`, `reading`: 36 bytes of a mode, and back
//! * `columns`: which lane carries which byte, and VB-ID
//! * `laws`: what is spelled is read
#![tactic(auto)]

mod attributes;
mod columns;
mod laws;
mod msa_bad;
mod reading;
mod spelling;

pub use attributes::Attributes;
pub use columns::{column_symbol, vb_id};
pub use laws::{columns_come_back, what_is_spelled_is_read};
pub use msa_bad::MsaBad;
pub use reading::read_attributes;
pub use spelling::attributes_bytes;
