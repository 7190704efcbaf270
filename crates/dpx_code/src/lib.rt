//! The 8b/10b code of the main link: ANSI X3.230, transmission code.
//!
//! * `disparity`: a running disparity
//! * `tables`: the blocks and the control words, each written once for both ways
//! * `encoding`: the word of a symbol
//! * `decoding`: the symbol of a word, where the disparity is known or not
//! * `laws`: what the definitions obey
#![tactic(auto)]

mod decoding;
mod disparity;
mod encoding;
mod laws;
mod tables;

pub use decoding::{CodeBad, decode};
pub use disparity::Rd;
pub use encoding::encode;
pub use laws::words_tell_symbols;
