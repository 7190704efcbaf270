//! What proofs don't show: tests of each layer's public calls. They stand in one crate, since a crate that
//! has tests is proved once more with them. Those of the top call stand in `dp_replay`.
#![tactic(auto)]

#[cfg(test)]
mod layers;
