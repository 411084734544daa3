//! The rules that a configuration keeps, before a frame can be laid out by it.

#![tactic(auto)]

mod entries;
mod interleaving;
mod packing;
mod refused;
mod rules;
mod tiles;
mod typed;

pub use refused::NO_ENTRY;
pub use rules::check;
