//! A layout as its rules see it: the table of entries, how lines are packed, and the plan of lines that they give.
//! With the proof that what the rules accept gives a plan in which no two values share a bit.

#![tactic(auto)]

mod entry;
mod laws;
mod packing;
mod units;

pub use entry::Entry;
pub use packing::{Blocks, Packing};
pub use units::{Bits, Bytes};
