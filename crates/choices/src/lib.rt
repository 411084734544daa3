//! The closed choices of the configuration box, each with its number: formats, samplings, interleaves and flags.

#![tactic(auto)]

mod choice;
mod component_type;
mod flags;
mod reserved;

pub use choice::{Format, Interleave, Sampling};
pub use component_type::ComponentType;
pub use flags::Flags;
pub use reserved::Reserved;
