//! The definition box, `cmpd`: what components a frame has.

#![tactic(auto)]

mod component;
mod definition;

pub use component::{Component, Span};
pub use definition::{Definition, Uri};
