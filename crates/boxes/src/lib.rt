//! Both boxes of one lane, read and written together: what components a frame has, and how they are laid out.

#![tactic(auto)]

mod boxes;

pub use boxes::Boxes;
pub use choices::{ComponentType, Flags, Format, Interleave, Sampling};
pub use configuration::{Configuration, Entry, Listing, Packing, Profile, Sizes};
pub use definition::{Component, Definition, Span, Uri};
