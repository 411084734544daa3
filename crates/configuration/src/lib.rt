//! The configuration box, `uncC`: how the values of a frame's components are laid out.

#![tactic(auto)]

mod choice;
mod configuration;
mod entry;
mod form;
mod listing;
mod profile;

pub use configuration::Configuration;
pub use entry::Entry;
pub use listing::{Listing, Packing, Sizes};
pub use profile::{Profile, UnknownWord};
