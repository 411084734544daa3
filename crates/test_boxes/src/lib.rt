//! Both boxes of version 0, made by hand from what they are to say: what the tests of rules and layouts are given.

#![tactic(auto)]

mod bytes;
mod draft;
mod given;

pub use draft::{Draft, Entry, Flag, MONO, OCTETS, PLAIN, RGB, YUV};
pub use given::Given;
