//! Sources and stores of bytes: what can be read and what can be written, byte by byte, whatever it lies on.

#![tactic(auto)]

mod bounds;
mod copying;
mod held;
mod join;
mod lent;
mod memory;
mod ramp;
mod rings;
mod sameness;
mod source;
mod store;
mod window;

pub use bounds::out_of_bounds;
pub use copying::copy;
pub use held::Held;
pub use join::Join;
pub use memory::Memory;
pub use ramp::Ramp;
pub use rings::{held_ring, ring};
pub use sameness::same_bytes;
pub use source::{LIMIT, Source};
pub use store::Store;
pub use window::Window;
