//! Where every bit of a frame lies: from the two boxes of a lane, a width and a height to the byte and bit of every
//! bit of every value.

#![tactic(auto)]

mod blocks;
mod coordinates;
mod find;
mod frame;
mod group;
mod layout;
mod line;
mod locate;
mod order;
mod parts;
mod seat;
mod starts;
mod stream;
mod sums;
mod units;
mod word;
mod worked;

pub use layout::Layout;
pub use placement::Place;
pub use plans::{Bits, Bytes, Entry};
pub use worked::worked_cases;
