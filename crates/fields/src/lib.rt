//! The fields that boxes are made of: numbers at an offset, the header, the count, the end.

#![tactic(auto)]

mod element;
mod item;
mod reader;
mod table;
mod whole;
mod writing;

pub use element::Element;
pub use item::Item;
pub use reader::Reader;
pub use table::Table;
pub use whole::Whole;
pub use writing::{put, put_half, put_header, put_word};
