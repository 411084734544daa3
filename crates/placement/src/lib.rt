//! Where bits lie: words, lines of packed values, grids of lines, and the places of a frame. Definitions and
//! their theory, for the layout to be measured by.

#![tactic(auto)]

mod laws;
mod place;

pub use place::Place;
