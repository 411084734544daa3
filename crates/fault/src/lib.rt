//! Why something was refused: a reason with its number, a layer with its letter, and a place.

#![tactic(auto)]

mod fault;
mod layer;
mod reason;

pub use fault::Fault;
pub use layer::Layer;
pub use reason::Reason;
