//! Kinds of values: which components each takes, and how its values and their codes answer for one another.

#![tactic(auto)]

mod binary;
mod binary32;
mod binary64;
mod complex;
mod kind;
mod pattern;
mod whole;

pub use binary32::Binary32;
pub use binary64::Binary64;
pub use complex::{Complex, ComplexBinary32};
pub use kind::{Kind, check_kind, through_code, through_value};
pub use whole::Whole;
