//! Tests of layouts: the rules from both sides of their edges, sizes and grids, where bits lie, and what has no place.
//! docs/FORMAT.md and docs/REFUSALS.md have what they hold the library to. Where bits lie was worked out value by value,
//! and the sizes of the largest frames by exact arithmetic, both apart from the library.

#![tactic(auto)]

#[cfg(test)]
mod blocks;
#[cfg(test)]
mod grids;
#[cfg(test)]
mod interleaves;
#[cfg(test)]
mod laid;
#[cfg(test)]
mod largest;
#[cfg(test)]
mod lines;
#[cfg(test)]
mod order;
#[cfg(test)]
mod pixels;
#[cfg(test)]
mod places;
#[cfg(test)]
mod profiles;
#[cfg(test)]
mod wide;
#[cfg(test)]
mod words;
#[cfg(test)]
mod worked;
