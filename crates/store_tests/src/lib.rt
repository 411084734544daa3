//! Tests of sources and stores: what each end reads and writes at its edges, piles of them, and what a caller knows of a
//! buffer that it lent. docs/STORES.md has the rules that they hold the library to.

#![tactic(auto)]

mod blank;
#[cfg(test)]
mod expected;
mod lending;
#[cfg(test)]
mod piles;
#[cfg(test)]
mod rings;
#[cfg(test)]
mod sources;
#[cfg(test)]
mod stores;
