//! Tests of the rules that a configuration keeps: each from both sides of its edge, and which of two is answered.
//! docs/REFUSALS.md has the rules that they hold the library to.

#![tactic(auto)]

#[cfg(test)]
mod answer;
#[cfg(test)]
mod blocks;
#[cfg(test)]
mod depths;
#[cfg(test)]
mod dimensions;
#[cfg(test)]
mod indexes;
#[cfg(test)]
mod interleaving;
#[cfg(test)]
mod order;
#[cfg(test)]
mod presence;
#[cfg(test)]
mod sizes;
#[cfg(test)]
mod tiles;
