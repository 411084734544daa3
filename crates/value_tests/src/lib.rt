//! Tests of values and their codes, and a kind of one's own.
//! The tables of floats are what tools/float-codes.c prints. docs/VALUES.md has the rules.

#![tactic(auto)]

#[cfg(test)]
mod case;
#[cfg(test)]
mod complex;
#[cfg(test)]
mod component;
#[cfg(test)]
mod double;
#[cfg(test)]
mod flag;
#[cfg(test)]
mod shown;
#[cfg(test)]
mod single;
#[cfg(test)]
mod whole;
