//! Tests of the two boxes: what is refused and where, what is read, and what is written back.
//! docs/FORMAT.md and docs/REFUSALS.md have the rules that they hold the library to.

#![tactic(auto)]

#[cfg(test)]
mod case;
#[cfg(test)]
mod configuration_box;
#[cfg(test)]
mod definition_box;
#[cfg(test)]
mod draft;
#[cfg(test)]
mod kind;
#[cfg(test)]
mod pair;
#[cfg(test)]
mod refusal;
#[cfg(test)]
mod samples;
#[cfg(test)]
mod writing;
