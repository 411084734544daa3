//! What the bits of a field spell in a run of bytes, and how a number is put there. Definitions and their theory, for
//! reading and writing the values of a frame.

#![tactic(auto)]

mod laws;
