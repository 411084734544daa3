// What keeps the program from its statement. A refused box does not: it is part of the statement.
use std::alloc::{AllocError, Global};
use std::{fmt, io};
use thiserror::Error;

#[derive(Drop, Error)]
pub(crate) enum Failure {
    // What is wrong with the words or files of the call.
    #[error("{0}")]
    Call(String),
    #[error("out of memory")]
    Memory(#[from(alloc)] AllocError),
    #[error(transparent)]
    Output(#[from] io::Error),
}

impl Failure {
    // What is wrong with the words or the files of a lane.
    pub(crate) fn of_lane(heap: Global, number: usize, wrong: &impl fmt::Display) -> Failure {
        match format!(in heap; "lane {number}: {wrong}") {
            Ok(text) => Failure::Call(text),
            Err(error) => Failure::Memory(error),
        }
    }
}

// A program that fails reports its failure by `Debug`, so this is the text for the caller.
impl fmt::Debug for Failure {
    fn fmt<W: fmt::Write>(&self, f: &mut fmt::Formatter<W>) -> fmt::Result {
        write!(f, "{self}")
    }
}
