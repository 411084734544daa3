// A number that stands for none of the choices.
use std::error::Error;
use std::fmt;

#[derive(Clone, Copy, Debug, PartialEq, Eq)]
pub struct Reserved(pub u8);

impl fmt::Display for Reserved {
    fn fmt<W: fmt::Write>(&self, f: &mut fmt::Formatter<W>) -> fmt::Result {
        write!(f, "the number {} is reserved", self.0)
    }
}

impl Error for Reserved {}
