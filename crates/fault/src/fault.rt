// A refusal, passed up unchanged to whoever asked.
use crate::layer::Layer;
use crate::reason::Reason;
use std::fmt;

// A place is where the fault lies, in what its layer counts: for a box, the byte offset of the field
// that is wrong or runs past the end, or of the first byte left over; for a single value always 0.
#[derive(Clone, Copy, Debug, PartialEq, Eq)]
pub struct Fault {
    pub reason: Reason,
    pub layer: Layer,
    pub place: u64,
}

impl fmt::Display for Fault {
    fn fmt<W: fmt::Write>(&self, f: &mut fmt::Formatter<W>) -> fmt::Result {
        let number = u8::from(self.reason);
        let letter = char::from(self.layer);
        let place = self.place;
        let meaning = self.reason;
        write!(
            f,
            "refusal {number}, layer {letter}, place {place}: {meaning}"
        )
    }
}
