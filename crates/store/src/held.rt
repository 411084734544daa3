// All the bytes of a slice, to be read.
ghost use Rattle.std.specs.Prelude.{◌≡◌};
ghost use Rattle.store.specs.Access.{Octets};
ghost use Rattle.store.specs.Ends.{cut};

use crate::bounds::out_of_bounds;
use crate::source::{LIMIT, Source};
use fault::Fault;

#[derive(Drop)]
pub struct Held<'a> {
    bytes: &'a [u8],
    ghost octets: { Octets bytes.now },
}

impl<'a> Held<'a> {
    pub fn new(bytes: &'a [u8]) -> Held<'a>
        ensures { result.bytes.now ≡ bytes.now }
    {
        Held { bytes }
    }

    pub fn release(self) -> &'a [u8]
        ensures { result.now ≡ self.entry.bytes.now }
    {
        let Held { bytes } = self;
        bytes
    }
}

impl Source for Held<'_> {
    ghost bytes = { λ s. cut s.bytes.now };

    fn len(&self) -> u64 {
        (self.bytes.len() as u64).min(LIMIT)
    }

    fn read(&self, at: u64) -> Result<u8, Fault> {
        if at < self.len() {
            Ok(self.bytes[at as usize])
        } else {
            Err(out_of_bounds(at))
        }
    }
}
