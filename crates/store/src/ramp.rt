// Bytes that go up from 0 to 250, and again.
ghost use Rattle.std.specs.Prelude.{◌≡◌};
ghost use Rattle.store.specs.Ends.{ramp_bytes};

use crate::bounds::out_of_bounds;
use crate::source::{LIMIT, Source};
use fault::Fault;

#[derive(Clone, Copy)]
pub struct Ramp {
    count: u64,
}

impl Ramp {
    pub fn new(count: u64) -> Ramp
        ensures { result.count ≡ count }
    {
        Ramp { count }
    }

    // The length that was asked for, which may lie past the limit.
    pub fn release(self) -> u64
        ensures { result ≡ self.count }
    {
        let Ramp { count } = self;
        count
    }
}

impl Source for Ramp {
    ghost bytes = { λ r. ramp_bytes r.count };

    fn len(&self) -> u64 {
        self.count.min(LIMIT)
    }

    fn read(&self, at: u64) -> Result<u8, Fault> {
        if at < self.len() {
            Ok((at % 251) as u8)
        } else {
            Err(out_of_bounds(at))
        }
    }
}
