// An end that is not the library's: so many zero bytes.
ghost use Rattle.std.specs.Prelude.{replicate};

use fault::Fault;
use store::{Source, out_of_bounds};

#[derive(Clone, Copy)]
pub(crate) struct Blank {
    pub(crate) count: u32,
}

impl Source for Blank {
    ghost bytes = { λ b. replicate b.count 0 };

    fn len(&self) -> u64 {
        u64::from(self.count)
    }

    fn read(&self, at: u64) -> Result<u8, Fault> {
        if at < self.len() {
            Ok(0)
        } else {
            Err(out_of_bounds(at))
        }
    }
}
