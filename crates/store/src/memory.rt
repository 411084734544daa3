// The whole of a buffer, to be read and written. It stands beside `Held` as IterMut beside Iter: one borrow is exclusive, the
// other shared.
ghost use Rattle.std.specs.Prelude.{◌≡◌, [], ◌∷◌};
ghost use Rattle.store.specs.Ends.{cut, past_limit};
ghost use Rattle.store.specs.Unwritten.{nothing, along};

use crate::bounds::out_of_bounds;
use crate::held::Held;
use crate::source::Source;
use crate::store::Store;
use fault::Fault;

#[derive(Drop)]
pub struct Memory<'a> {
    buffer: &'a mut [u8],
}

impl<'a> Memory<'a> {
    pub fn new(buffer: &'a mut [u8]) -> Memory<'a>
        ensures value { result.buffer.now ≡ buffer.old }
        ensures same { result.buffer.ghost_name ≡ buffer.entry.ghost_name }
    {
        Memory { buffer }
    }

    // The buffer itself, so that who lent it knows what it holds from then on.
    pub fn release(self) -> &'a mut [u8]
        ensures value { result.now ≡ self.entry.buffer.now }
        ensures same { result.ghost_name ≡ self.entry.buffer.ghost_name }
    {
        let Memory { buffer } = self;
        buffer
    }
}

impl Source for Memory<'_> {
    ghost bytes = { λ m. cut m.buffer.now };

    fn len(&self) -> u64 {
        Held::new(self.buffer).len()
    }

    fn read(&self, at: u64) -> Result<u8, Fault> {
        Held::new(self.buffer).read(at)
    }
}

impl Store for Memory<'_> {
    // Which buffer it is, and its bytes past the limit.
    ghost kept = { λ m. along (m.buffer.ghost_name ∷ []) (along (past_limit m.buffer.now) nothing) };

    fn write(&mut self, at: u64, value: u8) -> Result<(), Fault> {
        if at < (*self).len() {
            self.buffer[at as usize] = value;
            Ok(())
        } else {
            Err(out_of_bounds(at))
        }
    }
}
