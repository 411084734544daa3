// One after another.
ghost use Rattle.std.specs.Prelude.{◌≡◌, [], ◌∷◌, ◌++◌, length};
ghost use Rattle.store.specs.Ends.{past_limit, join_bytes};
ghost use Rattle.store.specs.Unwritten.{along, both};

use crate::bounds::out_of_bounds;
use crate::source::{LIMIT, Source};
use crate::store::Store;
use fault::Fault;

#[derive(Drop)]
pub struct Join<A, B> {
    first: A,
    second: B,
}

impl<A, B> Join<A, B> {
    pub fn new(first: A, second: B) -> Join<A, B>
        ensures { (result.first ≡ first) × (result.second ≡ second) }
    {
        Join { first, second }
    }

    pub fn release(self) -> (A, B)
        ensures { (result.0 ≡ self.first) × (result.1 ≡ self.second) }
    {
        let Join { first, second } = self;
        (first, second)
    }
}

impl<A: Source, B: Source> Source for Join<A, B> {
    ghost bytes = { λ j. join_bytes (A.Source.bytes j.first) (B.Source.bytes j.second) };

    fn len(&self) -> u64 {
        (self.first.len() + self.second.len()).min(LIMIT)
    }

    fn read(&self, at: u64) -> Result<u8, Fault> {
        let seam = self.first.len();
        if at < seam {
            self.first.read(at)
        } else if at < self.len() {
            self.second.read(at - seam)
        } else {
            Err(out_of_bounds(at))
        }
    }
}

impl<A: Store, B: Store> Store for Join<A, B> {
    // Where the seam is, the bytes past the limit, and what each part keeps.
    ghost kept = { λ j. along (length (A.Source.bytes j.first) ∷ []) (along (past_limit (A.Source.bytes j.first ++ B.Source.bytes j.second)) (both (A.Store.kept j.first) (B.Store.kept j.second))) };

    fn write(&mut self, at: u64, value: u8) -> Result<(), Fault> {
        let seam = self.first.len();
        if at < seam {
            self.first.write(at, value)
        } else if at < (*self).len() {
            self.second.write(at - seam, value)
        } else {
            Err(out_of_bounds(at))
        }
    }
}
