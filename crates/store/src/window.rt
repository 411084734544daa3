// A run of the bytes of what is below, cut at its end.
ghost use Rattle.std.specs.Prelude.{◌≡◌, ◌+◌, ◌≤◌, [], ◌∷◌, length, take, drop};
ghost use Rattle.store.specs.Access.{Octets};
ghost use Rattle.store.specs.Ends.{most_bytes, window_bytes};
ghost use Rattle.store.specs.Unwritten.{along};

use crate::bounds::out_of_bounds;
use crate::source::Source;
use crate::store::Store;
use fault::Fault;

#[derive(Drop)]
pub struct Window<S> {
    below: S,
    start: u64,
    count: u64,
}

impl<S> Window<S> {
    pub fn new(below: S, start: u64, count: u64) -> Window<S>
        ensures { (result.below ≡ below) × ((result.start ≡ start) × (result.count ≡ count)) }
    {
        Window {
            below,
            start,
            count,
        }
    }

    pub fn release(self) -> S
        ensures { result ≡ self.below }
    {
        let Window { below, .. } = self;
        below
    }
}

impl<S: Source> Source for Window<S> {
    ghost bytes = { λ w. window_bytes w.start w.count (S.Source.bytes w.below) };

    fn len(&self) -> u64
        ensures is { result ≡ length (window_bytes self.now.start self.now.count (S.Source.bytes self.now.below)) }
        ensures short { result ≤ most_bytes }
        ensures each { Octets (window_bytes self.now.start self.now.count (S.Source.bytes self.now.below)) }
        ensures below { length (S.Source.bytes self.now.below) ≤ most_bytes }
    {
        self.below.len().saturating_sub(self.start).min(self.count)
    }

    fn read(&self, at: u64) -> Result<u8, Fault> {
        if at < self.len() {
            self.below.read(self.start + at)
        } else {
            Err(out_of_bounds(at))
        }
    }
}

impl<S: Store> Store for Window<S> {
    // Where the window lies, the bytes before and after it, and what is kept below.
    ghost kept = { λ w. along (w.start ∷ w.count ∷ []) (along (take w.start (S.Source.bytes w.below)) (along (drop (w.start + w.count) (S.Source.bytes w.below)) (S.Store.kept w.below))) };

    fn write(&mut self, at: u64, value: u8) -> Result<(), Fault> {
        if at < (*self).len() {
            self.below.write(self.start + at, value)
        } else {
            Err(out_of_bounds(at))
        }
    }
}
