// A source or a store that is lent is one too, so that a window can lie over what someone else owns. A shared and an exclusive
// borrow have an impl each, as std's traits have.
ghost use Rattle.std.specs.Prelude.{[], ◌∷◌};
ghost use Rattle.store.specs.Unwritten.{along};

use crate::source::Source;
use crate::store::Store;
use fault::Fault;

impl<S: Source> Source for &S {
    ghost bytes = { λ r. S.Source.bytes r.now };

    fn len(&self) -> u64 {
        (**self).len()
    }

    fn read(&self, at: u64) -> Result<u8, Fault> {
        (**self).read(at)
    }
}

impl<S: Source> Source for &mut S {
    ghost bytes = { λ r. S.Source.bytes r.now };

    fn len(&self) -> u64 {
        (**self).len()
    }

    fn read(&self, at: u64) -> Result<u8, Fault> {
        (**self).read(at)
    }
}

impl<S: Store> Store for &mut S {
    ghost kept = { λ r. along (r.ghost_name ∷ []) (S.Store.kept r.now) };

    fn write(&mut self, at: u64, value: u8) -> Result<(), Fault> {
        (**self).write(at, value)
    }
}
