// Copies from any source to any store.
ghost use Rattle.std.specs.Prelude.{◌≡◌, min, length};
ghost use Rattle.store.specs.Copies.{copied_bytes};

use crate::sameness::byte_at;
use crate::source::Source;
use crate::store::Store;

// Copies as many bytes as both have, from the first on, and answers how many.
pub fn copy<S: Source, T: Store>(from: &S, to: &mut T) -> u64
    ensures count { result ≡ min (length (S.Source.bytes from.now)) (length (T.Source.bytes to.old)) }
    ensures after { T.Source.bytes to.new ≡ copied_bytes (S.Source.bytes from.now) (T.Source.bytes to.old) }
    ensures beside { T.Store.kept to.new ≡ T.Store.kept to.old }
{
    let count = from.len().min((*to).len());
    // By places: a zip with an iterator over the bytes takes 1.4 times the time from a ring.
    for at in 0..count {
        let _ = to.write(at, byte_at(from, at));
    }
    count
}
