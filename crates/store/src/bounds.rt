// The one refusal of sources and stores.
ghost use Rattle.std.specs.Prelude.{◌≡◌};
ghost use Rattle.store.specs.Access.{outside};

use fault::{Fault, Layer, Reason};

// How a read or a write at or past the length is answered.
pub fn out_of_bounds(at: u64) -> Fault
    ensures { result ≡ outside at }
{
    Layer::Store.refuses(Reason::Bounds, at)
}
