// Bytes that can be read and written.
ghost use Rattle.std.specs.Prelude.{◌≡◌};
ghost use Rattle.store.specs.Access.{write_answer, written_bytes};
ghost use Rattle.store.specs.Unwritten.{Unwritten};

use crate::source::Source;
use fault::Fault;

pub trait Store: Source {
    // All of the store but its bytes. A write leaves it as it was, so that a caller who takes the store apart
    // knows what lay beside the bytes too.
    ghost kept: { Self → Unwritten };

    fn write(&mut self, at: u64, value: u8) -> Result<(), Fault>
        ensures answer { result ≡ write_answer (Self.Source.bytes self.old) at }
        ensures after { Self.Source.bytes self.new ≡ written_bytes (Self.Source.bytes self.old) at value }
        ensures beside { kept self.new ≡ kept self.old };
}
