// Bytes that can be read.
ghost use Rattle.std.specs.Prelude.{◌≡◌, ℕ, ◌≤◌, List, length};
ghost use Rattle.store.specs.Access.{Octets, read_answer};
ghost use Rattle.store.specs.Ends.{most_bytes};

use fault::Fault;

// No source is longer than this many bytes.
pub const LIMIT: u64 = 4_294_967_295;

pub trait Source {
    // What the source means: its bytes, from the first to the last.
    ghost bytes: { Self → List ℕ };

    fn len(&self) -> u64
        ensures is { result ≡ length (bytes self.now) }
        ensures short { result ≤ most_bytes }
        ensures each { Octets (bytes self.now) };

    fn read(&self, at: u64) -> Result<u8, Fault>
        ensures { result ≡ read_answer (bytes self.now) at };
}
