// What a caller knows of a buffer that it lent to a store.
ghost use Rattle.std.specs.Prelude.{◌≡◌, ◌++◌};
ghost use Rattle.store.specs.Access.{write_answer, written_bytes};
ghost use Rattle.store.specs.Ends.{cut, past_limit};

use fault::Fault;
use store::{Memory, Store};

// Once the memory is gone: one byte of the buffer is another, or none where the write is refused.
pub(crate) fn put(buffer: &mut [u8], at: u64, value: u8) -> Result<(), Fault>
    ensures answer { result ≡ write_answer (cut buffer.old) at }
    ensures after { buffer.new ≡ written_bytes (cut buffer.old) at value ++ past_limit buffer.old }
{
    let mut memory = Memory::new(buffer);
    memory.write(at, value)
}

// The same where the memory hands the buffer back, to go on with.
pub(crate) fn taken_back<'a>(buffer: &'a mut [u8], at: u64, value: u8) -> &'a mut [u8]
    ensures { result.now ≡ written_bytes (cut buffer.old) at value ++ past_limit buffer.old }
{
    let mut memory = Memory::new(buffer);
    let _ = memory.write(at, value);
    memory.release()
}
