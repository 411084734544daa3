// The bytes of one box, with the layer that answers for them: fields are read at an offset from the start of the box.
ghost use Rattle.std.specs.Prelude.{◌≡◌, ◌^◌, ◌<◌, ◌≤◌, length, IfOk, OnOk};
ghost use Rattle.fault.specs.Faults.{fault};
ghost use Rattle.fields.specs.Field.{part_at, byte_at, half_at, word_at};
ghost use Rattle.fields.specs.Header.{header_of, count_at, end_at};

use fault::{Fault, Layer, Reason};

#[derive(Clone, Copy, Debug, PartialEq, Eq)]
pub struct Reader<'a> {
    pub bytes: &'a [u8],
    pub layer: Layer,
}

impl<'a> Reader<'a> {
    // A refusal of what stands at an offset.
    pub fn refuses(self, reason: Reason, at: usize) -> Fault
        ensures { result ≡ fault reason self.entry.layer at }
    {
        self.layer.refuses(reason, at as u64)
    }

    // The N bytes from there on.
    fn part<const N: usize>(self, at: usize) -> Result<[u8; N], Fault>
        ensures { result ≡ part_at N self.entry.layer self.entry.bytes.now at }
    {
        let cut_short = self.refuses(Reason::Extent, at);
        let rest = self.bytes.get(at..).ok_or(cut_short)?;
        rest.first_chunk().copied().ok_or(cut_short)
    }

    pub fn byte(self, at: usize) -> Result<u8, Fault>
        ensures { result ≡ byte_at self.entry.layer self.entry.bytes.now at }
    {
        let [byte] = self.part::<1>(at)?;
        Ok(byte)
    }

    pub fn half(self, at: usize) -> Result<u16, Fault>
        ensures { result ≡ half_at self.entry.layer self.entry.bytes.now at }
    {
        Ok(u16::from_be_bytes(self.part(at)?))
    }

    pub fn word(self, at: usize) -> Result<u32, Fault>
        ensures { result ≡ word_at self.entry.layer self.entry.bytes.now at }
    {
        Ok(u32::from_be_bytes(self.part(at)?))
    }

    // The size of the box, and its type word.
    pub fn header(self, word: u32) -> Result<(), Fault>
        ensures is { result ≡ header_of self.entry.layer word self.entry.bytes.now }
        ensures short { OnOk result (length self.entry.bytes.now < 2 ^ 32) }
    {
        let size = self.word(0)?;
        if size as usize != self.bytes.len() {
            return Err(self.refuses(Reason::Extent, 0));
        }
        let found = self.word(4)?;
        if found != word {
            return Err(self.refuses(Reason::BoxType, 4));
        }
        Ok(())
    }

    // How many elements a list has.
    pub fn count(self, at: usize) -> Result<u8, Fault>
        ensures is { result ≡ count_at self.entry.layer self.entry.bytes.now at }
        ensures few { IfOk result (λ n. n ≤ 16) }
    {
        let count = self.word(at)?;
        if count == 0 || count > 16 {
            return Err(self.refuses(Reason::Count, at));
        }
        Ok(count as u8)
    }

    // No byte is left over.
    pub fn end(self, at: usize) -> Result<(), Fault>
        ensures { result ≡ end_at self.entry.layer (length self.entry.bytes.now) at }
    {
        if at < self.bytes.len() {
            return Err(self.refuses(Reason::Extent, at));
        }
        Ok(())
    }
}
