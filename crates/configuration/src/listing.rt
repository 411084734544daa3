// What a configuration box of version 0 says after its profile: the entries, how they are packed, and sizes.
ghost use Rattle.std.specs.Prelude.{◌≡◌, ◌+◌, ◌*◌, ◌≤◌, length};
ghost use Rattle.std.specs.List.{flat_map};
ghost use Rattle.configuration.specs.Encoded.{listed, entry_bytes, packing_bytes, sizes_bytes, listing_bytes};
ghost use Rattle.configuration.specs.Listings.{packing_by, sizes_by, listing_by};
ghost use Rattle.fields.specs.Put.{placed};

use crate::choice::choice_at;
use crate::entry::Entry;
use crate::form::Form;
use choices::{Flags, Interleave, Sampling};
use fault::Fault;
use fields::{Reader, Table, Whole, put, put_word};

// How values are packed into lines.
#[derive(Clone, Copy, Debug, PartialEq, Eq)]
pub struct Packing {
    pub sampling: Sampling,
    pub interleave: Interleave,
    // The bytes of a block, or 0 where values are not packed into blocks: the number as it is stored.
    pub block: u8,
    pub flags: Flags,
}

// Sizes in bytes, 0 where nothing is rounded up, and how many tiles there are: the numbers as they are stored.
#[derive(Clone, Copy, Debug, PartialEq, Eq)]
pub struct Sizes {
    pub pixel_size: u32,
    pub row_align: u32,
    pub tile_align: u32,
    pub tile_columns_less_one: u32,
    pub tile_rows_less_one: u32,
}

#[derive(Clone, Copy, Debug, PartialEq, Eq)]
pub struct Listing {
    pub profile: u32,
    pub(crate) entries: Table<Entry>,
    pub packing: Packing,
    pub sizes: Sizes,
}

fn packing_at(reader: Reader, at: usize) -> Result<Packing, Fault>
    ensures { result ≡ packing_by reader.entry.layer reader.entry.bytes.now at }
{
    let sampling = choice_at(reader, at)?;
    let interleave = choice_at(reader, at + 1)?;
    let block = reader.byte(at + 2)?;
    let flags = choice_at(reader, at + 3)?;
    Ok(Packing {
        sampling,
        interleave,
        block,
        flags,
    })
}

fn sizes_at(reader: Reader, at: usize) -> Result<Sizes, Fault>
    ensures { result ≡ sizes_by reader.entry.layer reader.entry.bytes.now at }
{
    Ok(Sizes {
        pixel_size: reader.word(at)?,
        row_align: reader.word(at + 4)?,
        tile_align: reader.word(at + 8)?,
        tile_columns_less_one: reader.word(at + 12)?,
        tile_rows_less_one: reader.word(at + 16)?,
    })
}

// Writes the entries one after another, from the first one's place on.
fn put_entries(out: &mut [u8], entries: &[Entry])
    requires { 20 + 5 * length entries.now ≤ length out.old }
    ensures { out.new ≡ placed out.old 20 (flat_map entry_bytes entries.now) }
{
    for (i, entry) in entries.iter().enumerate() {
        entry.put(out, 20 + 5 * i);
    }
}

impl Packing {
    fn put(&self, out: &mut [u8], at: usize)
        requires { at + 4 ≤ length out.old }
        ensures { out.new ≡ placed out.old at (packing_bytes self.now) }
    {
        let sampling = u8::from(self.sampling);
        let interleave = u8::from(self.interleave);
        let flags = u8::from(self.flags);
        put(out, at, &[sampling, interleave, self.block, flags]);
    }
}

impl Sizes {
    fn put(&self, out: &mut [u8], at: usize)
        requires { at + 20 ≤ length out.old }
        ensures { out.new ≡ placed out.old at (sizes_bytes self.now) }
    {
        put_word(out, at, self.pixel_size);
        put_word(out, at + 4, self.row_align);
        put_word(out, at + 8, self.tile_align);
        put_word(out, at + 12, self.tile_columns_less_one);
        put_word(out, at + 16, self.tile_rows_less_one);
    }
}

impl Listing {
    // What stands from the count on, to the end of the box.
    pub(crate) fn read(whole: Whole, profile: u32) -> Result<Listing, Fault>
        ensures { result ≡ listing_by profile whole.entry.reader.layer whole.entry.reader.bytes.now }
    {
        let reader = whole.reader;
        let entries = whole.list(16)?;
        let packing = packing_at(reader, entries.next)?;
        let sizes = sizes_at(reader, entries.next + 4)?;
        reader.end(entries.next + 24)?;
        Ok(Listing {
            profile,
            entries: entries.value,
            packing,
            sizes,
        })
    }

    // The listed entries, in their order.
    pub fn entries(&self) -> &[Entry]
        ensures value { result.now ≡ listed self.now }
        ensures few { length result.now ≤ 16 }
    {
        self.entries.as_slice()
    }

    // The bytes of the whole box.
    pub(crate) fn size(&self) -> usize
        ensures is { result ≡ 44 + 5 * length (listed self.now) }
    {
        44 + 5 * self.entries().len()
    }

    // Writes what the box holds after its type word.
    pub(crate) fn put(&self, out: &mut [u8])
        requires { 44 + 5 * length (listed self.now) ≤ length out.old }
        ensures { out.new ≡ placed out.old 8 (listing_bytes self.now) }
    {
        let entries = self.entries();
        let n = entries.len();
        put(out, 8, &[u8::from(Form::Long), 0, 0, 0]);
        put_word(out, 12, self.profile);
        put_word(out, 16, n as u32);
        put_entries(out, entries);
        self.packing.put(out, 20 + 5 * n);
        self.sizes.put(out, 24 + 5 * n);
    }
}
