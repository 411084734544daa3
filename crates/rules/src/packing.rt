// Blocks, byte orders, the pixel size and alignments.
ghost use Rattle.std.specs.Prelude.{◌≡◌, ◌+◌, ◌*◌, ◌^◌, ◌<◌, ◌≤◌, map};
ghost use Rattle.std.specs.List.{list_all};
ghost use Rattle.configuration.specs.Encoded.{listed};
ghost use Rattle.placement.specs.Pack.{after, packed_end, blocks_end};
ghost use Rattle.rules.specs.Packing.{fits_block, is_aligned, no_block_flags, blocks_fit, cell_of, sized, pixel_bytes, whole_blocks, pixel_fits, sizes_fit};

use boxes::{Entry, Flags, Interleave, Listing, Packing};

fn fits_block(block: u8, entry: &Entry) -> bool
    ensures { result ≡ fits_block block entry.now }
{
    entry.depth() <= 8 * u16::from(block) && entry.align == 0
}

fn all_fit_block(block: u8, entries: &[Entry]) -> bool
    ensures { result ≡ list_all (fits_block block) entries.now }
{
    entries.iter().all(|e| fits_block(block, e))
}

fn all_aligned(entries: &[Entry]) -> bool
    ensures { result ≡ list_all is_aligned entries.now }
{
    entries.iter().all(|e| e.align != 0)
}

fn no_block_flags(flags: Flags) -> bool
    ensures { result ≡ no_block_flags flags }
{
    !flags.pad_low && !flags.block_little_endian && !flags.block_reversed
}

pub(crate) fn blocks_fit(listing: &Listing) -> bool
    ensures { result ≡ blocks_fit listing.now.packing.block listing.now.packing.flags (listed listing.now) }
{
    let Packing { block, flags, .. } = listing.packing;
    let entries = listing.entries();
    let packed = if block == 0 {
        no_block_flags(flags)
    } else {
        all_fit_block(block, entries)
    };
    block <= 8 && packed && (!flags.components_little_endian || all_aligned(entries))
}

// The layout's walks along a line are no twins to share: they count in units of bits and bytes, and begin and end anywhere.

// The next free bit after an entry, in a line without blocks.
fn bit_after(free: u64, entry: &Entry) -> u64
    requires { free ≤ 2 ^ 16 }
    ensures is { result ≡ after free (cell_of entry.now) }
    ensures near { result ≤ free + 2047 }
{
    if entry.align == 0 {
        free + u64::from(entry.depth_less_one) + 1
    } else {
        8 * ((free + 7) / 8 + u64::from(entry.align))
    }
}

// Without blocks: the next free bit after all entries, of which the first begins at a whole byte.
fn bits_after(listing: &Listing) -> u64
    ensures is { result ≡ packed_end 0 (map cell_of (listed listing.now)) }
    ensures near { result ≤ 2 ^ 16 }
{
    let mut free = 0;
    for entry in listing.entries() {
        free = bit_after(free, entry);
    }
    free
}

// With blocks: how many of them all entries use. A value that does not fit in the rest of a block opens the next one.
fn blocks_after(listing: &Listing) -> u64
    ensures is { result ≡ blocks_end (sized listing.now.packing.block) 0 0 (map cell_of (listed listing.now)) }
    ensures near { result ≤ 17 }
{
    let room = 8 * u64::from(listing.packing.block);
    let mut closed = 0;
    let mut held = 0;
    for entry in listing.entries() {
        let depth = u64::from(entry.depth());
        if held + depth <= room {
            held += depth;
        } else {
            closed += 1;
            held = depth;
        }
    }
    if held == 0 { closed } else { closed + 1 }
}

fn pixel_bytes(listing: &Listing) -> u64
    ensures { result ≡ pixel_bytes listing.now.packing.block (listed listing.now) }
{
    let block = listing.packing.block;
    if block == 0 {
        (bits_after(listing) + 7) / 8
    } else {
        blocks_after(listing) * u64::from(block)
    }
}

fn whole_blocks(block: u8, pixel: u32) -> bool
    ensures { result ≡ whole_blocks block pixel }
{
    block == 0 || pixel % u32::from(block) == 0
}

fn pixel_fits(listing: &Listing) -> bool
    ensures { result ≡ pixel_fits listing.now.packing.interleave listing.now.packing.block listing.now.sizes.pixel_size (listed listing.now) }
{
    let Packing {
        interleave,
        block,
        ..
    } = listing.packing;
    let pixel = listing.sizes.pixel_size;
    let enough = pixel_bytes(listing) <= u64::from(pixel);
    pixel == 0
        || (pixel <= 65535
            && interleave == Interleave::Pixel
            && whole_blocks(block, pixel)
            && enough)
}

pub(crate) fn sizes_fit(listing: &Listing) -> bool
    ensures { result ≡ sizes_fit listing.now.packing.interleave listing.now.packing.block listing.now.sizes (listed listing.now) }
{
    pixel_fits(listing) && listing.sizes.row_align <= 65536 && listing.sizes.tile_align <= 1_048_576
}
