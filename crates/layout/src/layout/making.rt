// From two boxes, a width and a height to a layout.
ghost use Rattle.std.specs.Prelude.{◌≡◌, ◌+◌, ◌≤◌, map, length, take, IfOk};
ghost use Rattle.boxes.specs.Pairs.{type_of};
ghost use Rattle.configuration.specs.Encoded.{listed as listed_in};
ghost use Rattle.plans.specs.Entries.{is_chroma, unsettled as unsettled_by, settled_in, entry_for};
ghost use Rattle.layout.specs.Layouts.{shown, shown_by};
ghost use Rattle.layout.specs.Locating.{Apart};
ghost use Rattle.layout.specs.Parts.{view_of};
ghost use Rattle.plans.specs.Views.{packing_for, view_by, layout_answer};

use super::Layout;
use crate::frame::Frame;
use crate::parts::Parts;
use boxes::{Boxes, ComponentType, Entry as ListedEntry, Flags, Format, Listing, Sampling, Sizes};
use fault::{Fault, Layer, Reason};
use plans::{Bits, Blocks, Bytes, Entry, Packing};
use rules::{NO_ENTRY, check};

// The bytes of the largest frame.
const LARGEST: u128 = 4_294_967_295;

const BLANK: Entry = Entry {
    index: 0,
    component_type: ComponentType::Mono,
    format: Format::Integer,
    depth: Bits(0),
    align: Bytes(0),
    columns: 0,
    rows: 0,
};

// The sides of a frame.
#[derive(Clone, Copy)]
struct Sides {
    width: u32,
    height: u32,
}

// U and V.
fn is_chroma(component_type: ComponentType) -> bool
    ensures { result ≡ is_chroma component_type }
{
    matches!(component_type, ComponentType::U | ComponentType::V)
}

// Fills in the grid of one entry.
fn settle(entry: &mut Entry, sampling: Sampling, sides: Sides)
    ensures { entry.new ≡ settled_in sampling sides.width sides.height entry.old }
{
    let (across, down) = if is_chroma(entry.component_type) {
        (sampling.across(), sampling.down())
    } else {
        (1, 1)
    };
    entry.columns = u64::from(sides.width) / across;
    entry.rows = u64::from(sides.height) / down;
}

// An entry as it is listed, with its component's type.
fn unsettled(boxes: &Boxes, entry: &ListedEntry) -> Entry
    ensures { result ≡ unsettled_by (type_of boxes.now) entry.now }
{
    // Each listed index is defined.
    let component_type = boxes.component_type(entry.index);
    Entry {
        index: entry.index,
        component_type: component_type.unwrap_or(ComponentType::Mono),
        format: entry.format,
        depth: Bits(u64::from(entry.depth())),
        align: Bytes(u64::from(entry.align)),
        columns: 0,
        rows: 0,
    }
}

// The entries of the list, each with its grid; the rest of the table stays blank.
fn table_of(boxes: &Boxes, entries: &[ListedEntry], sampling: Sampling, sides: Sides) -> [Entry; 16]
    requires { length entries.now ≤ 16 }
    ensures { take (length entries.now) result ≡ map (entry_for (type_of boxes.now) sampling sides.width sides.height) entries.now }
{
    let mut table = [BLANK; 16];
    // The table is lent by its index: after an adapter of `iter_mut` a proof knows none of its entries.
    for (i, entry) in entries.iter().enumerate() {
        table[i] = unsettled(boxes, entry);
        settle(&mut table[i], sampling, sides);
    }
    table
}

fn packing_of(block: u8, flags: Flags, sizes: &Sizes) -> Packing
    ensures { result ≡ packing_for block flags sizes.now }
{
    Packing {
        little: flags.components_little_endian,
        blocks: Blocks {
            bytes: Bytes(u64::from(block)),
            little: flags.block_little_endian,
            pad_low: flags.pad_low,
            reversed: flags.block_reversed,
        },
        pixel: Bytes(u64::from(sizes.pixel_size)),
        row_align: Bytes(u64::from(sizes.row_align)),
        tile_align: Bytes(u64::from(sizes.tile_align)),
    }
}

// How many tiles a box says there are, side by side.
fn tiles_of(less_one: u32) -> u64
    ensures { result ≡ less_one + 1 }
{
    u64::from(less_one) + 1
}

fn parts_of(boxes: &Boxes, listing: &Listing, sides: Sides) -> Parts
    ensures view { view_of result ≡ view_by (type_of boxes.now) listing.now sides.width sides.height }
    ensures counted { result.count ≡ length (view_of result).entries }
    ensures few { length (listed_in listing.now) ≤ 16 }
{
    let packing = listing.packing;
    let entries = listing.entries();
    let table = table_of(boxes, entries, packing.sampling, sides);
    Parts {
        width: sides.width,
        height: sides.height,
        sampling: packing.sampling,
        interleave: packing.interleave,
        packing: packing_of(packing.block, packing.flags, &listing.sizes),
        tile_columns: tiles_of(listing.sizes.tile_columns_less_one),
        tile_rows: tiles_of(listing.sizes.tile_rows_less_one),
        count: entries.len(),
        table,
    }
}

impl Layout {
    pub fn new(boxes: &Boxes, width: u32, height: u32) -> Result<Layout, Fault>
        ensures view { shown_by result ≡ layout_answer boxes.now width height }
        ensures apart { IfOk result (λ l. Apart (shown l)) }
    {
        check(boxes, width, height)?;
        let listing = boxes.configuration.listing();
        let frame = Frame {
            parts: parts_of(boxes, &listing, Sides { width, height }),
        };
        let size = frame.frame_bytes();
        if size > LARGEST {
            return Err(Layer::Configuration.refuses(Reason::FrameSize, NO_ENTRY));
        }
        Ok(Layout {
            frame,
            size: Bytes(size as u64),
        })
    }
}
