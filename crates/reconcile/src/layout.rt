// How values are laid out, one line for each property.
use crate::shown::Bytes;
use boxes::{Listing, Packing, Sizes};
use std::io;

// Flags of the blocks are shown as they are set, even where there are no blocks.
fn print_blocks(rt: &HostRuntime, packing: &Packing) -> io::Result<()> {
    let block = Bytes(u64::from(packing.block));
    print!(rt; "  blocks      {block}")?;
    if packing.flags.pad_low {
        print!(rt; ", pad low")?;
    }
    if packing.flags.block_little_endian {
        print!(rt; ", little-endian")?;
    }
    if packing.flags.block_reversed {
        print!(rt; ", reversed")?;
    }
    println!(rt; "")
}

fn print_packing(rt: &HostRuntime, packing: &Packing) -> io::Result<()> {
    let sampling = packing.sampling;
    let interleave = packing.interleave;
    println!(rt; "  sampling    {sampling}")?;
    println!(rt; "  interleave  {interleave}")?;
    print_blocks(rt, packing)?;
    if packing.flags.components_little_endian {
        println!(rt; "  byte order  components little-endian")?;
    }
    Ok(())
}

fn print_sizes(rt: &HostRuntime, sizes: &Sizes) -> io::Result<()> {
    let pixel_size = Bytes(u64::from(sizes.pixel_size));
    let row_align = Bytes(u64::from(sizes.row_align));
    let tile_align = Bytes(u64::from(sizes.tile_align));
    let columns = u64::from(sizes.tile_columns_less_one) + 1;
    let rows = u64::from(sizes.tile_rows_less_one) + 1;
    println!(rt; "  pixel size  {pixel_size}")?;
    println!(rt; "  row align   {row_align}")?;
    println!(rt; "  tile align  {tile_align}")?;
    println!(rt; "  tiles       {columns} x {rows}")
}

pub(crate) fn print_layout(rt: &HostRuntime, listing: &Listing) -> io::Result<()> {
    print_packing(rt, &listing.packing)?;
    print_sizes(rt, &listing.sizes)?;
    if listing.packing.flags.pad_unknown {
        println!(rt; "  unused bits are unknown")?;
    }
    Ok(())
}
