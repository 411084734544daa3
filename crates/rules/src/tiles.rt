// Tiles divide the frame, and chroma divides a tile.
ghost use Rattle.std.specs.Prelude.{◌≡◌, ◌+◌, ◌<◌};
ghost use Rattle.rules.specs.Tiles.{side_fits, divides, tiles_fit};

use boxes::Listing;

pub(crate) fn side_fits(n: u32) -> bool
    ensures { result ≡ side_fits n }
{
    1 <= n && n <= 32768
}

fn is_divided(n: u32, tiles_less_one: u32, shared: u64) -> bool
    requires { 0 < shared }
    ensures { result ≡ divides n (tiles_less_one + 1) shared }
{
    let n = u64::from(n);
    let tiles = u64::from(tiles_less_one) + 1;
    n % tiles == 0 && n / tiles % shared == 0
}

pub(crate) fn tiles_fit(listing: &Listing, width: u32, height: u32) -> bool
    ensures { result ≡ tiles_fit listing.now.packing.sampling listing.now.sizes width height }
{
    let sampling = listing.packing.sampling;
    is_divided(
        width,
        listing.sizes.tile_columns_less_one,
        sampling.across(),
    ) && is_divided(height, listing.sizes.tile_rows_less_one, sampling.down())
}
