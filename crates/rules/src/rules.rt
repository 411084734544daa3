// All rules, in the order of their numbers.
ghost use Rattle.std.specs.Prelude.{◌≡◌, is_some};
ghost use Rattle.rules.specs.Typing.{types, entries};
ghost use Rattle.rules.specs.Whole.{present_as, list_kept, kept};

use crate::packing::{blocks_fit, sizes_fit};
use crate::refused::require;
use crate::tiles::{side_fits, tiles_fit};
use crate::typed::Typed;
use boxes::{Boxes, Configuration};
use fault::{Fault, Reason};

// Version 0 has a definition box, and version 1 has none.
fn is_present_as(configuration: &Configuration, present: bool) -> bool
    ensures { result ≡ present_as configuration.now present }
{
    match configuration {
        Configuration::Listed(_) => present,
        Configuration::Brief(_) => !present,
    }
}

fn check_list(typed: &Typed, width: u32, height: u32) -> Result<(), Fault>
    ensures { result ≡ list_kept (types typed.now) typed.now.listing.now (entries typed.now) width height }
{
    let listing = typed.listing;
    typed.indexes()?;
    typed.depths()?;
    require(typed.interleaves(), Reason::Interleaving)?;
    require(blocks_fit(listing), Reason::Blocks)?;
    require(sizes_fit(listing), Reason::Alignment)?;
    require(tiles_fit(listing, width, height), Reason::Tiles)
}

pub fn check(boxes: &Boxes, width: u32, height: u32) -> Result<(), Fault>
    ensures { result ≡ kept boxes.now width height }
{
    let present = boxes.definition.is_some();
    require(
        is_present_as(&boxes.configuration, present),
        Reason::Presence,
    )?;
    require(side_fits(width) && side_fits(height), Reason::Dimensions)?;
    let listing = boxes.configuration.listing();
    check_list(&Typed::new(boxes, &listing), width, height)
}
