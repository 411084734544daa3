// Where each bit of a value lies.
ghost use Rattle.std.specs.Prelude.{◌≡◌, IfOk};
ghost use Rattle.layout.specs.Locating.{missing, found_at, locate_answer};
ghost use Rattle.layout.specs.Finds.{part_number, position_in, Finds};
ghost use Rattle.layout.specs.Layouts.{shown};

use crate::coordinates::Found;
use crate::find::position;
use crate::layout::Layout;
use fault::{Fault, Layer, Reason};
use placement::Place;
use plans::Bits;

// What a frame may not have of a place and a bit.
#[derive(Clone, Copy, Debug, PartialEq, Eq)]
pub(crate) enum Part {
    Component,
    Column,
    Row,
    Bit,
}

impl From<Part> for u64 {
    ghost from_gives = { λ part number. number ≡ part_number part };

    fn from(part: Part) -> u64 {
        match part {
            Part::Component => 0,
            Part::Column => 1,
            Part::Row => 2,
            Part::Bit => 3,
        }
    }
}

impl Part {
    fn missing(self) -> Fault
        ensures { result ≡ missing (part_number self) }
    {
        Layer::Frame.refuses(Reason::NoSuchPlace, u64::from(self))
    }
}

impl Layout {
    // The place, if some entry lists its component, and the component's grid has its column and row.
    fn find(&self, place: Place) -> Result<Found, Fault>
        ensures position { position_in result ≡ found_at (shown self.now) place }
        ensures finds { IfOk result (Finds self.now place) }
    {
        let entries = self.frame.listed();
        let Some(position) = position(entries, place.index) else {
            return Err(Part::Component.missing());
        };
        let entry = entries[position];
        if place.column >= entry.columns {
            return Err(Part::Column.missing());
        }
        if place.row >= entry.rows {
            return Err(Part::Row.missing());
        }
        Ok(Found {
            layout: self,
            position,
            place,
        })
    }

    // The byte of a bit of the place's value, and its number in the byte. Bit 0 of a value is its highest bit, bit 7
    // of a byte its highest.
    pub fn locate(&self, place: Place, bit: u64) -> Result<(u64, u8), Fault>
        ensures { result ≡ locate_answer (shown self.now) place bit }
    {
        let found = self.find(place)?;
        if bit >= self.frame.listed()[found.position].depth.0 {
            return Err(Part::Bit.missing());
        }
        let (byte, number) = found.word().bit_place(Bits(bit));
        Ok((byte.0, number))
    }
}
